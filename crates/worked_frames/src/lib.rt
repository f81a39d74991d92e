//! Frames of small songs as another reading of the rules has them: what the frame function of `play_model` leaves in
//! the SID's 25 registers, call by call, in the runs of 39 songs with and without options.
//!
//! The layer's one contract: the trace of each of these songs has the registers that were worked out elsewhere, so
//! that a definition of a rule that says something else is refused.
//!
//! It stands on `play_model`, whose definitions it computes, and nothing stands on it. `bench/worked_frames.py` writes
//! the songs and their registers from that reading's output.
#![tactic(auto)]

/// Facts about the definitions of `play_model`.
pub mod claims;
