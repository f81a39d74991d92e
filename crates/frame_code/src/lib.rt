//! The player's two entrances, as calls: one plays a frame, the filter and then each voice, and one begins a subtune.
//!
//! Its contract: in any memory that holds a state of a packed song, for which the steps of the frame are ready, the
//! code of a frame leaves the state behind the frame and its 25 registers; and in any memory with the song's lists, and
//! 0 in each variable that isn't cleared, the code of a beginning leaves the start state of its subtune.
//!
//! It stands on `filter_code`, `voice_code` and `init_code` for what the blocks do, on `scope_calls` for what calls mean,
//! and on `kept_lines` for the numbers with which a subtune begins.
//!
//! `worked_blocks` has what its definitions take and refuse.
#![tactic(auto)]

pub mod claims;
