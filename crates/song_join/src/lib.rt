//! Two songs in one file.
//!
//! The layer's one contract: `join` gives the first song with the second one behind it under new numbers (`joined`), or
//! the first reason by which they can't be joined. What each of them plays, the joined song plays too: a song whose
//! instruments or speeds aren't stored, or that comes to play a note with the instrument that each voice begins with, is
//! refused, since there the other song's would be met.
//!
//! It stands on `usage` for what a song uses, on `same_frames` for parts under new numbers and for the reason that they
//! play the same, on `safe_states` for what a playable song comes to, on `play_model` for what can be played, on
//! `song_model` for the song, and on `base` for lemmas.
#![tactic(auto)]

/// Facts about the definitions.
pub mod claims;
mod faults;
mod joining;
mod limits;
mod loose;
mod numbers;
mod openings;
mod parts;
mod timers;

pub use faults::{JoinFault, JoinPart};
pub use joining::join;
