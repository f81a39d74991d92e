//! The range of the frequency table that a song asks for, so that a player may store that part of it alone.
//!
//! The layer's one contract: `number_range` answers the range of the song's asked numbers (`IsNumberRange`): each of
//! them lies in it, and its first and its last are such numbers, so that it is the song's one range. It takes no memory,
//! and its work is linear in the song's orderlists and patterns.
//!
//! It stands on `asked_numbers` for what a song asks for and for ranges, on `usage` for what the song uses, with its
//! features and facts, on `play_model` and `song_model` for the song, and on `base` for lemmas.
#![tactic(auto)]

mod notes;
mod numbers;
mod orders;
mod range;
mod sets;
mod sides;

pub use range::number_range;
