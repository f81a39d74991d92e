//! When a layout keeps what the player's blocks ask for.
//!
//! Its contract: a layout with the set of conditions that `kept_lines` makes for a song and for options keeps the lines
//! of each of the song's features and facts and of no other facts, of each option as it is, and of what these have in
//! common, and sets the timer exactly where the speed is above 1.
//!
//! It has no code. It stands on `kept_lines` for the set, and on `slide_code` and `voice_code` for what their blocks ask
//! for. See `docs/player-blocks.md`.
#![tactic(auto)]

pub mod claims;
