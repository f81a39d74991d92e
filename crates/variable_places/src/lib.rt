//! Which of the player's variables have a byte, and where it stands.
//!
//! A variable has a byte where a line may name it that is kept. Its one contract: the bytes of a voice stand 7 behind
//! those of the voice before it, seven fields to a group; those of all voices fill what is left of the last group and
//! stand behind it; those that aren't cleared stand first; no two have the same place; and each label that a kept line
//! names has one.
//!
//! It stands on `player_memory` for the tables of variables, on `player_text` for the lines, on `narrow_runs` for what
//! labels they name, and on `scope_lines` for sets of conditions. See `docs/player-blocks.md`.
#![tactic(auto)]

pub mod claims;
mod places;
mod standing;

pub use places::{Places, variable_places};
