//! A large song from a number.
//!
//! The layer's one contract: `generate` gives the song of the definition, which can be played and packed.
//! The song has four instruments, a hundred patterns and eight subtunes. What is free in it is drawn from the number, in
//! a stated order, so that a number names the same song in each version and on each machine.
//!
//! It stands on `song_model` for songs, and on `play_model`, `packed_form` and `packing_rules` for what its laws say. See
//! `docs/song-format.md`.
#![tactic(auto)]

/// Facts about the definitions.
pub mod claims;
mod draws;
mod generating;
mod instruments;
mod patterns;
mod subtunes;
mod tables;

pub use base::NoMemory;
pub use generating::generate;
