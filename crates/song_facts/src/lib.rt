//! Facts of a song beside its features: what its rows, instruments and wave programs have, in what two of its
//! instruments differ, whether it has several subtunes, which of its channels have something to play, and whether its
//! first instrument holds more before a note than another, so that a player may leave out what no song like it needs.
//!
//! The layer's one contract: it says of each fact which songs have it (`HasFact`), and which set of facts is a song's
//! (`AreFacts`), and what an instrument holds before its notes (`Hold`). Its code tells whether a row, an instrument or
//! two of them give a song a fact; `usage` answers the set.
//!
//! It stands on `song_model` for the song, and on `play_model` for what of a song is used.
#![tactic(auto)]

/// Facts about the definitions.
pub mod claims;
mod facts;
mod hold;

pub use facts::{Fact, Facts, is_heard};
pub use hold::{Hold, holds_more};
