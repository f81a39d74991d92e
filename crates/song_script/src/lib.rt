//! A song, as the script of edits that makes it of the empty song.
//!
//! The layer's one contract: `show` gives the script of a song exactly where it has no more bytes than a script may
//! have, and otherwise says how many it has. What the script says is one list of statements (`specs/Shown.antt`), each
//! part of a song in a definition of its own (`specs/Parts.antt`); that its edits make exactly this song of the empty
//! one is a law above that (`claims::scripts_make_the_song`). See `docs/edit-script.md`.
//!
//! It stands on `base` for lists, `song_model` for songs, `edit_ops` and `edit_script` for edits and the forms of their
//! lines, `edit_history` for what edits make, and `hex` for the meaning of digits. The command `show` stands on it.
#![tactic(auto)]

/// Facts about the definitions.
pub mod claims;
mod digits;
mod instruments;
mod lines;
mod making;
mod orders;
mod patterns;
mod showing;
mod tables;
mod texts;
mod words;

pub use showing::{ShowFault, show};
