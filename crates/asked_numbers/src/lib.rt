//! Which numbers of the frequency table a song asks for, so that a player may store the range of them alone.
//!
//! The layer's one contract: it says of each number whether a song asks for it (`IsAskedNumber`), which range is a
//! song's (`IsNumberRange`), and when a song asks for no number that another one doesn't (`AddsNoNumber`). A song has one
//! range, with no number above 128. `number_range` answers it, and `kept_notes` says that no voice looks up other numbers.
//!
//! It stands on `play_model` for what of a song is used, on `song_model` for the song, and on `base` for lemmas. Its
//! only code is the type of ranges.
#![tactic(auto)]

/// Facts about the definitions.
pub mod claims;
mod range;

pub use range::NumberRange;
