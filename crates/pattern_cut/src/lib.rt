//! Why the patterns of a song may be cut into pieces, and how they are.
//!
//! The layer's main contract: a song whose patterns are cut (`cut_with`), with any lengths with which the pieces fit,
//! can be played, plays the same where the pulse step isn't left out between two patterns, and asks for the same. It
//! holds since the orderlists that name the pieces play the same rows with the same transposes: a pattern that is
//! repeated stays whole, and a restart position is that of the first piece of the pattern that stood there.
//!
//! Beside it: how long the pieces are chosen to be (`cut_song`), by the bytes of orderlists and patterns, and that they
//! fit then.
//!
//! It stands on `same_frames`, which says when two orderlists play the same rows and that they sound the same then, on
//! `same_uses` for what a song asks for that plays no other rows, on `packing_rules` for pieces that stand once, on
//! `pattern_pack` for how long packed patterns are, on `packed_form` for what they are, on `asked_numbers`, `song_facts`
//! and `play_model` for what a song plays and asks for, on `song_model` for the song, and on `base`. It has no code but
//! the type of lengths.
#![tactic(auto)]

/// Facts about the definitions.
pub mod claims;
mod lengths;

pub use lengths::PieceLength;
