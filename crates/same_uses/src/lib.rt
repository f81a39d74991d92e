//! Why a song may be played from other patterns and needs no more of its player.
//!
//! The layer's one contract: a song that adds no row to another one (`AddsNoRow`) uses no more (`UsesNoMore`). It
//! adds none where it has the other one's instruments, tables and number of subtunes, and where each of its orderlists
//! has no repeat, no transpose and no row that the other one's of the same channel hasn't, as where a pattern is cut
//! into pieces. Then it comes to no other instrument and no other row of a table, has no other feature and no other
//! fact, and asks for no other number of the frequency table.
//!
//! It stands on `asked_numbers` and `song_facts` for the numbers and the facts of a song, on `play_model` for what of a
//! song is used, and on `song_model` for the song. It has no code.
#![tactic(auto)]

/// Facts about the definitions.
pub mod claims;
