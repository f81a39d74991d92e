//! Packing a song with its patterns cut, where that takes fewer bytes.
//!
//! The layer's one contract: `pack_shorter` packs the one song that is packed for a song (`IsPackedFor`): the song with
//! its patterns cut, where that can be packed to fewer bytes and no option is heard where a pattern begins, and else the
//! song as it is. It plays what the song plays with these options, asks for the same, and is no longer. A pattern that is
//! too long is told exactly where the song itself has one.
//!
//! It stands on `song_cut` and `pattern_cut` for the song with its patterns cut, on `song_pack` for packed songs, on
//! `usage` for what the song uses whose patterns are cut, on `packing_rules` and `packed_form` for sizes, on `same_frames`
//! and `play_model` for what is played, on `song_model` for the song, and on `base`. See `docs/packed-form.md`.
#![tactic(auto)]

/// Facts about the definitions.
pub mod claims;
mod packing;

pub use packing::pack_shorter;
