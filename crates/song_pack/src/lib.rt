//! Packing a song: the packed song that stands for it.
//!
//! The layer's one contract: `pack_song` gives a packed song that plays what the song plays (`StandsFor`), with the size
//! that the packed form's definitions name, or it tells the first pattern that is too long.
//! Only what is used is packed. Tables are packed in the order speed, filter, pulse, wave, since the wave table points
//! into the others; then instruments, the first one first and the others by what they hold before their notes; and then
//! patterns. Programs that are equal, and patterns with the same text, are stored once.
//!
//! It stands on `usage` for what a song uses, on `song_facts` for its facts, on `number_range` for the numbers that it
//! asks for, on `table_pack` and `pattern_pack` for new numbers and packed patterns, on `packed_form` and `packing_rules`
//! for what is packed, on `same_frames` for the reason that a song under new numbers plays the same, and on `indexmap`
//! to find equal texts. See `docs/packed-form.md`.
#![tactic(auto)]

/// Facts about the definitions.
pub mod claims;
mod faults;
mod instrument_order;
mod instruments;
mod numbers;
mod orders;
mod packing;
mod patterns;
mod programs;
mod tables;

pub use faults::PackFault;
pub use packing::pack_song;
