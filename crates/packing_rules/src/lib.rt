//! What packing keeps of a song: which of its parts are stored, which programs and texts are stored once, and under
//! which new numbers.
//!
//! It has definitions and laws, and no code. `Segments` says which rows of a table stand for others, `ProgramMaps` when
//! new numbers keep programs, `Renumbering` what the new numbers are, and `SongSizes` how many bytes a song has, packed
//! and with nothing stored twice.
//!
//! The layer's one contract: the map to the rows that stay keeps programs, so what is read in them stays, and storing
//! things once makes nothing longer.
//!
//! It stands on `packed_form`, whose texts of patterns it compares, on `song_model` for songs, on `song_facts` for what
//! instruments hold before their notes, and on `play_model` for what a song uses and when it can be played. See
//! `docs/packed-form.md`.
#![tactic(auto)]

/// Facts about the definitions.
pub mod claims;
