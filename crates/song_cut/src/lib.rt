//! Cutting a song's patterns: the song whose patterns are pieces of them, each once.
//!
//! The layer's one contract: `cut_song` gives the song that the definition of the greedy choice names. Each distinct
//! piece of a named pattern, in all five lengths, is found and weighed once; a try of other lengths then walks along
//! numbers of pieces, and adds up the lengths of the orderlists.
//!
//! It stands on `pattern_cut` for what pieces are and how their lengths are chosen, on `pattern_pack` for what a piece
//! weighs, on `packing_rules` for lists with each item once, on `song_model` for songs, on `play_model` for which ones
//! can be played, on `indexmap` to find equal pieces, on `arrayvec` for lists that take no memory, and on `base`.
#![tactic(auto)]

mod choice;
mod collecting;
mod cutting;
mod marks;
mod orders;
mod seen;
mod table;
mod weights;

pub use cutting::cut_song;
