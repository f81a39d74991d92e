//! The program's top call: words, a folder and a sink go in, and a status comes out.
//!
//! The one contract: where no device fails and memory is found, one of the outcomes comes about, with its line and its
//! file; a file that is written holds an image that plays the song that was read, whatever else is in memory. Each
//! status comes only where its cause does.
//!
//! What a job is, and what became of it, is said in `jobs`; the jobs that make no player are done there, in `file_jobs`, in
//! `cost_jobs` and in `length_jobs`. Here a song is packed with a player of its own, a song that is made from a number is
//! traced, packed and run, and the program tells of itself.
//!
//! It stands on these four, on `command_line` for words and lines, on `goat_io` for folders and sinks, on `player_build`
//! for the image of a packed song, and on `song_gen` for songs that are made from numbers.
#![tactic(auto)]

mod commands;
mod help;
mod images;
mod pack;
mod program;
mod selftest;
mod top;

pub use command_line::{Job, WordsFault, parse_words};
pub use program::run_program;
pub use top::goat;
