//! Reading and writing songs of the format GTS5, as GoatTracker 2 writes them.
//!
//! The layer's one contract: `read` gives a song exactly where the bytes spell it, in any spelling that the
//! format allows, and otherwise the first fault, with its offset; `write` gives the canonical spelling.
//! `Spells` says what a text spells, apart from the code; `fault_of` names the first fault of a text that
//! spells no song. Each text has one or the other.
//! It stands on `song_model`, whose types keep the format's limits. The program that reads and writes
//! files stands on it.
#![tactic(auto)]

/// Facts about the definitions.
pub mod claims;
mod faults;
mod instruments;
mod orders;
mod patterns;
mod reader;
mod songs;
mod tables;
mod texts;
mod writing;

pub use faults::SongFault;
pub use song_model::NoMemory;
pub use songs::{MOST_BYTES, read};
pub use writing::write;
