//! Edits of a song, and the way back from each.
//!
//! The layer's one contract: `apply` does what `edited` says of an edit, or refuses it for the first of three
//! reasons, before it asks for memory; and the inverse that it answers leads back, without memory, to the song
//! that was before.
//! Its definitions are the table of the nineteen edits, a column after the other: which place an edit speaks of,
//! which limit it keeps, which value it takes, what it does. How pointers move with the rows of a table is one
//! definition over each pointer of a song.
//! It stands on `base` and `song_model`. The history of edits stands on it.
#![tactic(auto)]

mod applying;
/// Facts about the definitions.
pub mod claims;
mod edits;
mod instruments;
mod inverses;
mod lists;
mod numbered;
mod orders;
mod others;
mod patterns;
mod pointers;
mod shifts;
mod splices;
mod tables;

pub use applying::apply;
pub use edits::{Edit, EditFault};
pub use inverses::{Inverse, PointerParts, revert};
pub use numbered::NumberedPattern;
pub use shifts::Shift;
pub use song_model::NoMemory;
pub use splices::Splice;
