//! New numbers for the rows of tables: what a song doesn't use is left out, and equal programs and speeds are stored
//! once.
//!
//! The layer's one contract: a look-up by the new number finds the old row, or the row of an equal program that stands
//! for it, so a program of the new table does what the old one did.
//! `renumber` leaves out rows, `merge_speed` stores equal rows of the speed table once, and `merge_programs` names the
//! rows that stand for those of equal programs.
//!
//! It stands on `packing_rules`, whose definitions say which programs are stored once and which numbers come out, on
//! `song_model` for tables, and on `arrayvec` and `indexmap`. See `docs/packed-form.md`.
#![tactic(auto)]

/// Facts about the definitions.
pub mod claims;
mod closed;
mod equal;
mod marks;
mod programs;
mod renumbering;
mod segments;
mod speeds;

pub use base::NoMemory;
pub use marks::ByteMarks;
pub use programs::{ProgramMap, merge_programs};
pub use renumbering::{TableMap, renumber};
pub use speeds::merge_speed;
