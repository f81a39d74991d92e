//! A bound on the clock cycles of a block, with numbers that say why.
//!
//! Each line of a block has a number: how many cycles pass at most from there to the end of the block, and in a loop to the
//! end of a turn. A call of an entrance has one more in front of those of its blocks. Where the numbers are admitted by
//! their rules, which are asked line by line, a block that comes to its end takes at most the first one, wherever it
//! stands, and a call of an entrance that returns at most its number and 11. `make` gives the least numbers; `check` answers
//! the first one exactly where the rules admit them, and else the first fault.
//!
//! It stands on `scope_calls` for entrances, on `scope_lines` and `scopes` for blocks, on `cpu6502` and `code_runs` for
//! cycles, and on `base`. See `docs/scopes.md`.
#![tactic(auto)]

mod checks;
pub mod claims;
mod least;
mod lines;
mod worked;

pub use base::NoMemory;
pub use checks::{CertFault, CertKind, call_count, check};
pub use least::{Numbers, make};
pub use lines::Kept;
pub use scope_lines::{Conditions, Line};
