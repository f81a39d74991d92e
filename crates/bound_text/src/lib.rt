//! The numbers of a bound as text: each in decimal on a line of its own.
//!
//! The layer's one contract: a text is read as the numbers whose text it is, or else its first line is told that isn't a
//! number's; and `push_text` writes the text of numbers.
//!
//! It stands on `cycle_bound` for the numbers, on `base`, and on `itoa`. See `docs/cycles.md`.
#![tactic(auto)]

/// Facts about the definitions.
pub mod claims;
mod reading;
mod writing;

pub use base::NoMemory;
pub use cycle_bound::Numbers;
pub use reading::{TextFault, read};
pub use writing::push_text;
