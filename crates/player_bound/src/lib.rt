//! A bound on the clock cycles of a packed song's calls.
//!
//! The layer's one contract: for a packed song and options it makes the least numbers that the rules admit for the
//! program that every image of them has, and checks numbers against the same rules. No call of such an image, in any
//! history and whatever the rest of memory holds, takes more cycles than the first admitted number of its entrance, and
//! 11 for what stands around it.
//!
//! It stands on `cycle_bound` for the rules, on `player_text` for the program's blocks, and on `player_image` for what an
//! image is. See `docs/cycles.md`.
#![tactic(auto)]

mod bounds;
/// Facts about the definitions.
pub mod claims;
mod programs;

pub use base::NoMemory;
pub use bounds::{CallBounds, Certificate, check, make};
pub use cycle_bound::{CertFault, CertKind, Numbers};
