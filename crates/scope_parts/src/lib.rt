//! The parts of a block: whose each byte of its lines is.
//!
//! A part is a condition, and a byte belongs to the innermost one under which its line stands; what stands under none
//! belongs to the part in which the block stands. So a byte that is kept is counted once.
//!
//! The layer's one contract: the parts that are made of a block's lines are those of its tree, byte for byte.
//!
//! It stands on `scopes` for the language and on `scope_lines` for the bytes of a line. See `docs/scopes.md`.
#![tactic(auto)]

pub mod claims;
mod parts;

pub use base::{ByteList, NoMemory};
pub use parts::push_parts;
pub use scope_lines::{Conditions, Line};
