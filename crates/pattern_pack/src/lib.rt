//! Packing a pattern, and unpacking it.
//!
//! The layer's one contract: `pack_pattern` gives the text that the packer's rule names, which spells the pattern's
//! normal rows in as few bytes as can, and `unpack_pattern` gives rows exactly where the bytes spell them, and otherwise
//! the first fault.
//!
//! It stands on `packed_form`, whose definitions say what bytes spell, which text is packed and what a fault is, on
//! `song_model` for patterns, and on `arrayvec` for texts that take no memory. See `docs/packed-form.md`.
#![tactic(auto)]

/// Facts about packed patterns.
pub mod claims;
mod commands;
mod faults;
mod packing;
mod rows;
mod texts;
mod unpacking;

pub use faults::PatternTooLong;
pub use packing::pack_pattern;
pub use unpacking::{MOST_BYTES, unpack_pattern};
