//! The lines of a block of scopes, and the proof that they do what the block means.
//!
//! The layer's one contract: the lines of a block, in any listing that assembles around them, do what the block means
//! where it comes to its end, from any state in whose memory they stand: the same registers, flags and memory behind
//! the last line, in exactly as many steps as the meaning counts and as many clock cycles as its lines take where they
//! stand, with writes at the places that the layout allows and the pointer's alone. Where the block reads the registers
//! that are known alone, it does the same in as many cycles whatever was in all others.
//!
//! It stands on `scopes` for the language and on `asm6502` for lines that stand; it never sees a byte of code. See
//! `docs/scopes.md`.
#![tactic(auto)]

pub mod claims;
mod instructions;
mod lowered;
mod worked;

pub use asm6502::Listing;
pub use base::NoMemory;
pub use instructions::{alone_mode, mode_of, own_size};
pub use lowered::{Conditions, Place, lower, measure, size_of};
pub use scopes::Line;
