//! The language of player code: the 6502's own instructions with operands by label, scopes that are left forwards,
//! loops that are bounded, and lines that are kept under conditions.
//!
//! A block is a flat list of lines, written once as a constant. The layer's one contract: what its lines mean, as a
//! function of the desk, computes, and worked blocks mean what they say.
//!
//! It stands on `cpu6502`: what an instruction does on the desk is what it does on the machine. See `docs/scopes.md`.
#![tactic(auto)]

pub mod claims;
mod line;
mod text;
mod worked;

pub use cpu6502::Mnemonic;
pub use line::{Flag, Half, Line, OPEN, OVER, Operand, Test};
