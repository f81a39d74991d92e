//! An assembler for the 6502: a listing of labels, instructions and bytes becomes the bytes of a program.
//!
//! The layer that knows how instructions are spelled, so that no layer above sees a byte of code. Its one contract is
//! that of `assemble`: the kept lines stand one after the other at their addresses, and in any memory that holds the
//! bytes each of them is read by the machine's own decode table as the line that it is; a listing is refused exactly
//! where something is wrong with it, by the first of five refusals; and moved to another origin the bytes are those
//! of assembling there. Its definitions are in `specs/`, of which `Standing` and `Stretches` are those that callers
//! reason with.
//!
//! It stands on `cpu6502` for the decode table, on `code_runs` for instructions that stand in memory, on `base` for
//! lists, and on `arrayvec`. See `docs/assembler.md`.
#![tactic(auto)]

mod assembled;
mod assembling;
pub mod claims;
mod encodings;
mod faults;
mod fixes;
mod instructions;
mod labels;
mod lines;
mod moving;
mod output;

pub use assembled::Assembled;
pub use assembling::assemble;
pub use base::{ByteList, NoMemory};
pub use encodings::{decode, encode};
pub use faults::{AsmFault, PastEnd};
pub use fixes::{Fix, FixKind, FixList};
pub use instructions::{Encoded, Instr};
pub use lines::{Item, Line, Listing, MOST_BYTES, MOST_LINES, Operand, PartSet};
