//! A text listing of 6502 code: its printer, and its reader, which is an assembler.
//!
//! The layer's one contract: `read` gives the origin, the bytes and the fixes of the lines of a text exactly where
//! nothing is wrong with it, and otherwise the first of five faults with its line; `print` gives the listing of an
//! image, and reading that gives the image back. What a line spells stands apart from the code that reads it, as one
//! spelling of each statement (`specs/Statements.antt`, `specs/Lines.antt`); what is wrong with a text is said of its
//! lines and statements (`specs/Faults.antt`).
//!
//! It stands on `asm6502`, which knows the bytes of statements and the addresses of labels, on `cpu6502` for the
//! decode table, on `base` for lists, and on `arrayvec` for the text of one line. See `docs/assembler.md`.
#![tactic(auto)]

pub mod claims;
mod faults;
mod laying;
mod lines;
mod names;
mod numbers;
mod printing;
mod reading;
mod refusing;
mod spelling;
mod statements;
mod words;

pub use asm6502::Assembled;
pub use base::{ByteList, NoMemory};
pub use faults::{TextFault, TextKind};
pub use names::{NAMES, Name};
pub use printing::print;
pub use reading::{MOST_BYTES, read};
pub use statements::{Operand, Script, Statement, Written};
