//! A 6502 processor with its memory of 65,536 bytes, as a value that is stepped.
//!
//! The lowest layer that knows machine code. The decode table, a constant of `table.rt` that code and definitions
//! share, gives each opcode its name, its addressing mode and its cycles; what a name does is said once, in `specs/`.
//! The one contract is that of `Machine::call`: it answers exactly when the steps of that definition return to the
//! caller, and says how many there were, where it stopped, and what was written to the SID.
//!
//! It stands on `base`, and on `arrayvec` for the log that takes no memory. The source of the rules is
//! the MOS 6502 programming manual. See `docs/machine.md`.
#![tactic(auto)]

mod address;
mod arithmetic;
mod branch;
pub mod claims;
mod compare;
mod count;
mod cpu;
mod cycles;
mod effect;
mod execute;
mod flags;
mod instruction;
mod jump;
mod load;
mod log;
mod logic;
mod machine;
mod manual;
mod memory;
mod mnemonic;
mod opcodes;
mod shift;
mod stack;
mod stop;
mod table;
mod transfer;

pub use base::NoMemory;
pub use cpu::Cpu;
pub use cycles::{is_paged, is_read};
pub use effect::{Effect, Write, Writes};
pub use log::{LOG_CAPACITY, SID_BASE, SID_LAST, SidWrite, SidWrites, WriteLog};
pub use machine::{CallCost, Machine, RETURN_BYTE};
pub use manual::cycles_of;
pub use memory::{MEMORY_SIZE, Memory};
pub use mnemonic::{Mnemonic, Mode};
pub use opcodes::{meaning, opcode, row_of};
pub use stop::{CallStop, Stop};
pub use table::Row;
