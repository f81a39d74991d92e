//! Runs a PSID file on a machine: loads it, calls init once, then play once a frame, and shows the SID's registers
//! after each call.
//!
//! The layer's one contract: a runner answers a call with the 25 registers exactly where the machine's call returns
//! within 200,000 steps, and otherwise with the reason; from then on it answers that reason until it is loaded anew.
//! `loaded` says what a file is loaded as; `Called` and `FailsBy` of `cpu6502` say what a call does.
//! It stands on `cpu6502`, the machine, and on `psid`, the file. See `docs/psid.md`.
#![tactic(auto)]

/// Facts about the definitions.
pub mod claims;
mod memory;
mod runner;

pub use cpu6502::NoMemory;
pub use memory::REGISTERS;
pub use runner::{MOST_STEPS, Runner};
