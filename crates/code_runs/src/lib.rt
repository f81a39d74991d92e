//! Reasoning about machine code: runs of the 6502 on a memory that is a function from places to bytes.
//!
//! The room between the machine and those who prove something of a program. It has no code of its own. Its one contract
//! is that of `claims::runs_are_calls`: steps that are put together one by one, each by the lemma of its instruction,
//! are a call of the machine, which writes at the run's places alone. The lemmas of the instructions are in `proofs/`;
//! upper crates cite them through `proofs/Laws.antt`.
//!
//! It stands on `cpu6502`. The source of the rules is the MOS 6502 programming manual. See `docs/machine.md`.
#![tactic(auto)]

pub mod claims;
