//! Scripts of edits: texts that can be kept and read, a line for each command.
//!
//! The layer's one contract: `parse` gives the commands exactly where a text is a script, and otherwise the first
//! line that is none; `run` does the commands one after the other on a session, up to the first that can't be done,
//! and answers its line and the reason.
//! What a line is stands apart from the code, as one table of words and arguments (`specs/Forms.antt`) and three
//! relations above it (`specs/Spells.antt`, `specs/Scripts.antt`); what the commands make is a fold over histories
//! (`specs/Runs.antt`). See `docs/edit-script.md`.
//! It stands on `base` for lists, `edit_ops` for edits, `edit_history` for sessions, `hex` for the digits of arguments
//! and `thiserror` for its errors. The command `edit` stands on it.
#![tactic(auto)]

mod arguments;
/// Facts about the definitions.
pub mod claims;
mod commands;
mod faults;
mod forms;
mod kinds;
mod lines;
mod parsing;
mod running;
mod words;

pub use base::NoMemory;
pub use commands::{Action, Command, Script};
pub use faults::ScriptFault;
pub use kinds::{RunFault, RunKind};
pub use parsing::{MOST_BYTES, parse};
pub use running::run;
