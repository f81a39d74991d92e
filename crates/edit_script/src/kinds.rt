//! Why a command can't be done.

ghost use Rattle.std.specs.Prelude.{◌≡◌, ◌≤◌, length};
ghost use Rattle.edit_script.specs.Edited.{kind_words};
ghost use Rattle.edit_script.specs.Runs.{kind_of};

use edit_ops::EditFault;
use thiserror::Error;

/// Why a command can't be done.
#[derive(Clone, Copy, Debug, PartialEq, Eq, Error)]
#[error("{}", self.words())]
pub enum RunKind {
    /// What the edit speaks of isn't there.
    NoSuchPlace,
    /// A list would leave its limits.
    OutOfLimit,
    /// A value is out of its range.
    BadValue,
    /// No edit stands.
    NothingToUndo,
    /// Nothing was undone since the last edit, or all of it was redone.
    NothingToRedo,
    /// Out of memory.
    NoMemory,
}

/// The first command of a script that can't be done.
#[derive(Clone, Copy, Debug, PartialEq, Eq, Error)]
#[error("script line {line}: {kind}")]
pub struct RunFault {
    /// Its line, counted from 1.
    pub line: u32,
    pub kind: RunKind,
}

impl RunKind {
    /// Why an edit can't be done.
    pub(crate) fn of_edit(fault: EditFault) -> RunKind
        ensures { result ≡ kind_of fault }
    {
        match fault {
            EditFault::NoSuchPlace => RunKind::NoSuchPlace,
            EditFault::OutOfLimit => RunKind::OutOfLimit,
            EditFault::BadValue => RunKind::BadValue,
            EditFault::NoMemory => RunKind::NoMemory,
        }
    }

    /// What is told of it.
    pub fn words(self) -> &'static str
        ensures words { result.now ≡ kind_words self }
        ensures short { length result.now ≤ 15 }
    {
        match self {
            RunKind::NoSuchPlace => "no such place",
            RunKind::OutOfLimit => "over limit",
            RunKind::BadValue => "bad value",
            RunKind::NothingToUndo => "nothing to undo",
            RunKind::NothingToRedo => "nothing to redo",
            RunKind::NoMemory => "no memory",
        }
    }
}
