//! The places of assembled bytes that hold addresses.

use base::{Items, NoMemory};
use std::alloc::Global;
use std::marker::Model;

/// How a number stands in bytes.
#[derive(Clone, Copy, Debug)]
pub enum FixKind {
    /// Two bytes, the low one first.
    Word,
    /// The low byte alone.
    Low,
    /// The high byte alone.
    High,
}

/// At place `at` of the bytes stands the number `(origin + to) mod 65,536`.
#[derive(Clone, Copy, Debug)]
pub struct Fix {
    /// The place in the bytes, counted from 0.
    pub at: u32,
    /// How the number stands there.
    pub kind: FixKind,
    /// What is added to the origin.
    pub to: u16,
}

/// Fixes in ascending places. Contracts see the list.
#[derive(Drop)]
pub struct FixList {
    fixes: Items<Fix>,
}

impl Model for FixList {
    ghost use Rattle.std.specs.Prelude.{List};
    ghost use Rattle.asm6502.specs.declared.fixes.Fix.{Fix};

    ghost Value = { List Fix };

    ghost view = { λ list. list.fixes };
}

impl FixList {
    ghost use Rattle.std.specs.Prelude.{◌≡◌, [], ◌++◌, OnOk, OnErr};
    ghost use Rattle.std.specs.Option.{option_to_list};

    /// No fixes.
    pub(crate) fn new(alloc: Global) -> FixList
        ensures { result ≡ [] }
    {
        FixList {
            fixes: Items::new(alloc),
        }
    }

    /// Appends a fix, if there is one.
    ///
    /// # Errors
    ///
    /// Out of memory: the list is as before.
    pub(crate) fn add(&mut self, fix: Option<Fix>) -> Result<(), NoMemory>
        ensures ok { OnOk result (self.new ≡ self.old ++ option_to_list fix) }
        ensures err { OnErr result (self.new ≡ self.old) }
    {
        match fix {
            Some(fix) => self.fixes.push(fix),
            None => Ok(()),
        }
    }

    /// The fixes in order.
    pub fn as_slice(&self) -> &[Fix]
        ensures { result.now ≡ self.now }
    {
        self.fixes.as_slice()
    }
}
