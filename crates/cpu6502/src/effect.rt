//! What an instruction does: registers, and what it writes.

ghost use Rattle.std.specs.Prelude.{◌≡◌};
ghost use Rattle.cpu6502.specs.Registers.{quiet, storing};

use crate::cpu::Cpu;
use crate::log::WriteLog;
use crate::memory::Memory;
use std::marker::Model;

/// One byte written to memory.
#[derive(Clone, Copy, Debug, PartialEq, Eq)]
pub struct Write {
    /// The address.
    pub place: u16,
    /// The byte.
    pub value: u8,
}

/// The bytes that one instruction writes, in order: at most two. Contracts see the list.
#[derive(Drop)]
pub struct Writes {
    first: Option<Write>,
    second: Option<Write>,
}

impl Model for Writes {
    ghost use Rattle.std.specs.Prelude.{List, ◌++◌, option_to_list};
    ghost use Rattle.cpu6502.specs.declared.effect.Write.{Write};

    ghost Value = { List Write };

    ghost view = { λ w. option_to_list w.first ++ option_to_list w.second };
}

impl Writes {
    ghost use Rattle.std.specs.Prelude.{◌≡◌, [], ◌∷◌, ◌++◌, List};
    ghost use Rattle.cpu6502.specs.declared.log.SidWrite.{SidWrite};
    ghost use Rattle.cpu6502.specs.Step.{written};
    ghost use Rattle.cpu6502.specs.Log.{log_of, sid_writes};

    /// No write.
    pub fn none() -> Writes
        ensures { result ≡ [] }
    {
        Writes {
            first: None,
            second: None,
        }
    }

    /// One write.
    pub fn one(write: Write) -> Writes
        ensures { result ≡ write ∷ [] }
    {
        Writes {
            first: Some(write),
            second: None,
        }
    }

    /// Two writes, one after the other.
    pub fn two(first: Write, second: Write) -> Writes
        ensures { result ≡ first ∷ second ∷ [] }
    {
        Writes {
            first: Some(first),
            second: Some(second),
        }
    }

    /// Notes the writes to the SID in a log.
    pub fn note_in(&self, log: &mut WriteLog)
        ensures { (before : List SidWrite) → log.old ≡ log_of before →
            log.new ≡ log_of (before ++ sid_writes self.now) }
    {
        if let Some(write) = self.first {
            log.note(write);
        }
        if let Some(write) = self.second {
            log.note(write);
        }
    }

    /// Makes the writes, one after the other.
    pub fn put_into(&self, memory: &mut Memory)
        ensures { memory.new ≡ written memory.old self.now }
    {
        if let Some(write) = self.first {
            memory.write(write.place, write.value);
        }
        if let Some(write) = self.second {
            memory.write(write.place, write.value);
        }
    }
}

/// What an instruction does: the registers after it, and what it writes.
#[derive(Drop)]
pub struct Effect {
    /// The registers after the instruction.
    pub cpu: Cpu,
    /// What it writes to memory.
    pub writes: Writes,
}

/// An effect that writes nothing.
pub fn quiet(cpu: Cpu) -> Effect
    ensures { result ≡ quiet cpu }
{
    Effect {
        cpu,
        writes: Writes::none(),
    }
}

/// An effect that writes one byte.
pub fn storing(cpu: Cpu, place: u16, value: u8) -> Effect
    ensures { result ≡ storing cpu place value }
{
    Effect {
        cpu,
        writes: Writes::one(Write { place, value }),
    }
}
