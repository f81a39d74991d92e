//! The log of what a call writes to the SID.

use crate::effect::Write;
use arrayvec::ArrayVec;
use std::marker::Model;

/// The number of register writes that a log holds.
pub const LOG_CAPACITY: usize = 512;

/// The place of the SID's first register.
pub const SID_BASE: u16 = 0xD400;

/// The place of the SID's last register that can be written.
pub const SID_LAST: u16 = 0xD418;

/// A value written to a register of the SID, 0 to 24.
#[derive(Clone, Copy, Debug, Default, PartialEq, Eq)]
pub struct SidWrite {
    /// The register's number, 0 at `$D400` to 24 at `$D418`.
    pub register: u8,
    /// The byte.
    pub value: u8,
}

/// At most 512 register writes, in order. It takes no memory. Contracts see the list.
#[derive(Drop)]
pub struct SidWrites {
    kept: ArrayVec<SidWrite, LOG_CAPACITY>,
}

impl Model for SidWrites {
    ghost use Rattle.std.specs.Prelude.{List};
    ghost use Rattle.cpu6502.specs.declared.log.SidWrite.{SidWrite};

    ghost Value = { List SidWrite };

    ghost view = { λ writes. writes.kept.items };
}

impl SidWrites {
    ghost use Rattle.std.specs.Prelude.{◌≡◌, [], ◌∷◌, ◌++◌, ◌<◌, ◌≤◌, ◌↔◌, IsTrue, length};

    /// No writes.
    pub fn new() -> SidWrites
        ensures { result ≡ [] }
    {
        SidWrites {
            kept: ArrayVec::new(),
        }
    }

    /// The writes, in order.
    pub fn as_slice(&self) -> &[SidWrite]
        ensures { result.now ≡ self.now }
    {
        self.kept.as_slice()
    }

    /// Whether there is no room for one more.
    pub fn is_full(&self) -> bool
        ensures full { IsTrue result ↔ (length self.now ≡ 512) }
        ensures fits { length self.now ≤ 512 }
    {
        self.kept.is_full()
    }

    /// Appends a write.
    fn push(&mut self, write: SidWrite)
        requires { length self.old < 512 }
        ensures { self.new ≡ self.old ++ write ∷ [] }
    {
        self.kept.push(write);
    }

    /// Makes the list empty.
    fn clear(&mut self)
        ensures { self.new ≡ [] }
    {
        self.kept.clear();
    }
}

/// What a call wrote to the SID: the first 512 writes, and how many more there were, counted up to 4,294,967,295.
#[derive(Drop)]
pub struct WriteLog {
    /// The first 512 writes, in order.
    pub writes: SidWrites,
    /// How many more there were; it stays at 4,294,967,295.
    pub beyond: u32,
}

impl WriteLog {
    ghost use Rattle.std.specs.Prelude.{◌≡◌, [], ◌∷◌, ◌++◌, List};
    ghost use Rattle.cpu6502.specs.declared.log.SidWrite.{SidWrite};
    ghost use Rattle.cpu6502.specs.Log.{log_of, sid_writes};

    /// No writes.
    pub fn new() -> WriteLog
        ensures { result ≡ log_of [] }
    {
        WriteLog {
            writes: SidWrites::new(),
            beyond: 0,
        }
    }

    /// Makes the log that of no writes.
    pub fn clear(&mut self)
        ensures { self.new ≡ log_of [] }
    {
        self.writes.clear();
        self.beyond = 0;
    }

    /// Notes one write to memory, if its place is a register of the SID.
    pub fn note(&mut self, write: Write)
        ensures { (before : List SidWrite) → self.old ≡ log_of before →
            self.new ≡ log_of (before ++ sid_writes (write ∷ [])) }
    {
        if write.place >= SID_BASE && write.place <= SID_LAST {
            self.keep(SidWrite {
                register: (write.place - SID_BASE) as u8,
                value: write.value,
            });
        }
    }

    /// Notes one write to the SID.
    fn keep(&mut self, write: SidWrite)
        ensures { (before : List SidWrite) → self.old ≡ log_of before →
            self.new ≡ log_of (before ++ write ∷ []) }
    {
        if self.writes.is_full() {
            self.beyond = self.beyond.saturating_add(1);
        } else {
            self.writes.push(write);
        }
    }
}
