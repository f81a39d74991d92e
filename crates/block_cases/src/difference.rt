//! What differs from what a case wants.

ghost use Rattle.std.specs.Prelude.{◌≡◌, ◌↔◌, IsOk};

use asm6502::{AsmFault, PastEnd};
use base::NoMemory;
use cpu6502::Stop;
use std::alloc::{AllocError, AllocFailed};
use std::fmt;

/// What differs from what a case wants, or why it can't be told.
#[derive(Clone, Copy)]
pub enum Difference {
    /// The line isn't of the notation.
    Unread,
    /// The case wants nothing.
    WantsNothing,
    /// The lines are no block.
    NoBlock,
    /// The lines aren't assembled.
    Refused(AsmFault),
    /// They are, or are moved, and that isn't wanted.
    Done,
    /// They aren't moved.
    Unmoved(PastEnd),
    /// The machine stops.
    Stopped(Stop),
    /// It doesn't come to the end.
    Endless,
    /// A number with this name: the one that is found, and the one that is wanted.
    Number(&'static str, u32, u32),
    /// The byte at a place: the one that is found, and the one that is wanted.
    Place(u16, u8, u8),
    /// There is no instruction of this name, mode and operand, or of these bytes.
    NoInstruction,
    /// Nothing differs, and something is to.
    Agrees,
    /// Out of memory.
    NoMemory,
}

impl Difference {
    /// What is said of it, where that is the same each time.
    fn says(&self) -> &'static str {
        match self {
            Difference::Unread => "the line isn't of the notation",
            Difference::WantsNothing => "the case wants nothing",
            Difference::NoBlock => "the lines are no block",
            Difference::Done => "not refused",
            Difference::Endless => "no end",
            Difference::NoInstruction => "no such instruction",
            Difference::Agrees => "nothing differs, and something is to",
            _ => "out of memory",
        }
    }
}

impl fmt::Display for Difference {
    fn fmt<W: fmt::Write>(&self, f: &mut fmt::Formatter<W>) -> fmt::Result {
        match self {
            Difference::Refused(fault) => write!(f, "refused: {fault:?}"),
            Difference::Unmoved(end) => write!(f, "not moved: {end:?}"),
            Difference::Stopped(stop) => write!(f, "stopped: {stop:?}"),
            Difference::Number(name, found, wanted) => {
                write!(f, "{name} is {found:x}, wanted {wanted:x}")
            }
            Difference::Place(at, found, wanted) => {
                write!(
                    f,
                    "the byte at {at:04x} is {found:02x}, wanted {wanted:02x}"
                )
            }
            _ => f.write_str(self.says()),
        }
    }
}

impl From<NoMemory> for Difference {
    fn from(_: NoMemory) -> Difference {
        Difference::NoMemory
    }
}

impl From<AllocError> for Difference {
    fn from(_: AllocError) -> Difference {
        Difference::NoMemory
    }
}

impl<T: Drop> From<AllocFailed<T>> for Difference {
    fn from(_: AllocFailed<T>) -> Difference {
        Difference::NoMemory
    }
}

/// Sees that a number is the one that is wanted.
///
/// # Errors
///
/// It isn't.
pub fn same(name: &'static str, found: u32, wanted: u32) -> Result<(), Difference>
    ensures { IsOk result ↔ (found ≡ wanted) }
{
    if found == wanted {
        Ok(())
    } else {
        Err(Difference::Number(name, found, wanted))
    }
}

/// Sees that a byte is the one that is wanted.
///
/// # Errors
///
/// It isn't.
pub fn same_byte(name: &'static str, found: u8, wanted: u8) -> Result<(), Difference>
    ensures { IsOk result ↔ (found ≡ wanted) }
{
    same(name, u32::from(found), u32::from(wanted))
}
