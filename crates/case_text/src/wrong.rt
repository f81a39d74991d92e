//! Why a line of a file of cases isn't met.

ghost use Rattle.std.specs.Prelude.{◌↔◌, IsOk, IsTrue};

use std::alloc::{AllocError, AllocFailed};

/// Why a line of a file of cases isn't met.
#[derive(Clone, Copy, Debug)]
pub enum Wrong {
    /// The line spells nothing.
    BadLine,
    /// What was to come didn't.
    Differs(&'static str),
    /// Out of memory.
    NoMemory,
}

impl From<AllocError> for Wrong {
    fn from(_: AllocError) -> Wrong {
        Wrong::NoMemory
    }
}

impl<T: Drop> From<AllocFailed<T>> for Wrong {
    fn from(_: AllocFailed<T>) -> Wrong {
        Wrong::NoMemory
    }
}

/// Sees that a fact holds that a line states.
///
/// # Errors
///
/// It doesn't.
pub fn holds(fact: bool, else_says: &'static str) -> Result<(), Wrong>
    ensures { IsOk result ↔ IsTrue fact }
{
    if fact {
        Ok(())
    } else {
        Err(Wrong::Differs(else_says))
    }
}
