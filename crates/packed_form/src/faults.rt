//! What is answered where bytes are no packed pattern.

ghost use Rattle.std.specs.Prelude.{◌≡◌};
ghost use Rattle.packed_form.specs.declared.faults.PackedFault.TheVariants.{NoMemory};

use std::alloc::{AllocError, AllocFailed};

/// Why bytes aren't a packed pattern. Offsets are in bytes, counted from 0.
#[derive(Clone, Copy, Debug, PartialEq, Eq)]
pub enum PackedFault {
    /// No entry admits the byte at this offset, or it stands after the end.
    BadByte { offset: u32 },
    /// The bytes run out before the `$00` at the end.
    NoEnd,
    /// There is no row, or there are more than 128.
    BadLength,
    /// Out of memory.
    NoMemory,
}

impl From<AllocError> for PackedFault {
    ghost from_gives = { λ _ fault. fault ≡ NoMemory };

    fn from(_e: AllocError) -> PackedFault {
        PackedFault::NoMemory
    }
}

impl<T: Drop> From<AllocFailed<T>> for PackedFault {
    ghost from_gives = { λ _ fault. fault ≡ NoMemory };

    fn from(_e: AllocFailed<T>) -> PackedFault {
        PackedFault::NoMemory
    }
}
