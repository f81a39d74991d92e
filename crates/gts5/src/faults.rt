//! Why bytes aren't a song.

ghost use Rattle.std.specs.Prelude.{◌≡◌};
ghost use Rattle.gts5.specs.declared.faults.SongFault.TheVariants.{NoMemory};

use song_model::PushFault;
use std::alloc::{AllocError, AllocFailed};
use thiserror::Error;

/// The first fault that stops the reading of a file. Offsets are in bytes, counted from 0.
#[derive(Clone, Copy, Debug, PartialEq, Eq, Error)]
pub enum SongFault {
    /// The file doesn't begin with `GTS5`.
    #[error("not a song: bad magic")]
    NotGts5,
    /// A byte of the next piece is missing; the offset is the file's length.
    #[error("not a song: truncated at {offset}")]
    Truncated { offset: u32 },
    /// The count at this offset is above its limit, or the pattern whose count stands there has more than
    /// 128 rows before its end row.
    #[error("not a song: over limit at {offset}")]
    OutOfLimit { offset: u32 },
    /// The orderlist whose count stands at this offset has no endmark among the bytes that are counted.
    #[error("not a song: bad order at {offset}")]
    BadOrder { offset: u32 },
    /// The row at this offset is out of its range or an end row before any other row; or the pattern whose
    /// count stands there has no end row.
    #[error("not a song: bad row at {offset}")]
    BadRow { offset: u32 },
    /// Out of memory.
    #[error("no memory")]
    NoMemory,
}

impl From<AllocError> for SongFault {
    ghost from_gives = { λ _ fault. fault ≡ NoMemory };

    fn from(_e: AllocError) -> SongFault {
        SongFault::NoMemory
    }
}

impl<T: Drop> From<AllocFailed<T>> for SongFault {
    ghost from_gives = { λ _ fault. fault ≡ NoMemory };

    fn from(_e: AllocFailed<T>) -> SongFault {
        SongFault::NoMemory
    }
}

impl SongFault {
    /// The refusal of an item by a list that isn't full: out of memory.
    pub(crate) fn of_push(fault: PushFault) -> SongFault
        requires { fault ≡ PushFault.NoMemory }
        ensures { result ≡ SongFault.NoMemory }
    {
        match fault {
            PushFault::NoMemory => SongFault::NoMemory,
            PushFault::Full => unreachable!(),
        }
    }
}
