//! Why bytes aren't read as a PSID v2 file.

ghost use Rattle.std.specs.Prelude.{◌≡◌};

use base::NoMemory;
use thiserror::Error;

/// Why bytes aren't read as a PSID v2 file.
#[derive(Clone, Copy, Debug, PartialEq, Eq, Error)]
pub enum PsidFault {
    /// The file doesn't begin with `PSID`.
    #[error("not a PSID: bad magic")]
    NotPsid,
    /// The file ends before the header's 124 bytes, or before the address that is to stand in front of the image.
    #[error("not a PSID: truncated")]
    Truncated,
    /// Another version than 2, no address of a play routine, or data for a player or computer of its own kind.
    #[error("not a PSID: unsupported")]
    Unsupported,
    /// A data offset, a number of songs or a start song out of its range, or an image that passes `$FFFF`.
    #[error("not a PSID: bad field")]
    BadField,
    /// Out of memory.
    #[error("no memory")]
    NoMemory,
}

impl From<NoMemory> for PsidFault {
    ghost use Rattle.psid.specs.declared.faults.PsidFault.TheVariants.{NoMemory as no_memory};

    ghost from_gives = { λ _ fault. fault ≡ no_memory };

    fn from(_e: NoMemory) -> PsidFault {
        PsidFault::NoMemory
    }
}
