//! Why a song can't be packed.

ghost use Rattle.std.specs.Prelude.{◌≡◌};
ghost use Rattle.song_pack.specs.declared.faults.PackFault.TheVariants.{NoMemory as NoRoom};

use base::NoMemory;

/// Why a song can't be packed.
#[derive(Clone, Copy, Debug, PartialEq, Eq)]
pub enum PackFault {
    /// The packed text of a pattern is longer than 256 bytes.
    PatternTooLong {
        /// The number of the pattern in the song, counted from 0.
        pattern: u8,
        /// The length of its text in bytes, 257 to 513.
        length: u16,
    },
    /// Out of memory.
    NoMemory,
}

impl From<NoMemory> for PackFault {
    ghost from_gives = { λ _ fault. fault ≡ NoRoom };

    fn from(_e: NoMemory) -> PackFault {
        PackFault::NoMemory
    }
}
