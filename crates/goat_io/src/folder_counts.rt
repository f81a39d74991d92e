//! The four counts of a folder.

ghost use Rattle.std.specs.Prelude.{◌≡◌};

use crate::Count;

/// The four counts of a folder.
#[derive(Clone, Copy, Debug, PartialEq, Eq)]
pub struct FolderCounts {
    /// Reads that failed by the device.
    pub read_faults: Count,
    /// Writes that failed by the device.
    pub write_faults: Count,
    /// Reads that found no file.
    pub misses: Count,
    /// Reads that found a file above their limit.
    pub excesses: Count,
}

impl FolderCounts {
    ghost use Rattle.goat_io.specs.FolderCounts.{no_counts};

    /// Every count at 0.
    pub fn zero() -> Self
        ensures { result ≡ no_counts }
    {
        FolderCounts {
            read_faults: Count::zero(),
            write_faults: Count::zero(),
            misses: Count::zero(),
            excesses: Count::zero(),
        }
    }
}
