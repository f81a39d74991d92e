//! Why an image isn't built.

/// Why an image isn't built.
#[derive(Clone, Copy, Debug, PartialEq, Eq)]
pub enum BuildFault {
    /// The image would pass `$D000`.
    TooLarge {
        /// Its length in bytes.
        length: u32,
    },
    /// Out of memory.
    NoMemory,
}

impl From<base::NoMemory> for BuildFault {
    ghost use Rattle.std.specs.Prelude.{◌≡◌};
    ghost use Rattle.player_build.specs.declared.faults.BuildFault.TheVariants.{NoMemory};

    fn from(_fault: base::NoMemory) -> BuildFault
        ensures { result ≡ NoMemory }
    {
        BuildFault::NoMemory
    }
}
