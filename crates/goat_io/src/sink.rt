//! Where printed lines go, as a trait.

ghost use Rattle.std.specs.Prelude.{◌≡◌, ℕ, List, Option, OnOk, IsErrOf};
ghost use Rattle.goat_io.specs.Count.{Counts};
ghost use Rattle.goat_io.specs.Fault.{is_sink_failure};
ghost use Rattle.goat_io.specs.Written.{told_with_piece, IsTakenInPart};

use crate::SinkFault;

/// Where printed lines go, a piece at a time.
///
/// A sink may tell its bytes to contracts or not. It counts its faults in 64 bits; the count never falls, and at its
/// last value it stays.
pub trait Sink {
    /// All bytes that were taken, where the sink tells them.
    ghost written: { Self → Option (List ℕ) };

    /// How often the device failed.
    ghost faults: { Self → ℕ };

    /// Appends the bytes.
    ///
    /// # Errors
    ///
    /// The device failed, and a prefix of the bytes was taken; or out of memory, and nothing was.
    fn put(&mut self, bytes: &[u8]) -> Result<(), SinkFault>
        ensures ok { OnOk result (written self.new ≡ told_with_piece (written self.old) bytes.now) }
        ensures failed { IsErrOf result SinkFault.Failed →
            IsTakenInPart (written self.old) (written self.new) bytes.now }
        ensures no_memory { IsErrOf result SinkFault.NoMemory →
            written self.new ≡ written self.old }
        ensures faults { Counts (is_sink_failure result) (faults self.old) (faults self.new) };
}
