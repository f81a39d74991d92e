//! A folder of named files, as a trait.

ghost use Rattle.std.specs.Prelude.{◌≡◌, ◌≤◌, Option, Some, IfOk, OnOk, IfSome, IsErrOf, vec_len};
ghost use Rattle.goat_io.specs.declared.folder_counts.FolderCounts.{FolderCounts};
ghost use Rattle.goat_io.specs.FolderCounts.{CountsRead, CountsWrite};
ghost use Rattle.goat_io.specs.Files.{Files, file_of, told_with_file, IsAbsent, IsAbove, IsWrittenInPart};

use crate::{ReadFault, WriteFault};
use std::alloc::Global;

/// A folder of named files. A name is any text.
///
/// A folder may tell its files to contracts or not. It counts each sort of refusal in 64 bits; a count never falls,
/// and at its last value it stays.
pub trait Folder {
    /// The files, where the folder tells them.
    ghost files: { Self → Option Files };

    /// How often each sort of refusal came.
    ghost counts: { Self → FolderCounts };

    /// Reads the whole file that has the name, of at most `limit` bytes.
    ///
    /// # Errors
    ///
    /// No file has the name, the file is above the limit, the device failed, or out of memory.
    fn read(&mut self, alloc: Global, name: &str, limit: u32) -> Result<Vec<u8>, ReadFault>
        ensures within { IfOk result (λ bytes. vec_len bytes ≤ limit) }
        ensures whole { IfOk result (λ bytes. IfSome (files self.old) (λ told.
            file_of told name.now ≡ Some bytes.items)) }
        ensures missing { IsErrOf result ReadFault.Missing →
            IfSome (files self.old) (IsAbsent name.now) }
        ensures too_long { IsErrOf result ReadFault.TooLong →
            IfSome (files self.old) (IsAbove limit name.now) }
        ensures files_stay { files self.new ≡ files self.old }

        // Each count rises with its own answer and with no other.
        ensures counts { CountsRead result (counts self.old) (counts self.new) };

    /// Makes the file that has the name these bytes, whether there was one or not.
    ///
    /// # Errors
    ///
    /// The device failed, and the file is as before or holds a prefix of the bytes; or out of memory, and the files are
    /// as before.
    fn write(&mut self, name: &str, bytes: &[u8]) -> Result<(), WriteFault>
        ensures ok { OnOk result (files self.new ≡ told_with_file
            (files self.old) name.now bytes.now) }
        ensures failed { IsErrOf result WriteFault.Failed →
            IsWrittenInPart (files self.old) (files self.new) name.now bytes.now }
        ensures no_memory { IsErrOf result WriteFault.NoMemory → files self.new ≡ files self.old }

        // A failure is counted, and nothing else is.
        ensures counts { CountsWrite result (counts self.old) (counts self.new) };
}
