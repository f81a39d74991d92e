//! A folder that finds no memory.

ghost use Rattle.std.specs.Prelude.{None};
ghost use Rattle.goat_io.specs.FolderCounts.{no_counts};

use goat_io::{Folder, MemFolder, ReadFault, WriteFault};
use std::alloc::Global;

/// A folder whose writes find no memory, and whose reads do or don't.
#[derive(Drop)]
pub struct PoorFolder {
    /// The files.
    pub files: MemFolder,
    /// Whether reads find memory.
    pub reads: bool,
}

impl Folder for PoorFolder {
    ghost files = { λ _. None };

    ghost counts = { λ _. no_counts };

    fn read(&mut self, alloc: Global, name: &str, limit: u32) -> Result<Vec<u8>, ReadFault> {
        match self.files.read(alloc, name, limit) {
            Ok(bytes) if self.reads => Ok(bytes),
            _ => Err(ReadFault::NoMemory),
        }
    }

    fn write(&mut self, _name: &str, _bytes: &[u8]) -> Result<(), WriteFault> {
        Err(WriteFault::NoMemory)
    }
}
