//! Files in memory, by name.

ghost use Rattle.std.specs.Prelude.{◌≡◌, OnOk, OnErr, IfOk};
ghost use Rattle.std.specs.Option.{option_copied};
ghost use Rattle.std.specs.FinMap.{empty};
ghost use Rattle.goat_io.specs.Files.{file_of, with_file};

use crate::NoMemory;
use std::alloc::Global;
use std::collections::BTreeMap;
use std::marker::Model;

/// Files in memory, by name.
#[derive(Drop)]
pub struct FileMap {
    alloc: Global,
    entries: BTreeMap<String, Vec<u8>>,
}

impl Model for FileMap {
    ghost use Rattle.std.specs.FinMap as map;
    ghost use Rattle.std.specs.Coded.{coded_ℕ, coded_list};
    ghost use Rattle.goat_io.specs.Files.{Files};

    ghost Value = { Files };

    ghost coded = { map.code (coded_list coded_ℕ) (coded_list coded_ℕ) };

    ghost use Rattle.goat_io.specs.FileMap.{files_of};

    ghost view = { λ m. files_of m.entries };
}

impl FileMap {
    /// No files.
    pub fn new(alloc: Global) -> Self
        ensures { result ≡ empty }
    {
        FileMap {
            alloc,
            entries: BTreeMap::new(alloc),
        }
    }

    /// The bytes of the file that has the name.
    pub fn get(&self, name: &str) -> Option<&[u8]>
        ensures { option_copied result ≡ file_of self.now name.now }
    {
        match self.entries.get(name) {
            Some(bytes) => Some(bytes.as_slice()),
            None => None,
        }
    }

    /// Makes the file that has the name these bytes.
    ///
    /// # Errors
    ///
    /// Out of memory: the files are as before.
    pub fn put(&mut self, name: &str, bytes: &[u8]) -> Result<(), NoMemory>
        ensures ok { OnOk result (self.new ≡ with_file self.old name.now bytes.now) }
        ensures err { OnErr result (self.new ≡ self.old) }
    {
        let name = String::from_str(self.alloc, name)?;
        let bytes = Vec::from_slice(self.alloc, bytes)?;
        self.entries.insert(name, bytes)?;
        Ok(())
    }
}
