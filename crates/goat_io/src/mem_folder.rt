//! A folder in memory, for tests.

ghost use Rattle.std.specs.Prelude.{◌≡◌, ◌≤◌, false, ◌/◌, ◌==◌, [], Some, None, Ok, Err, IfOk};
ghost use Rattle.std.specs.Prelude.{OnOk, OnErr, IfSome, IsErrOf, IsErr, IsTrue, take, length, vec_len};
ghost use Rattle.std.specs.Option.{option_copied};
ghost use Rattle.std.specs.FinMap.{empty};
ghost use Rattle.goat_io.specs.Count.{next_count};
ghost use Rattle.goat_io.specs.FolderCounts.{no_counts, CountsRead, CountsWrite};
ghost use Rattle.goat_io.specs.Fault.{is_read_failure};
ghost use Rattle.goat_io.specs.Files.{file_of, with_file, told_with_file, IsAbsent, IsAbove, IsWrittenInPart};

use crate::count::Count;
use crate::listed::is_listed;
use crate::mem_files::FileMap;
use crate::{Folder, FolderCounts, NoMemory, ReadFault, WriteFault};
use std::alloc::Global;
use std::marker::Model;

/// A folder that keeps its files in memory, tells them, and fails at listed calls.
#[derive(Drop)]
pub struct MemFolder {
    files: FileMap,
    failing: Vec<u32>,
    calls: Count,
    counts: FolderCounts,
}

impl Model for MemFolder {
    ghost use Rattle.std.specs.Prelude.{ℕ, List, refl};
    ghost use Rattle.goat_io.specs.MemFolder.{MemFiles, mem_files_code};

    ghost Value = { MemFiles };

    ghost coded = { mem_files_code };

    ghost view = { λ f. record {
      files = f.files;
      failing = f.failing.items;
      calls = f.calls;
      counts = f.counts;
    } };
}

impl MemFolder {
    /// A folder with no file. Reads and writes are counted together from 0, and those whose numbers are in `failing`
    /// fail; a failing write leaves the first half of the bytes, rounded down.
    pub fn new(alloc: Global, failing: Vec<u32>) -> Self
        ensures { result ≡ record {
          files = empty;
          failing = failing.items;
          calls = 0;
          counts = no_counts;
        } }
    {
        MemFolder {
            files: FileMap::new(alloc),
            failing,
            calls: Count::zero(),
            counts: FolderCounts::zero(),
        }
    }

    /// Puts a file into the folder, in place of one that has the name. It counts as no call.
    ///
    /// # Errors
    ///
    /// Out of memory: the folder is as before.
    pub fn add(&mut self, name: &str, bytes: &[u8]) -> Result<(), NoMemory>
        ensures ok { OnOk result (self.new ≡
            record self.old { files = with_file self.old.files name.now bytes.now }) }
        ensures err { OnErr result (self.new ≡ self.old) }
    {
        self.files.put(name, bytes)
    }

    /// The bytes of the file that has the name.
    pub fn get(&self, name: &str) -> Option<&[u8]>
        ensures { option_copied result ≡ file_of self.now.files name.now }
    {
        self.files.get(name)
    }
}

/// A copy of the file that has the name, of at most `limit` bytes.
///
/// # Errors
///
/// The file is missing, or longer than `limit` bytes; or out of memory.
fn copy_of(alloc: Global, files: &FileMap, name: &str, limit: u32) -> Result<Vec<u8>, ReadFault>
    ensures ok { IfOk result (λ bytes. (vec_len bytes ≤ limit) × (file_of files.now name.now ≡
        Some bytes.items)) }
    ensures missing { IsErrOf result ReadFault.Missing → IsAbsent name.now files.now }
    ensures too_long { IsErrOf result ReadFault.TooLong → IsAbove limit name.now files.now }
    ensures not_failed { is_read_failure result ≡ false }
{
    let Some(bytes) = files.get(name) else {
        return Err(ReadFault::Missing);
    };
    if bytes.len() > limit as usize {
        return Err(ReadFault::TooLong);
    }
    match Vec::from_slice(alloc, bytes) {
        Ok(copy) => Ok(copy),
        Err(_) => Err(ReadFault::NoMemory),
    }
}

impl Folder for MemFolder {
    ghost use Rattle.goat_io.specs.MemFolder.{next_fails};

    ghost files = { λ f. Some f.files };

    ghost counts = { λ f. f.counts };

    fn read(&mut self, alloc: Global, name: &str, limit: u32) -> Result<Vec<u8>, ReadFault>
        ensures within { IfOk result (λ bytes. vec_len bytes ≤ limit) }
        ensures whole { IfOk result (λ bytes. file_of self.old.files name.now ≡ Some bytes.items) }
        ensures missing { IsErrOf result ReadFault.Missing → IsAbsent name.now self.old.files }
        ensures too_long { IsErrOf result ReadFault.TooLong →
            IsAbove limit name.now self.old.files }
        ensures files_stay { self.new.files ≡ self.old.files }
        ensures counts { CountsRead result self.old.counts self.new.counts }

        // The listed calls fail, and only they.
        ensures listed { is_read_failure result ≡ next_fails self.old }
        ensures counted { self.new.calls ≡ next_count self.old.calls }
        ensures same_list { self.new.failing ≡ self.old.failing }
    {
        let fails = is_listed(&self.failing, self.calls.get());
        self.calls.rise();
        if fails {
            self.counts.read_faults.rise();
            return Err(ReadFault::Failed);
        }
        let answer = copy_of(alloc, &self.files, name, limit);
        match &answer {
            Err(ReadFault::Missing) => self.counts.misses.rise(),
            Err(ReadFault::TooLong) => self.counts.excesses.rise(),
            _ => {}
        }
        answer
    }

    fn write(&mut self, name: &str, bytes: &[u8]) -> Result<(), WriteFault>
        ensures ok { OnOk result (self.new.files ≡ with_file self.old.files name.now bytes.now) }
        ensures failed { IsErrOf result WriteFault.Failed →
            IsWrittenInPart (Some self.old.files) (Some self.new.files) name.now bytes.now }
        ensures no_memory { IsErrOf result WriteFault.NoMemory → self.new.files ≡ self.old.files }
        ensures counts { CountsWrite result self.old.counts self.new.counts }

        // The listed calls fail, and only they.
        ensures listed { IsTrue (next_fails self.old) → IsErr result }
        ensures only_listed { IsErrOf result WriteFault.Failed → IsTrue (next_fails self.old) }
        ensures half { IsErrOf result WriteFault.Failed →
            self.new.files ≡
            with_file self.old.files name.now (take (length bytes.now / 2) bytes.now) }
        ensures counted { self.new.calls ≡ next_count self.old.calls }
        ensures same_list { self.new.failing ≡ self.old.failing }
    {
        let fails = is_listed(&self.failing, self.calls.get());
        let written = if fails {
            &bytes[..bytes.len() / 2]
        } else {
            bytes
        };
        let put = self.files.put(name, written);
        self.calls.rise();
        if put.is_err() {
            return Err(WriteFault::NoMemory);
        }
        if fails {
            self.counts.write_faults.rise();
            return Err(WriteFault::Failed);
        }
        Ok(())
    }
}
