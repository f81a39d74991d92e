//! The files of the system.

ghost use Rattle.std.specs.Prelude.{◌≡◌, None};
ghost use Rattle.goat_io.specs.FolderCounts.{no_counts};

use crate::whole_file::write_whole;
use crate::{Folder, FolderCounts, ReadFault, WriteFault};
use std::alloc::Global;
use std::io::{ErrorKind, Read};
use std::marker::Model;
use std::rt::Files;
use std::{fs, io};

/// The files of the system, by path. It tells nothing of their content.
///
/// Only "not found" is a missing file. A path that is a folder, a right that is wanting and any other error is a fault
/// of the device. A regular file is written whole or not at all.
#[derive(Drop)]
pub struct DiskFolder<'a, R> {
    alloc: Global,
    rt: &'a R,
    counts: FolderCounts,
}

impl<'a, R> Model for DiskFolder<'a, R> {
    ghost use Rattle.goat_io.specs.declared.folder_counts.FolderCounts.{FolderCounts};

    ghost Value = { FolderCounts };

    ghost view = { λ d. d.counts };
}

impl<'a, R: Files> DiskFolder<'a, R> {
    /// The system's files through the program's runtime, with every count at 0.
    pub fn new(alloc: Global, rt: &'a R) -> Self
        ensures { result ≡ no_counts }
    {
        DiskFolder {
            alloc,
            rt,
            counts: FolderCounts::zero(),
        }
    }
}

/// The file's bytes, but one byte above the limit at most.
fn bytes_up_to<R: Files>(rt: &R, alloc: Global, name: &str, limit: u32) -> io::Result<Vec<u8>> {
    let file = fs::open(rt, name)?;
    let mut bytes = Vec::new(alloc);
    file.take(u64::from(limit) + 1).read_to_end(&mut bytes)?;
    Ok(bytes)
}

impl<'a, R: Files> Folder for DiskFolder<'a, R> {
    ghost files = { λ _. None };

    ghost counts = { λ d. d };

    fn read(&mut self, alloc: Global, name: &str, limit: u32) -> Result<Vec<u8>, ReadFault> {
        match bytes_up_to(self.rt, alloc, name, limit) {
            Ok(bytes) if bytes.len() <= limit as usize => Ok(bytes),
            Ok(_) => {
                self.counts.excesses.rise();
                Err(ReadFault::TooLong)
            }
            Err(error) => match error.kind() {
                ErrorKind::NotFound => {
                    self.counts.misses.rise();
                    Err(ReadFault::Missing)
                }
                ErrorKind::OutOfMemory => Err(ReadFault::NoMemory),
                _ => {
                    self.counts.read_faults.rise();
                    Err(ReadFault::Failed)
                }
            },
        }
    }

    fn write(&mut self, name: &str, bytes: &[u8]) -> Result<(), WriteFault> {
        match write_whole(self.alloc, self.rt, name, bytes) {
            Ok(()) => Ok(()),
            Err(error) => match error.kind() {
                ErrorKind::OutOfMemory => Err(WriteFault::NoMemory),
                _ => {
                    self.counts.write_faults.rise();
                    Err(WriteFault::Failed)
                }
            },
        }
    }
}
