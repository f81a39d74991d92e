//! What fails in a run.

use case_text::{Wrong, number_of};
use std::alloc::Global;

/// Where the files of a run are.
#[derive(Clone, Copy)]
pub enum Place {
    /// In memory, and memory is found.
    Memory,
    /// In memory, and writes find none.
    PoorWrites,
    /// In memory, and neither reads nor writes find any.
    PoorReads,
    /// On the disk.
    Disk,
}

/// What a line says to fail, or to stand elsewhere.
#[derive(Clone, Copy)]
pub enum Failure {
    /// Calls of the folder.
    Calls,
    /// Puts of the sink.
    Puts,
    /// Memory.
    Memory,
    /// Nothing: the files are on the disk.
    Disk,
}

/// What fails in the next run.
#[derive(Drop)]
pub struct Devices {
    /// The calls of the folder that fail.
    pub calls: Vec<u32>,
    /// The puts of the sink that fail.
    pub puts: Vec<u32>,
    /// Where the files are.
    pub place: Place,
}

/// The calls that find no memory.
fn poor_of(rest: &str) -> Result<Place, Wrong> {
    match rest {
        "writes" => Ok(Place::PoorWrites),
        "reads" => Ok(Place::PoorReads),
        _ => Err(Wrong::BadLine),
    }
}

/// Numbers between spaces, one at least.
fn numbers_of(alloc: Global, text: &str) -> Result<Vec<u32>, Wrong> {
    let mut numbers = Vec::new(alloc);
    for word in text.split_whitespace() {
        numbers.push(number_of(word)?)?;
    }
    if numbers.is_empty() {
        return Err(Wrong::BadLine);
    }
    Ok(numbers)
}

impl Devices {
    /// Nothing fails.
    pub fn whole(alloc: Global) -> Devices {
        Devices {
            calls: Vec::new(alloc),
            puts: Vec::new(alloc),
            place: Place::Memory,
        }
    }

    /// Whether something is said to fail.
    pub fn fail(&self) -> bool {
        let is_poor = matches!(self.place, Place::PoorWrites | Place::PoorReads);
        is_poor || !self.calls.is_empty() || !self.puts.is_empty()
    }

    /// Whether nothing is said of the next run.
    pub fn is_whole(&self) -> bool {
        !self.fail() && matches!(self.place, Place::Memory)
    }

    /// Takes a line that says what fails.
    pub fn take(&mut self, alloc: Global, failure: Failure, rest: &str) -> Result<(), Wrong> {
        if !self.is_whole() {
            return Err(Wrong::BadLine);
        }
        match failure {
            Failure::Calls => self.calls = numbers_of(alloc, rest)?,
            Failure::Puts => self.puts = numbers_of(alloc, rest)?,
            Failure::Memory => self.place = poor_of(rest)?,
            Failure::Disk if rest.is_empty() => self.place = Place::Disk,
            Failure::Disk => return Err(Wrong::BadLine),
        }
        Ok(())
    }
}
