//! Runs of the program.

use crate::answer::Answer;
use crate::desk::Desk;
use crate::devices::{Devices, Place};
use crate::poor::PoorFolder;
use case_text::{Names, Wrong};
use goat_io::{DiskFolder, Folder, MemFolder, MemSink, NoMemory};
use std::alloc::Global;
use std::rt::Files;

/// The program that cases run.
pub trait Program {
    /// Does what the words ask for, with the files of a folder and what is printed to a sink; answers the status.
    fn run<F: Folder>(
        &self,
        alloc: Global,
        words: &[String],
        folder: &mut F,
        out: &mut MemSink,
    ) -> u8;
}

/// Out of memory, as a case tells it.
fn wanting(_: NoMemory) -> Wrong {
    Wrong::NoMemory
}

/// A folder in memory with the files of the desk, whose listed calls fail.
fn folder_of(alloc: Global, desk: &Desk, failing: &[u32]) -> Result<MemFolder, Wrong> {
    let mut folder = MemFolder::new(alloc, failing.to_vec(alloc)?);
    for (name, bytes) in desk.files().iter() {
        folder.add(name, bytes).map_err(wanting)?;
    }
    Ok(folder)
}

/// The status and the text of a run over a folder.
fn answered<P: Program, F: Folder>(
    program: &P,
    alloc: Global,
    words: &[String],
    folder: &mut F,
    puts: &[u32],
) -> Result<Answer, Wrong> {
    let mut out = MemSink::new(alloc, puts.to_vec(alloc)?);
    let status = program.run(alloc, words, folder, &mut out);
    Answer::new(alloc, status, out.bytes())
}

/// Takes the file that has the name over to the desk where the run changed it, and notes that it did.
fn take_over(
    alloc: Global,
    name: &str,
    folder: &MemFolder,
    desk: &mut Desk,
    answer: &mut Answer,
) -> Result<(), Wrong> {
    let Some(bytes) = folder.get(name) else {
        return Ok(());
    };
    if desk.named(name) == Some(bytes) {
        return Ok(());
    }
    desk.put(name, bytes.to_vec(alloc)?)?;
    answer.changed(alloc, name)
}

/// The names of the desk's files.
fn names_of(alloc: Global, desk: &Desk) -> Result<Vec<String>, Wrong> {
    let mut names = Vec::new(alloc);
    for name in desk.files().keys() {
        names.push(name.clone()?)?;
    }
    Ok(names)
}

/// Takes over what a run with these words changed: files of the desk, or those that its words name.
fn take_over_all(
    alloc: Global,
    words: &[String],
    folder: &MemFolder,
    desk: &mut Desk,
    answer: &mut Answer,
) -> Result<(), Wrong> {
    let names = names_of(alloc, desk)?;
    for name in &names {
        take_over(alloc, name, folder, desk, answer)?;
    }
    for name in words {
        take_over(alloc, name, folder, desk, answer)?;
    }
    Ok(())
}

/// A run over files in memory.
fn run_in_memory<P: Program>(
    program: &P,
    alloc: Global,
    words: &[String],
    desk: &mut Desk,
    devices: &Devices,
) -> Result<Answer, Wrong> {
    let mut folder = folder_of(alloc, desk, &devices.calls)?;
    let mut answer = answered(program, alloc, words, &mut folder, &devices.puts)?;
    take_over_all(alloc, words, &folder, desk, &mut answer)?;
    Ok(answer)
}

/// A run over files in memory that finds no memory for writes, and for reads or not.
fn run_in_want<P: Program>(
    program: &P,
    alloc: Global,
    words: &[String],
    desk: &mut Desk,
    devices: &Devices,
) -> Result<Answer, Wrong> {
    let files = folder_of(alloc, desk, &devices.calls)?;
    let reads = matches!(devices.place, Place::PoorWrites);
    let mut folder = PoorFolder { files, reads };
    let mut answer = answered(program, alloc, words, &mut folder, &devices.puts)?;
    take_over_all(alloc, words, &folder.files, desk, &mut answer)?;
    Ok(answer)
}

/// The run of the program with these words.
pub fn run<R: Files, P: Program>(
    rt: &R,
    program: &P,
    alloc: Global,
    words: &[String],
    desk: &mut Desk,
    devices: &Devices,
) -> Result<Answer, Wrong> {
    match devices.place {
        Place::Memory => run_in_memory(program, alloc, words, desk, devices),
        Place::PoorWrites | Place::PoorReads => run_in_want(program, alloc, words, desk, devices),
        Place::Disk => {
            let mut folder = DiskFolder::new(alloc, rt);
            answered(program, alloc, words, &mut folder, &devices.puts)
        }
    }
}
