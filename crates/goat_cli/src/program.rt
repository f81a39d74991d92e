//! The edge around the top call: the system's words, its files and its standard output. It claims nothing.

use crate::top::goat;
use command_line::Status;
use goat_io::{DiskFolder, StdSink};
use song_model::NoMemory;
use std::env;
use std::io::ErrorKind;
use std::process::ExitCode;
use std::rt::{Env, Files};

/// Does what the program's words ask for, with the system's files and the standard output, and answers the exit code.
pub fn run_program<R: Env + Files + Print + AllocGlobal>(rt: &R) -> ExitCode {
    let Ok(words) = words(rt) else {
        return ExitCode::from(Status::NoMemory.number());
    };
    let mut folder = DiskFolder::new(rt.alloc(), rt);
    let mut out = StdSink::new(rt);
    ExitCode::from(goat(rt.alloc(), &words, &mut folder, &mut out))
}

/// The words without the program's name; none where they can't be had as text.
///
/// # Errors
///
/// Out of memory.
fn words<R: Env + AllocGlobal>(rt: &R) -> Result<Vec<String>, NoMemory> {
    match env::args(rt) {
        Ok(args) => Ok(args.skip(1).collect(rt.alloc())?),
        Err(error) if error.kind() == ErrorKind::OutOfMemory => Err(NoMemory),
        Err(_) => Ok(Vec::new(rt.alloc())),
    }
}
