//! The files of cases that the words name.

use crate::report::go_through;
use crate::runs::Program;
use case_text::{Tally, Wrong};
use std::process::ExitCode;
use std::rt::{Env, Files};
use std::{env, fs};

/// Goes through a file of cases that stands on the disk.
fn do_file<R: Files + Print + AllocGlobal, P: Program>(
    rt: &R,
    program: &P,
    name: &str,
    tally: &mut Tally,
) -> Result<(), Wrong> {
    match fs::read_to_string(rt, name) {
        Ok(text) => go_through(rt, program, name, &text, tally),
        Err(_) => Err(Wrong::Differs("a file of cases can't be read")),
    }
}

/// Goes through the files that the words name, one after the other.
fn all_files<R: Env + Files + Print + AllocGlobal, P: Program>(
    rt: &R,
    program: &P,
) -> Result<Tally, Wrong> {
    let mut tally = Tally::new();
    let Ok(names) = env::args(rt) else {
        return Err(Wrong::Differs("the words can't be had"));
    };
    for name in names.skip(1) {
        do_file(rt, program, &name, &mut tally)?;
    }
    Ok(tally)
}

/// Holds a program against the cases of the files that the words name, and prints each case that differs and how many
/// agree, or why that can't be said. The code is 0 where there are cases and all agree.
pub fn run_cases<R: Env + Files + Print + AllocGlobal, P: Program>(
    rt: &R,
    program: &P,
) -> ExitCode {
    let passes = match all_files(rt, program) {
        Ok(tally) => matches!(tally.tell(rt), Ok(true)),
        Err(wrong) => {
            let _ = println!(rt; "{wrong:?}");
            false
        }
    };
    ExitCode::from(if passes { 0 } else { 1 })
}
