//! Holds the program against the cases of the files that its words name.
//!
//! Each run of a case is made by the top call over a folder and a sink in memory, so what it answers is the program's
//! own answer. `docs/cases.md` has the lines of a case.
//!
//! It stands on `goat_cli` for the top call, on `case_reading` for the cases, and on `goat_io` for folders and sinks.
#![tactic(auto)]

use case_reading::{Program, run_cases};
use goat_cli::goat;
use goat_io::{Folder, MemSink};
use std::alloc::Global;
use std::process::ExitCode;

/// The program that is held against the cases.
#[derive(Drop)]
struct Goat;

impl Program for Goat {
    fn run<F: Folder>(
        &self,
        alloc: Global,
        words: &[String],
        folder: &mut F,
        out: &mut MemSink,
    ) -> u8 {
        goat(alloc, words, folder, out)
    }
}

/// Prints how many cases agree, or why that can't be said.
fn main(rt: HostRuntime) -> ExitCode {
    run_cases(&rt, &Goat)
}
