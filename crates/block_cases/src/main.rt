//! Cases of blocks, of entrances, of listings and of machines, which stand in files.
//!
//! A block of the language of scopes is lowered, assembled and run on the machine, and what stands behind its last line
//! is compared with what its case says: registers and flags, and memory; an entrance is called through its label. A
//! case of a listing is assembled, or refused; a case of a machine is stepped and called. What the cases want was
//! worked by hand, or by a second reading of what blocks mean (`bench/block_cases.py`). Each case that differs is told
//! by its file and line; one that can't be read differs too. A denial is a case that has to differ. The notation is
//! in `docs/block-cases.md`.
//!
//! Its one contract is that a case that differs isn't counted as one that agrees; and whether lines are a block is told
//! exactly. It stands on `scope_lines` and `scope_calls` for lines, on `asm6502` for their bytes, on `cpu6502` for the
//! machine, and on `case_text` for the count.
#![tactic(auto)]

mod bench;
mod cases;
mod difference;
mod form;
mod instructions;
mod listings;
mod machines;
mod numbers;
mod reach;
mod runs;
mod setup;
mod sizes;
mod text;
mod wants;
mod words;

use bench::Bench;
use case_text::Tally;
use std::process::ExitCode;
use std::rt::{Env, Files};
use std::{env, fs, io};
use words::{Reader, words_of};

/// Does the cases of a file.
fn do_file<R: Files + Print + AllocGlobal>(
    rt: &R,
    bench: &mut Bench,
    file: &str,
    tally: &mut Tally,
) -> io::Result<()> {
    let text = fs::read_to_string(rt, file)?;
    let words = words_of(rt.alloc(), text.as_str())?;
    cases::do_file(rt, tally, file, bench, Reader::new(words.as_slice()))
}

/// Does the cases of each file that the program is given.
fn run<R: Env + Files + Print + AllocGlobal>(rt: &R) -> io::Result<Tally> {
    let mut tally = Tally::new();
    let Ok(mut bench) = Bench::new(rt.alloc()) else {
        return Err(io::Error::from(io::ErrorKind::OutOfMemory));
    };
    for file in env::args(rt)?.skip(1) {
        do_file(rt, &mut bench, file.as_str(), &mut tally)?;
    }
    Ok(tally)
}

/// Goes through the cases of the files, and ends with status 0 where there are cases and all agree.
fn main(rt: HostRuntime) -> io::Result<ExitCode> {
    let tally = run(&rt)?;
    if tally.tell(&rt)? {
        Ok(ExitCode::SUCCESS)
    } else {
        Ok(ExitCode::FAILURE)
    }
}
