//! Goes through files of cases, and holds a program against them.
//!
//! A case says what the program must answer: words, the files before, what fails, and then the status, the text and the
//! files after. `docs/cases.md` has the lines of such a file. The program is whatever has a call of words, a folder and
//! a sink; its runs are over folders and sinks in memory, so what it answers is its own answer.
//!
//! It has no contract of its own: that a fact which doesn't hold is never met, and a case that differs never counted as
//! one that agrees, are `case_text`'s.
//!
//! It stands on `case_text` for lines and counts, on `goat_io` for folders and sinks, on `cpu6502`, `psid` and `sid_run`
//! for the machine, on `song_gen` and `gts5` for songs that are made from numbers, on `pattern_pack`, `packed_form` and
//! `song_model` for patterns, and on `edit_script` and `edit_history` for what their readers say. The program is above.
#![tactic(auto)]

mod after;
mod answer;
mod bench;
mod desk;
mod devices;
mod files;
mod lines;
mod machine;
mod parts;
mod patterns;
mod poor;
mod readers;
mod report;
mod runs;
mod steps;

pub use files::run_cases;
pub use runs::Program;
