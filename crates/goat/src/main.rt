//! The program.
//!
//! All that goat does is in `goat_cli`. This crate has its `main`, and a stored run. What the program must answer stands
//! as data in `goat_cases`, which makes the same top call over a folder and a sink in memory.
#![tactic(auto)]

use std::process::ExitCode;

fn main(rt: HostRuntime) -> ExitCode {
    goat_cli::run_program(&rt)
}
