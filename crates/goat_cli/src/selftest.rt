//! `selftest NUMBER`: the song of a number is made, traced and packed, and its packed file is run.

ghost use Rattle.command_line.specs.Last.{last_word};
ghost use Rattle.jobs.specs.Stands.{FolderState, SinkState};
ghost use Rattle.jobs.specs.Endings.{JobEnds};
ghost use Rattle.command_line.specs.Words.{Selftest};

use crate::images::generated_file;
use command_line::{Refusal, Report};
use jobs::{register_sum, selftest_report, steps_of};
use song_gen::generate;
use std::alloc::Global;

/// Makes the song of a number, and tells the sum of what it leaves in the registers and the steps that its packed file
/// takes: of each subtune one init, and 300 plays.
///
/// # Errors
///
/// Out of memory.
pub fn self_test(alloc: Global, number: u64) -> Result<Report<'static>, Refusal<'static>>
    ensures { (folder : FolderState) (sink : SinkState) →
        JobEnds (Selftest number) (last_word result) folder folder sink sink }
{
    let song = generate(alloc, number)?;
    let file = generated_file(alloc, &song)?;
    let steps = steps_of(alloc, &song, &file)?;
    Ok(selftest_report(number, song.playable_count(), register_sum(&song), steps))
}
