//! `copy IN OUT`: the canonical spelling of the song in IN is written into OUT.

ghost use Rattle.command_line.specs.Last.{last_word};
ghost use Rattle.jobs.specs.Stands.{folder_state, SinkState};
ghost use Rattle.jobs.specs.Endings.{JobEnds};
ghost use Rattle.command_line.specs.Words.{Copy};

use command_line::{Refusal, Report};
use goat_io::Folder;
use jobs::{read_song, write_file};
use std::alloc::Global;

/// Writes the canonical spelling of the song in one file into another.
///
/// # Errors
///
/// A stage ends the run, the folder fails, or out of memory.
pub fn copy_song<'a, F: Folder>(
    alloc: Global,
    input: &'a str,
    output: &'a str,
    folder: &mut F,
) -> Result<Report<'a>, Refusal<'a>>
    ensures { (sink : SinkState) → JobEnds (Copy input.now output.now) (last_word result)
        (folder_state (F.files folder.old) (F.counts folder.old))
        (folder_state (F.files folder.new) (F.counts folder.new)) sink sink }
{
    let song = read_song(alloc, input, folder)?;
    let file = gts5::write(alloc, &song)?;
    write_file(output, &file, folder)
}
