//! `disasm IN OUT`: a listing of the image in the PSID file IN is written into OUT.

ghost use Rattle.command_line.specs.Last.{last_word};
ghost use Rattle.jobs.specs.Stands.{folder_state, SinkState};
ghost use Rattle.jobs.specs.Endings.{JobEnds};
ghost use Rattle.command_line.specs.Words.{Disasm};

use command_line::{Refusal, Report};
use goat_io::Folder;
use jobs::{read_psid, write_file};
use std::alloc::Global;

/// Writes a listing of the image in a PSID file into another file.
///
/// # Errors
///
/// A stage ends the run, the folder fails, or out of memory.
pub fn list_psid<'a, F: Folder>(
    alloc: Global,
    input: &'a str,
    output: &'a str,
    folder: &mut F,
) -> Result<Report<'a>, Refusal<'a>>
    ensures { (sink : SinkState) → JobEnds (Disasm input.now output.now) (last_word result)
        (folder_state (F.files folder.old) (F.counts folder.old))
        (folder_state (F.files folder.new) (F.counts folder.new)) sink sink }
{
    let psid = read_psid(alloc, input, folder)?;
    let listing = asm_text::print(alloc, psid.load, psid.image.as_slice())?;
    write_file(output, listing.as_slice(), folder)
}
