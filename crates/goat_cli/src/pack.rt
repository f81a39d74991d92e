//! `pack IN OUT psid|raw ADDRESS ZP`, or with `SKIP SPEED` or `SKIP SPEED SYSTEM CHIP` behind it: the song in IN, with a
//! player, is written into OUT.

ghost use Rattle.packed_form.specs.ImagePlaces.{IsAddress, IsZeroPage};
ghost use Rattle.command_line.specs.Last.{last_word};
ghost use Rattle.jobs.specs.Stands.{folder_state, SinkState};
ghost use Rattle.jobs.specs.Endings.{JobEnds};
ghost use Rattle.command_line.specs.Words.{Pack};

use crate::images::{image_file, image_of};
use command_line::{Chip, Refusal, Report};
use goat_io::Folder;
use jobs::{packed_song, parts_of, read_song, write_file};
use play_model::Options;
use std::alloc::Global;

/// Packs the song in one file into another, with an image for a place and for how it is played, and for a SID.
///
/// # Errors
///
/// A stage ends the run, the folder fails, or out of memory.
pub fn pack_song<'a, F: Folder>(
    alloc: Global,
    input: &'a str,
    output: &'a str,
    psid: bool,
    address: u16,
    zero_page: u8,
    options: Options,
    chip: Chip,
    folder: &mut F,
) -> Result<Report<'a>, Refusal<'a>>
    requires address { IsAddress address }
    requires zero_page { IsZeroPage zero_page }
    ensures { (sink : SinkState) →
        JobEnds (Pack input.now output.now psid address zero_page options chip) (last_word result)
        (folder_state (F.files folder.old) (F.counts folder.old))
        (folder_state (F.files folder.new) (F.counts folder.new)) sink sink }
{
    let song = read_song(alloc, input, folder)?;
    let parts = parts_of(&song)?;
    let packed = packed_song(alloc, &song, &parts, &options)?;
    let image = image_of(alloc, &packed, address, zero_page, &options)?;
    let file = image_file(alloc, psid, &song, &image, &options, chip)?;
    write_file(output, &file, folder)
}
