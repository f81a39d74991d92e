//! `parts IN SKIP SPEED`: what the song in IN costs when it is packed is told, and why.

ghost use Rattle.command_line.specs.Last.{last_word};
ghost use Rattle.jobs.specs.Stands.{folder_state, sink_state};
ghost use Rattle.jobs.specs.Endings.{JobEnds};
ghost use Rattle.command_line.specs.Words.{Parts};

use crate::cost_lines::show_costs;
use crate::part_costs::part_costs;
use command_line::{Line, Refusal, Report};
use goat_io::{Folder, Sink};
use image_parts::code_parts;
use jobs::{packed_song, parts_of, read_song};
use kept_lines::asked;
use play_model::Options;
use song_costs::costs_by_kind;
use std::alloc::Global;

/// Tells how many bytes of each kind the song in a file takes when it is packed, and for each part of its player that
/// features, facts or an option want how many, and the first place that needs it.
///
/// # Errors
///
/// A stage ends the run, a device fails, or out of memory.
pub fn tell_parts<'a, F: Folder, K: Sink>(
    alloc: Global,
    input: &'a str,
    options: Options,
    folder: &mut F,
    line: &mut Line,
    out: &mut K,
) -> Result<Report<'a>, Refusal<'a>>
    ensures { JobEnds (Parts input.now options) (last_word result)
        (folder_state (F.files folder.old) (F.counts folder.old))
        (folder_state (F.files folder.new) (F.counts folder.new))
        (sink_state (K.written out.old) (K.faults out.old))
        (sink_state (K.written out.new) (K.faults out.new)) }
{
    let how = &options;
    let song = read_song(alloc, input, folder)?;
    let parts = parts_of(&song)?;
    let packed = packed_song(alloc, &song, &parts, how)?;
    let code = code_parts(alloc, asked(parts.features, &parts.facts), how)?;
    let costs = costs_by_kind(&packed, code.as_slice());
    let told = part_costs(alloc, &song, &parts, how, code.as_slice())?;
    show_costs(&costs, told.as_slice(), line, out)
}
