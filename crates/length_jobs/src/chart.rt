//! `chart IN OUT SUBTUNE CALLS`: a picture of what each play of a subtune of the PSID file IN costs is written into OUT.

ghost use Rattle.std.specs.Prelude.{◌≡◌, ◌+◌, ◌-◌, ◌≤◌, ℕ, List, length, option_map, IfOk, IfErr};
ghost use Rattle.psid.specs.declared.reading.TheConstants.{ADDRESSES};
ghost use Rattle.goat_io.specs.Files.{Files};
ghost use Rattle.command_line.specs.Last.{last_of, last_word};
ghost use Rattle.command_line.specs.Words.{Chart, chart_limit};
ghost use Rattle.jobs.specs.Lengths.{again_of, IsChart};
ghost use Rattle.jobs.specs.Stages.{HoldsPsid, SubtuneReturns};
ghost use Rattle.jobs.specs.Stands.{folder_state, SinkState};
ghost use Rattle.jobs.specs.Endings.{JobEnds, Refuses};

use crate::refusals::fault_refusal;
use base::ByteList;
use command_line::{Refusal, Report};
use goat_io::Folder;
use jobs::{read_psid, subtune_of, write_file};
use psid::Psid;
use song_chart::{Again, draw};
use song_length::{Repeat, measure, play_cycles};
use std::alloc::Global;

/// Draws what each of the first plays of a subtune, counted from 1, of a PSID file costs, 1 to 100,000 of them.
///
/// # Errors
///
/// A stage ends the run, the folder fails, or out of memory.
pub fn draw_song<'a, F: Folder>(
    alloc: Global,
    input: &'a str,
    output: &'a str,
    subtune: u8,
    calls: u32,
    folder: &mut F,
) -> Result<Report<'a>, Refusal<'a>>
    requires some { 1 ≤ calls }
    requires few { calls ≤ chart_limit }
    ensures { (sink : SinkState) → JobEnds (Chart input.now output.now subtune calls) (last_word result)
        (folder_state (F.files folder.old) (F.counts folder.old))
        (folder_state (F.files folder.new) (F.counts folder.new)) sink sink }
{
    let psid = read_psid(alloc, input, folder)?;
    let _song = subtune_of(&psid, subtune)?;
    let picture = picture_of(alloc, &psid, subtune, calls)?;
    write_file(output, picture.as_slice(), folder)
}

/// The picture of a subtune, counted from 1.
///
/// # Errors
///
/// A call doesn't return, or out of memory.
fn picture_of(
    alloc: Global,
    psid: &Psid,
    subtune: u8,
    calls: u32,
) -> Result<ByteList, Refusal<'static>>
    requires fits { psid.now.load + length psid.now.image ≤ ADDRESSES }
    requires counted { 1 ≤ subtune }
    requires some { 1 ≤ calls }
    requires few { calls ≤ chart_limit }
    ensures drawn { IfOk result (IsChart psid.now subtune calls) }
    ensures refused { IfErr result (λ refusal. (files : Files) (name : List ℕ) → HoldsPsid files name psid.now →
        Refuses files (SubtuneReturns name subtune calls) (last_of refusal)) }
{
    let told = match measure(alloc, psid, subtune - 1, calls) {
        Ok(told) => told,
        Err(fault) => return Err(fault_refusal(fault)),
    };
    let cycles = match play_cycles(alloc, psid, subtune - 1, calls) {
        Ok(cycles) => cycles,
        Err(fault) => return Err(fault_refusal(fault)),
    };
    Ok(draw(alloc, subtune, cycles.as_slice(), again_in(told.repeat))?)
}

/// Where the song begins again, if it does.
fn again_in(repeat: Option<Repeat>) -> Option<Again>
    ensures { result ≡ option_map again_of repeat }
{
    match repeat {
        Some(repeat) => Some(Again {
            from: repeat.from,
            length: repeat.length,
        }),
        None => None,
    }
}
