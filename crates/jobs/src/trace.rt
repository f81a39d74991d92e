//! `trace IN SUBTUNE FRAMES`, or with `SKIP SPEED` behind it: the song in IN is played, and the SID's registers are
//! printed after each call.

ghost use Rattle.std.specs.Prelude.{ℕ, ◌+◌, ◌-◌, ◌≤◌};
ghost use Rattle.song_model.specs.declared.songs.Song.{Song as Kept};
ghost use Rattle.play_model.specs.declared.options.Options.{Options as Chosen};
ghost use Rattle.playroutine.specs.Played.{StandsAfter};
ghost use Rattle.command_line.specs.Last.{last_word};
ghost use Rattle.command_line.specs.RegisterText.{register_lines};
ghost use Rattle.jobs.specs.Traces.{first_traces};
ghost use Rattle.jobs.specs.Stands.{folder_state, sink_state};
ghost use Rattle.jobs.specs.Endings.{JobEnds, LinesEnd};
ghost use Rattle.command_line.specs.Words.{Trace, frame_limit};

use crate::calling::next_frame;
use crate::registers::put_registers;
use crate::stages::{parts_of, playable_subtune_of, read_song};
use command_line::{Line, Refusal, Report};
use goat_io::{Folder, Sink};
use play_model::Options;
use playroutine::{Player, start};
use std::alloc::Global;

/// Plays a subtune, counted from 1, of the song in a file, this many frames. Prints a line of registers for its start
/// and after each frame.
///
/// # Errors
///
/// A stage ends the run, a device fails, or out of memory.
pub fn trace_song<'a, F: Folder, K: Sink>(
    alloc: Global,
    input: &'a str,
    subtune: u8,
    frames: u32,
    options: Options,
    folder: &mut F,
    line: &mut Line,
    out: &mut K,
) -> Result<Report<'a>, Refusal<'a>>
    requires { frames ≤ frame_limit }
    ensures { JobEnds (Trace input.now subtune frames options) (last_word result)
        (folder_state (F.files folder.old) (F.counts folder.old))
        (folder_state (F.files folder.new) (F.counts folder.new))
        (sink_state (K.written out.old) (K.faults out.old))
        (sink_state (K.written out.new) (K.faults out.new)) }
{
    let song = read_song(alloc, input, folder)?;
    let _parts = parts_of(&song)?;
    let number = playable_subtune_of(&song, subtune)?;
    match start(&song, number, options) {
        Ok(mut player) => show_frames(&mut player, frames, line, out),
        Err(_) => unreachable!(),
    }
}

/// Prints a line for the start of a player, and then for each of its frames.
fn show_frames<K: Sink>(
    player: &mut Player,
    frames: u32,
    line: &mut Line,
    out: &mut K,
) -> Result<Report<'static>, Refusal<'static>>
    requires { frames ≤ frame_limit }
    ensures { (song : Kept) (k : ℕ) (options : Chosen) → StandsAfter player.old song k options 0 →
        LinesEnd (register_lines (first_traces options song k (frames + 1))) (last_word result)
        (sink_state (K.written out.old) (K.faults out.old))
        (sink_state (K.written out.new) (K.faults out.new)) }
{
    for call in 0..=frames {
        let registers = next_frame(player, call);
        put_registers(call, &registers, line, out)?;
    }
    Ok(Report::Shown)
}
