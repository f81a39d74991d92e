//! `measure IN CALLS`: of each subtune of the PSID file IN it is told how long it is, and what its dearest call costs.

ghost use Rattle.std.specs.Prelude.{◌≡◌, ℕ, ◌+◌, ◌<◌, ◌≤◌, ◌^◌, List, [], ◌∷◌, length, flat_map, sum_by, IfSome};
ghost use Rattle.std.specs.List.{concat};
ghost use Rattle.psid.specs.declared.reading.TheConstants.{ADDRESSES};
ghost use Rattle.goat_io.specs.Files.{Files};
ghost use Rattle.command_line.specs.Last.{last_word};
ghost use Rattle.command_line.specs.Message.{line_of, piece_text, own_length};
ghost use Rattle.command_line.specs.Words.{Measure, measure_limit};
ghost use Rattle.jobs.specs.Lines.{measured_line, repeat_words};
ghost use Rattle.jobs.specs.Stages.{HoldsPsid, SubtunesReturn};
ghost use Rattle.jobs.specs.Stands.{folder_state, sink_state};
ghost use Rattle.jobs.specs.Endings.{JobEnds, StageEnds};
ghost use Rattle.length_jobs.specs.Numbers.{HasFewDigits};

use crate::refusals::fault_refusal;
use command_line::{Line, Message, Piece, Refusal, Report, Status};
use goat_io::{Folder, Sink};
use jobs::{put_message, read_psid};
use psid::Psid;
use song_length::{Measured, Repeat, measure};
use std::alloc::Global;

/// Tells of each subtune of a PSID file how long it is and what its dearest call costs, of its first plays, 1 to 1,000,000.
///
/// # Errors
///
/// A stage ends the run, a device fails, or out of memory.
pub fn measure_songs<'a, F: Folder, K: Sink>(
    alloc: Global,
    input: &'a str,
    calls: u32,
    folder: &mut F,
    line: &mut Line,
    out: &mut K,
) -> Result<Report<'a>, Refusal<'a>>
    requires some { 1 ≤ calls }
    requires few { calls ≤ measure_limit }
    ensures { JobEnds (Measure input.now calls) (last_word result)
        (folder_state (F.files folder.old) (F.counts folder.old))
        (folder_state (F.files folder.new) (F.counts folder.new))
        (sink_state (K.written out.old) (K.faults out.old))
        (sink_state (K.written out.new) (K.faults out.new)) }
{
    let psid = read_psid(alloc, input, folder)?;
    tell_songs(alloc, &psid, calls, line, out)
}

/// Prints a line for each subtune.
///
/// # Errors
///
/// A call doesn't return, the sink fails, or out of memory.
fn tell_songs<K: Sink>(
    alloc: Global,
    psid: &Psid,
    calls: u32,
    line: &mut Line,
    out: &mut K,
) -> Result<Report<'static>, Refusal<'static>>
    requires fits { psid.now.load + length psid.now.image ≤ ADDRESSES }
    requires songs { psid.now.header.songs ≤ 256 }
    requires some { 1 ≤ calls }
    requires few { calls ≤ measure_limit }
    ensures { (files : Files) (name : List ℕ) → HoldsPsid files name psid.now →
        StageEnds (Measure name calls) files (SubtunesReturn name calls) (last_word result)
        (sink_state (K.written out.old) (K.faults out.old))
        (sink_state (K.written out.new) (K.faults out.new)) }
{
    for song in 0..psid.header.songs {
        let told = match measure(alloc, psid, song as u8, calls) {
            Ok(told) => told,
            Err(fault) => return Err(fault_refusal(fault)),
        };
        put_message(&song_message(song, calls, &told), line, out)?;
    }
    Ok(Report::Shown)
}

/// When a song repeats, or that it doesn't in so many calls, in four pieces.
fn repeat_pieces(
    calls: u32,
    repeat: Option<Repeat>,
) -> (
    Piece<'static>,
    Piece<'static>,
    Piece<'static>,
    Piece<'static>,
)
    requires calls { calls < 10 ^ 7 }
    requires from { IfSome repeat (λ found. found.from < 10 ^ 7) }
    requires length { IfSome repeat (λ found. found.length < 10 ^ 7) }
    ensures text { flat_map piece_text (result.0 ∷ result.1 ∷ result.2 ∷ result.3 ∷ []) ≡
        concat (repeat_words calls repeat) }
    ensures short { sum_by own_length (result.0 ∷ result.1 ∷ result.2 ∷ result.3 ∷ []) ≤ 40 }
{
    match repeat {
        Some(repeat) => (
            Piece::Words(", repeats from "),
            Piece::Number(u64::from(repeat.from)),
            Piece::Words(" after "),
            Piece::Number(u64::from(repeat.length)),
        ),
        None => (
            Piece::Words(", not repeated in "),
            Piece::Number(u64::from(calls)),
            Piece::Words(" calls"),
            Piece::Words(""),
        ),
    }
}

/// The line of a subtune, which is counted from 0 here.
fn song_message(song: u16, calls: u32, told: &Measured) -> Message<'static>
    requires song { song ≤ 255 }
    requires few { calls ≤ measure_limit }
    requires digits { HasFewDigits told.now }
    ensures { line_of result.pieces ≡ measured_line calls (song + 1) told.now }
{
    let (first, second, third, last) = repeat_pieces(calls, told.repeat);
    Message::new(
        Status::Done,
        &[
            Piece::Words("subtune "),
            Piece::Number(u64::from(song) + 1),
            Piece::Words(": init "),
            Piece::Number(told.init),
            Piece::Words(", play at most "),
            Piece::Number(told.dearest.cycles),
            Piece::Words(" in call "),
            Piece::Number(u64::from(told.dearest.call)),
            first,
            second,
            third,
            last,
        ],
    )
}
