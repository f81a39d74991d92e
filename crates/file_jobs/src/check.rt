//! `check IN`: what the song in IN uses is told, or why it can't be played.
#![tactic(auto, using(crate::proofs::Room::pieces_fit))]

ghost use Rattle.std.specs.Prelude.{◌≡◌, ◌≤◌, length, Ok};
ghost use Rattle.song_model.specs.LookUp.{playable_subtunes};
ghost use Rattle.usage.specs.Marks.{count_of};
ghost use Rattle.command_line.specs.Last.{last_word, Says};
ghost use Rattle.jobs.specs.Lines.{check_line};
ghost use Rattle.jobs.specs.Stands.{folder_state, SinkState};
ghost use Rattle.jobs.specs.Endings.{JobEnds};
ghost use Rattle.command_line.specs.Words.{Check};

use command_line::{Piece, Refusal, Report};
use goat_io::Folder;
use jobs::{parts_of, read_song};
use song_model::Song;
use std::alloc::Global;
use usage::UsedParts;

/// Tells what the song in a file uses.
///
/// # Errors
///
/// A stage ends the run, the folder fails, or out of memory.
pub fn check_song<'a, F: Folder>(
    alloc: Global,
    input: &'a str,
    folder: &mut F,
) -> Result<Report<'a>, Refusal<'a>>
    ensures { (sink : SinkState) → JobEnds (Check input.now) (last_word result)
        (folder_state (F.files folder.old) (F.counts folder.old))
        (folder_state (F.files folder.new) (F.counts folder.new)) sink sink }
{
    let song = read_song(alloc, input, folder)?;
    let parts = parts_of(&song)?;
    Ok(report_of(&song, &parts))
}

/// The report of a song with these used parts.
fn report_of(song: &Song, parts: &UsedParts) -> Report<'static>
    ensures { last_word (Ok result) ≡
        Says 0 (check_line (length (playable_subtunes song.now)) parts.now) }
{
    // That there are few subtunes is told by their slice.
    let _subtunes = song.subtunes.as_slice();
    Report::says(&[
        Piece::Words("subtunes "),
        Piece::Number(u64::from(song.playable_count())),
        Piece::Words(" patterns "),
        Piece::Number(count(&parts.patterns)),
        Piece::Words(" instruments "),
        Piece::Number(count(&parts.instruments)),
        Piece::Words(" wave "),
        Piece::Number(count(&parts.wave)),
        Piece::Words(" pulse "),
        Piece::Number(count(&parts.pulse)),
        Piece::Words(" filter "),
        Piece::Number(count(&parts.filter)),
        Piece::Words(" speed "),
        Piece::Number(count(&parts.speed)),
        Piece::Words(" features "),
        Piece::Features(parts.features.0),
    ])
}

/// How many numbers are marked, at most as many as there are marks.
fn count(marks: &[bool]) -> u64
    ensures count { result ≡ count_of marks.now }
    ensures most { result ≤ length marks.now }
{
    marks.iter().filter(|marked| **marked).count() as u64
}
