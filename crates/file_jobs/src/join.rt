//! `join IN SECOND OUT`: the songs in IN and SECOND are written into OUT, as one song.
#![tactic(auto, using(crate::proofs::Room::pieces_fit))]

ghost use Rattle.std.specs.Prelude.{◌≡◌, ◌≢◌, ◌≤◌, ℕ, List, [], ◌∷◌, codes, decimal, length};
ghost use Rattle.std.specs.Prelude.{IfOk, IfErr, OnOk};
ghost use Rattle.goat_io.specs.Files.{Files};
ghost use Rattle.play_model.specs.Playable.{IsPlayable};
ghost use Rattle.song_join.specs.Joined.{joined};
ghost use Rattle.song_join.specs.Refusals.{CanBeJoined};
ghost use Rattle.command_line.specs.Last.{last_of, last_word, Says};
ghost use Rattle.command_line.specs.Lines.{line};
ghost use Rattle.jobs.specs.Lines.{join_line, part_words};
ghost use Rattle.jobs.specs.Stages.{GoTogether, HoldsSong};
ghost use Rattle.jobs.specs.Stands.{folder_state, SinkState};
ghost use Rattle.jobs.specs.Endings.{Refuses, JobEnds};
ghost use Rattle.command_line.specs.Words.{Join};

use command_line::{Piece, Refusal, Report, Status};
use goat_io::Folder;
use jobs::{INPUT_LIMIT, parts_of, read_other, read_song_and_bytes, song_of, write_file};
use song_join::{JoinFault, JoinPart, join};
use song_model::Song;
use std::alloc::Global;

/// Writes the songs in two files into another, as one song.
///
/// # Errors
///
/// A stage ends the run, the folder fails, or out of memory.
pub fn join_songs<'a, F: Folder>(
    alloc: Global,
    input: &'a str,
    second: &'a str,
    output: &'a str,
    folder: &mut F,
) -> Result<Report<'a>, Refusal<'a>>
    ensures { (sink : SinkState) → JobEnds (Join input.now second.now output.now)
        (last_word result)
        (folder_state (F.files folder.old) (F.counts folder.old))
        (folder_state (F.files folder.new) (F.counts folder.new)) sink sink }
{
    let (song, bytes) = read_song_and_bytes(alloc, input, folder)?;
    let _parts = parts_of(&song)?;
    let text = read_other(alloc, input, bytes, second, INPUT_LIMIT, folder)?;
    let other = song_of(alloc, &text)?;
    let _others = parts_of(&other)?;
    let joined = joined_of(alloc, &song, &other)?;
    let file = gts5::write(alloc, &joined)?;
    write_file(output, &file, folder)
}

/// Two songs in one.
///
/// # Errors
///
/// They can't be joined, or out of memory.
fn joined_of(alloc: Global, first: &Song, second: &Song) -> Result<Song, Refusal<'static>>
    requires first_plays { IsPlayable first.now }
    requires second_plays { IsPlayable second.now }
    ensures joined { IfOk result (λ song. song ≡ joined first.now second.now) }
    ensures can { OnOk result (CanBeJoined first.now second.now) }
    ensures refused { IfErr result (λ refusal. (files : Files) (name other : List ℕ) →
        HoldsSong files name first.now → HoldsSong files other second.now →
        Refuses files (GoTogether name other) (last_of refusal)) }
{
    match join(alloc, first, second) {
        Ok(song) => Ok(song),
        Err(JoinFault::NoMemory) => Err(Refusal::NoMemory),
        Err(fault) => Err(join_refusal(fault)),
    }
}

/// The refusal of two songs that can't be joined.
fn join_refusal(fault: JoinFault) -> Refusal<'static>
    requires { fault ≢ JoinFault.NoMemory }
    ensures { last_of result ≡ Says 18 (join_line fault) }
{
    match fault {
        JoinFault::OverLimit { part, sum } => Refusal::says(
            Status::CannotJoin,
            &[
                Piece::Words("cannot join: "),
                Piece::Number(u64::from(sum)),
                Piece::Words(part_words(part)),
            ],
        ),
        JoinFault::LooseInstrument { song, instrument } => {
            refusal_of("loose instrument ", instrument, " in song ", song)
        }
        JoinFault::LooseSpeed { song, row } => {
            refusal_of("loose speed row ", row, " in song ", song)
        }
        JoinFault::GateTimer { first, second } => {
            refusal_of("gate timers ", first, " and ", second)
        }
        JoinFault::NoteBeforeInstrument { subtune, channel } => refusal_of(
            "note before instrument in subtune ",
            subtune,
            " channel ",
            channel,
        ),
        JoinFault::NoMemory => unreachable!(),
    }
}

/// The refusal that tells two numbers.
fn refusal_of(words: &'static str, one: u8, between: &'static str, other: u8) -> Refusal<'static>
    requires words { length words.now ≤ 34 }
    requires between { length between.now ≤ 9 }
    ensures { last_of result ≡ Says 18 (line (codes "cannot join: " ∷ words.now ∷ decimal one ∷
        between.now ∷ decimal other ∷ [])) }
{
    Refusal::says(
        Status::CannotJoin,
        &[
            Piece::Words("cannot join: "),
            Piece::Words(words),
            Piece::Number(u64::from(one)),
            Piece::Words(between),
            Piece::Number(u64::from(other)),
        ],
    )
}

/// What there would be too many of.
fn part_words(part: JoinPart) -> &'static str
    ensures words { result.now ≡ part_words part }
    ensures short { length result.now ≤ 12 }
{
    match part {
        JoinPart::Subtunes => " subtunes",
        JoinPart::Instruments => " instruments",
        JoinPart::Wave => " wave rows",
        JoinPart::Pulse => " pulse rows",
        JoinPart::Filter => " filter rows",
        JoinPart::Speed => " speed rows",
        JoinPart::Patterns => " patterns",
    }
}
