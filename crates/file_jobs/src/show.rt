//! `show IN OUT`: the song in IN is written into OUT, as a script that makes it of the empty song.

ghost use Rattle.std.specs.Prelude.{◌≡◌, ℕ, List, IfOk, IfErr, OnOk};
ghost use Rattle.goat_io.specs.Files.{Files};
ghost use Rattle.song_script.specs.Shown.{script_of};
ghost use Rattle.command_line.specs.Last.{last_of, last_word, Says};
ghost use Rattle.jobs.specs.Lines.{script_too_large_line};
ghost use Rattle.jobs.specs.Stages.{HasShortScript, HoldsSong, IsMet};
ghost use Rattle.jobs.specs.Stands.{folder_state, SinkState};
ghost use Rattle.jobs.specs.Endings.{Refuses, JobEnds};
ghost use Rattle.command_line.specs.Words.{Show};

use base::ByteList;
use command_line::{Piece, Refusal, Report, Status};
use goat_io::Folder;
use jobs::{read_song, write_file};
use song_model::Song;
use song_script::{ShowFault, show};
use std::alloc::Global;

/// Writes the song in a file as a script into another file.
///
/// # Errors
///
/// A stage ends the run, the folder fails, or out of memory.
pub fn show_song<'a, F: Folder>(
    alloc: Global,
    input: &'a str,
    output: &'a str,
    folder: &mut F,
) -> Result<Report<'a>, Refusal<'a>>
    ensures { (sink : SinkState) → JobEnds (Show input.now output.now) (last_word result)
        (folder_state (F.files folder.old) (F.counts folder.old))
        (folder_state (F.files folder.new) (F.counts folder.new)) sink sink }
{
    let song = read_song(alloc, input, folder)?;
    let script = script_of(alloc, &song)?;
    write_file(output, script.as_slice(), folder)
}

/// The script that makes a song.
///
/// # Errors
///
/// It is longer than a script may be, or out of memory.
fn script_of(alloc: Global, song: &Song) -> Result<ByteList, Refusal<'static>>
    ensures shown { IfOk result (λ script. script ≡ script_of song.now) }
    ensures short { OnOk result ((files : Files) (name : List ℕ) → HoldsSong files name song.now →
        IsMet files (HasShortScript name)) }
    ensures refused { IfErr result (λ refusal. (files : Files) (name : List ℕ) →
        HoldsSong files name song.now → Refuses files (HasShortScript name) (last_of refusal)) }
{
    match show(alloc, song) {
        Ok(script) => Ok(script),
        Err(ShowFault::NoMemory) => Err(Refusal::NoMemory),
        Err(ShowFault::TooLarge { length }) => Err(too_large_script(length)),
    }
}

/// The refusal of a song whose script is too long.
#[tactic(auto, using(crate::proofs::Room::pieces_fit))]
fn too_large_script(length: usize) -> Refusal<'static>
    ensures { last_of result ≡ Says 7 (script_too_large_line length) }
{
    Refusal::says(
        Status::TooLarge,
        &[
            Piece::Words("too large: script of "),
            Piece::Number(length as u64),
            Piece::Words(" bytes"),
        ],
    )
}
