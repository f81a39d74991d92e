//! `edit IN SCRIPT OUT`: the commands in SCRIPT are done on the song in IN, and the canonical spelling of what they make
//! of it is written into OUT.

ghost use Rattle.std.specs.Prelude.{◌≡◌, ◌≢◌, ◌≤◌, length, IfOk, IfErr};
ghost use Rattle.edit_script.specs.Edited.{IsEditedBy, kind_words};
ghost use Rattle.command_line.specs.Last.{Says, Wants, last_of, last_word};
ghost use Rattle.jobs.specs.Lines.{script_line};
ghost use Rattle.jobs.specs.Stages.{script_limit};
ghost use Rattle.jobs.specs.Stands.{folder_state, SinkState};
ghost use Rattle.jobs.specs.Endings.{EditFails, JobEnds};
ghost use Rattle.command_line.specs.Words.{Edit};

use command_line::{Piece, Refusal, Report, Status};
use edit_history::Session;
use edit_script::{RunFault, RunKind, ScriptFault, parse, run};
use goat_io::Folder;
use jobs::{read_song_and_script, write_file};
use song_model::Song;
use std::alloc::Global;

/// Does a script on the song in a file, and writes the canonical spelling of what it makes into another.
///
/// # Errors
///
/// A stage ends the run, the folder fails, or out of memory.
pub fn edit_song<'a, F: Folder>(
    alloc: Global,
    input: &'a str,
    script: &'a str,
    output: &'a str,
    folder: &mut F,
) -> Result<Report<'a>, Refusal<'a>>
    ensures { (sink : SinkState) → JobEnds (Edit input.now script.now output.now)
        (last_word result)
        (folder_state (F.files folder.old) (F.counts folder.old))
        (folder_state (F.files folder.new) (F.counts folder.new)) sink sink }
{
    let (song, text) = read_song_and_script(alloc, input, script, folder)?;
    let edited = edited_by(alloc, song, &text)?;
    let file = gts5::write(alloc, &edited)?;
    write_file(output, &file, folder)
}

/// The song that a script makes of a song.
///
/// # Errors
///
/// The text is no script, one of its commands can't be done, or out of memory.
fn edited_by(alloc: Global, song: Song, text: &[u8]) -> Result<Song, Refusal<'static>>
    requires { length text.now ≤ script_limit }
    ensures edited { IfOk result (IsEditedBy text.now song) }
    ensures refused { IfErr result (λ refusal. EditFails text.now song (last_of refusal)) }
{
    let script = match parse(alloc, text) {
        Ok(script) => script,
        Err(ScriptFault::BadLine { line }) => return Err(script_refusal(line, "bad line")),
        Err(ScriptFault::NoMemory) => return Err(Refusal::NoMemory),
    };
    let mut session = Session::new(alloc, song);
    match run(&mut session, &script) {
        Ok(()) => Ok(session.into_song()),
        Err(fault) => Err(run_refusal(fault)),
    }
}

/// The refusal of a script because of a command that can't be done.
fn run_refusal(fault: RunFault) -> Refusal<'static>
    ensures wants { fault.kind ≡ RunKind.NoMemory → last_of result ≡ Wants }
    ensures says { fault.kind ≢ RunKind.NoMemory →
        last_of result ≡ Says 8 (script_line fault.line (kind_words fault.kind)) }
{
    if fault.kind == RunKind::NoMemory {
        return Refusal::NoMemory;
    }
    script_refusal(fault.line, fault.kind.words())
}

/// The refusal of a script because of one of its lines.
#[tactic(auto, using(crate::proofs::Room::pieces_fit))]
fn script_refusal(line: u32, words: &'static str) -> Refusal<'static>
    requires { length words.now ≤ 15 }
    ensures { last_of result ≡ Says 8 (script_line line words.now) }
{
    Refusal::says(
        Status::BadScript,
        &[
            Piece::Words("script line "),
            Piece::Number(u64::from(line)),
            Piece::Words(": "),
            Piece::Words(words),
        ],
    )
}
