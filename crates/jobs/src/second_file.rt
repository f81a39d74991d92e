//! The stage of a run that reads a second file, where a song was read before.

ghost use Rattle.std.specs.Prelude.{◌≢◌, IfOk, IfErr};
ghost use Rattle.command_line.specs.Last.{last_of};
ghost use Rattle.song_model.specs.declared.songs.Song.{Song as Read};
ghost use Rattle.jobs.specs.Stages.{script_limit};
ghost use Rattle.jobs.specs.Stands.{FolderState, folder_state};
ghost use Rattle.jobs.specs.Endings.{ReadFails, SpellingWasRead, BothWereRead, BothFail};

use crate::stages::{read_file, read_song_and_bytes};
use command_line::Refusal;
use goat_io::Folder;
use song_model::Song;
use std::alloc::Global;

/// The most bytes of a script.
const SCRIPT_LIMIT: u32 = 1_048_576;

/// The song in one file, and the bytes of another. A file that is both is read once.
///
/// # Errors
///
/// One of the files isn't read, the first one's bytes break the format of songs, or out of memory.
pub fn read_song_and_script<'a, F: Folder>(
    alloc: Global,
    name: &'a str,
    script: &'a str,
    folder: &mut F,
) -> Result<(Song, Vec<u8>), Refusal<'a>>
    ensures read { IfOk result (λ both. BothWereRead name.now script.now script_limit
        (folder_state (F.files folder.old) (F.counts folder.old))
        (folder_state (F.files folder.new) (F.counts folder.new)) both.0 both.1.items) }
    ensures refused { IfErr result (λ refusal. BothFail name.now script.now script_limit
        (folder_state (F.files folder.old) (F.counts folder.old))
        (folder_state (F.files folder.new) (F.counts folder.new)) (last_of refusal)) }
{
    let (song, bytes) = read_song_and_bytes(alloc, name, folder)?;
    let text = read_other(alloc, name, bytes, script, SCRIPT_LIMIT, folder)?;
    Ok((song, text))
}

/// The bytes of another file, where those of one are read already. A file that is both is read once.
///
/// # Errors
///
/// The other file isn't read, or out of memory.
pub fn read_other<'a, F: Folder>(
    alloc: Global,
    name: &str,
    bytes: Vec<u8>,
    other: &'a str,
    limit: u32,
    folder: &mut F,
) -> Result<Vec<u8>, Refusal<'a>>
    ensures read { IfOk result (λ text. (before : FolderState) (song : Read) →
        SpellingWasRead name.now before (folder_state (F.files folder.old) (F.counts folder.old))
        song bytes.items → BothWereRead name.now other.now limit before
        (folder_state (F.files folder.new) (F.counts folder.new)) song text.items) }
    ensures refused { IfErr result (λ refusal. (other.now ≢ name.now) × ReadFails other.now limit
        (folder_state (F.files folder.old) (F.counts folder.old))
        (folder_state (F.files folder.new) (F.counts folder.new)) (last_of refusal)) }
{
    if other == name {
        return Ok(bytes);
    }
    read_file(alloc, other, limit, folder)
}
