//! The stages of a run: each passes, or ends the run. Those of PSID files are in `psid_stages.rt`.
#![tactic(auto, using(crate::proofs::Room::pieces_fit))]

ghost use Rattle.std.specs.Prelude.{◌≡◌, ◌≢◌, ◌-◌, ◌≤◌, ℕ, List, [], ◌∷◌, codes, Some};
ghost use Rattle.std.specs.Prelude.{IfOk, IfErr, OnOk, Ok, decimal, length};
ghost use Rattle.goat_io.specs.Files.{Files, file_of};
ghost use Rattle.song_model.specs.LookUp.{IsNumbered, playable_subtunes};
ghost use Rattle.gts5.specs.Spells.{Spells};
ghost use Rattle.play_model.specs.Playable.{IsPlayable};
ghost use Rattle.usage.specs.Parts.{AreUsedParts};
ghost use Rattle.command_line.specs.Last.{last_of, last_word, Says};
ghost use Rattle.command_line.specs.Lines.{line};
ghost use Rattle.jobs.specs.Lines.{song_fault_line, table_word, unplayable_line, no_subtune_line, wrote_line};
ghost use Rattle.jobs.specs.Stages.{SpellsSong, CanBePlayed, HasPlayableSubtune, HoldsSong, input_limit};
ghost use Rattle.jobs.specs.Stands.{folder_state};
ghost use Rattle.jobs.specs.Endings.{Refuses, WasRead, ReadFails, SongWasRead, SpellingWasRead, SongFails, WriteEnds};

use command_line::{Piece, Refusal, Report, Status};
use goat_io::{Folder, ReadFault, WriteFault};
use gts5::SongFault;
use play_model::Unplayable;
use song_model::{Song, TableName};
use std::alloc::Global;
use usage::{UsedParts, usage};

/// The most bytes of a song or a PSID file.
pub const INPUT_LIMIT: u32 = 262_144;

/// The bytes of a file.
///
/// # Errors
///
/// No file has the name, it has more than `limit` bytes, the device failed, or out of memory.
pub fn read_file<'a, F: Folder>(
    alloc: Global,
    name: &'a str,
    limit: u32,
    folder: &mut F,
) -> Result<Vec<u8>, Refusal<'a>>
    ensures read { IfOk result (λ bytes. WasRead name.now limit
        (folder_state (F.files folder.old) (F.counts folder.old))
        (folder_state (F.files folder.new) (F.counts folder.new)) bytes.items) }
    ensures refused { IfErr result (λ refusal. ReadFails name.now limit
        (folder_state (F.files folder.old) (F.counts folder.old))
        (folder_state (F.files folder.new) (F.counts folder.new)) (last_of refusal)) }
{
    match folder.read(alloc, name, limit) {
        Ok(bytes) => Ok(bytes),
        Err(ReadFault::Missing) => Err(Refusal::says(
            Status::Missing,
            &[Piece::Words("missing: "), Piece::Name(name)],
        )),
        Err(ReadFault::TooLong) => Err(Refusal::says(
            Status::TooLong,
            &[Piece::Words("too long: "), Piece::Name(name)],
        )),
        Err(ReadFault::Failed) => Err(Refusal::says(
            Status::ReadFault,
            &[Piece::Words("read fault: "), Piece::Name(name)],
        )),
        Err(ReadFault::NoMemory) => Err(Refusal::NoMemory),
    }
}

/// Writes a file, and reports how many bytes it has.
///
/// # Errors
///
/// The device failed, and the file is as before or holds a prefix of the bytes; or out of memory.
pub fn write_file<'a, F: Folder>(
    name: &'a str,
    bytes: &[u8],
    folder: &mut F,
) -> Result<Report<'a>, Refusal<'a>>
    ensures { WriteEnds name.now bytes.now (wrote_line (length bytes.now))
        (folder_state (F.files folder.old) (F.counts folder.old))
        (folder_state (F.files folder.new) (F.counts folder.new)) (last_word result) }
{
    let told = Report::says(&[
        Piece::Words("wrote "),
        Piece::Number(bytes.len() as u64),
        Piece::Words(" bytes"),
    ]);
    write_and_tell(name, bytes, told, folder)
}

/// Writes a file, and reports what is told of it.
///
/// # Errors
///
/// The device failed, and the file is as before or holds a prefix of the bytes; or out of memory.
pub fn write_and_tell<'a, F: Folder>(
    name: &'a str,
    bytes: &[u8],
    told: Report<'a>,
    folder: &mut F,
) -> Result<Report<'a>, Refusal<'a>>
    ensures { (line : List ℕ) → last_word (Ok told.entry) ≡ Says 0 line → WriteEnds name.now bytes.now line
        (folder_state (F.files folder.old) (F.counts folder.old))
        (folder_state (F.files folder.new) (F.counts folder.new)) (last_word result) }
{
    match folder.write(name, bytes) {
        Ok(()) => Ok(told),
        Err(WriteFault::Failed) => Err(Refusal::says(
            Status::WriteFault,
            &[Piece::Words("write fault: "), Piece::Name(name)],
        )),
        Err(WriteFault::NoMemory) => Err(Refusal::NoMemory),
    }
}

/// The song in a file.
///
/// # Errors
///
/// The file isn't read, its bytes break the format of songs, or out of memory.
pub fn read_song<'a, F: Folder>(
    alloc: Global,
    name: &'a str,
    folder: &mut F,
) -> Result<Song, Refusal<'a>>
    ensures read { IfOk result (SongWasRead name.now
        (folder_state (F.files folder.old) (F.counts folder.old))
        (folder_state (F.files folder.new) (F.counts folder.new))) }
    ensures refused { IfErr result (λ refusal. SongFails name.now
        (folder_state (F.files folder.old) (F.counts folder.old))
        (folder_state (F.files folder.new) (F.counts folder.new)) (last_of refusal)) }
{
    let (song, _bytes) = read_song_and_bytes(alloc, name, folder)?;
    Ok(song)
}

/// The song in a file, and the file's bytes.
///
/// # Errors
///
/// The file isn't read, its bytes break the format of songs, or out of memory.
pub fn read_song_and_bytes<'a, F: Folder>(
    alloc: Global,
    name: &'a str,
    folder: &mut F,
) -> Result<(Song, Vec<u8>), Refusal<'a>>
    ensures read { IfOk result (λ both. SpellingWasRead name.now
        (folder_state (F.files folder.old) (F.counts folder.old))
        (folder_state (F.files folder.new) (F.counts folder.new)) both.0 both.1.items) }
    ensures refused { IfErr result (λ refusal. SongFails name.now
        (folder_state (F.files folder.old) (F.counts folder.old))
        (folder_state (F.files folder.new) (F.counts folder.new)) (last_of refusal)) }
{
    let bytes = read_file(alloc, name, INPUT_LIMIT, folder)?;
    let song = song_of(alloc, &bytes)?;
    Ok((song, bytes))
}

/// The song that the bytes of a file spell.
///
/// # Errors
///
/// The bytes break the format of songs, or out of memory.
pub fn song_of(alloc: Global, bytes: &[u8]) -> Result<Song, Refusal<'static>>
    requires { length bytes.now ≤ input_limit }
    ensures spells { IfOk result (Spells bytes.now) }
    ensures refused { IfErr result (λ refusal. (files : Files) (name : List ℕ) →
        file_of files name ≡ Some bytes.now → Refuses files (SpellsSong name) (last_of refusal)) }
{
    match gts5::read(alloc, bytes) {
        Ok(song) => Ok(song),
        Err(SongFault::NoMemory) => Err(Refusal::NoMemory),
        Err(fault) => Err(song_refusal(fault)),
    }
}

/// The refusal of a file that spells no song.
fn song_refusal(fault: SongFault) -> Refusal<'static>
    requires { fault ≢ SongFault.NoMemory }
    ensures { last_of result ≡ Says 5 (song_fault_line fault) }
{
    match fault {
        SongFault::NotGts5 => Refusal::says(
            Status::NotASong,
            &[Piece::Words("not a song: bad magic")],
        ),
        SongFault::Truncated { offset } => song_fault_at("not a song: truncated at ", offset),
        SongFault::OutOfLimit { offset } => song_fault_at("not a song: over limit at ", offset),
        SongFault::BadOrder { offset } => song_fault_at("not a song: bad order at ", offset),
        SongFault::BadRow { offset } => song_fault_at("not a song: bad row at ", offset),
        SongFault::NoMemory => unreachable!(),
    }
}

/// The refusal of a file that is no song because of what stands at an offset.
fn song_fault_at(words: &'static str, offset: u32) -> Refusal<'static>
    requires { length words.now ≤ 75 }
    ensures { last_of result ≡ Says 5 (line (words.now ∷ decimal offset ∷ [])) }
{
    Refusal::says(
        Status::NotASong,
        &[Piece::Words(words), Piece::Number(u64::from(offset))],
    )
}

/// What the song uses.
///
/// # Errors
///
/// It can't be played.
pub fn parts_of(song: &Song) -> Result<UsedParts, Refusal<'static>>
    ensures parts { IfOk result (AreUsedParts song.now) }
    ensures playable { OnOk result (IsPlayable song.now) }
    ensures refused { IfErr result (λ refusal. (files : Files) (name : List ℕ) →
        HoldsSong files name song.now → Refuses files (CanBePlayed name) (last_of refusal)) }
{
    match usage(song) {
        Ok(parts) => Ok(parts),
        Err(refusal) => Err(unplayable_refusal(refusal)),
    }
}

/// The refusal of a song that can't be played.
fn unplayable_refusal(refusal: Unplayable) -> Refusal<'static>
    ensures { last_of result ≡ Says 6 (unplayable_line refusal) }
{
    match refusal {
        Unplayable::NoSubtune => Refusal::says(
            Status::Unplayable,
            &[Piece::Words("unplayable: no subtune")],
        ),
        Unplayable::MissingPattern {
            subtune,
            channel,
            place,
            pattern,
        } => missing_pattern(subtune, channel, place, pattern),
        Unplayable::BadRestart { subtune, channel } => Refusal::says(
            Status::Unplayable,
            &[
                Piece::Words("unplayable: bad restart in subtune "),
                Piece::Number(u64::from(subtune)),
                Piece::Words(" channel "),
                Piece::Number(u64::from(channel)),
            ],
        ),
        Unplayable::TableOverflow { table, row } => {
            unplayable_row(table, " table ends before row ", row)
        }
        Unplayable::PointerToJump { table, row } => {
            unplayable_row(table, " pointer to jump row ", u16::from(row))
        }
    }
}

/// The refusal of a song with an orderlist that names a pattern that isn't stored.
fn missing_pattern(subtune: u8, channel: u8, place: u8, pattern: u8) -> Refusal<'static>
    ensures { last_of result ≡
        Says 6 (unplayable_line (Unplayable.MissingPattern subtune channel place pattern)) }
{
    Refusal::says(
        Status::Unplayable,
        &[
            Piece::Words("unplayable: missing pattern "),
            Piece::Number(u64::from(pattern)),
            Piece::Words(" in subtune "),
            Piece::Number(u64::from(subtune)),
            Piece::Words(" channel "),
            Piece::Number(u64::from(channel)),
            Piece::Words(" place "),
            Piece::Number(u64::from(place)),
        ],
    )
}

/// The refusal of a song that can't be played because of a row of a table.
fn unplayable_row(table: TableName, words: &'static str, row: u16) -> Refusal<'static>
    requires { length words.now ≤ 24 }
    ensures { last_of result ≡ Says 6 (line (codes "unplayable: " ∷ table_word table ∷ words.now ∷
        decimal row ∷ [])) }
{
    Refusal::says(
        Status::Unplayable,
        &[
            Piece::Words("unplayable: "),
            Piece::Words(table_word(table)),
            Piece::Words(words),
            Piece::Number(u64::from(row)),
        ],
    )
}

/// The name of a table.
fn table_word(table: TableName) -> &'static str
    ensures word { result.now ≡ table_word table }
    ensures short { length result.now ≤ 6 }
{
    match table {
        TableName::Wave => "wave",
        TableName::Pulse => "pulse",
        TableName::Filter => "filter",
        TableName::Speed => "speed",
    }
}

/// The number from 0 of a playable subtune that is counted from 1.
///
/// # Errors
///
/// The song doesn't have the subtune.
pub fn playable_subtune_of(song: &Song, subtune: u8) -> Result<u8, Refusal<'static>>
    ensures has { OnOk result (IsNumbered (playable_subtunes song.now) subtune) }
    ensures number { IfOk result (λ number. number ≡ subtune - 1) }
    ensures refused { IfErr result (λ refusal. (files : Files) (name : List ℕ) →
        HoldsSong files name song.now → Refuses files (HasPlayableSubtune name subtune)
        (last_of refusal)) }
{
    let count = song.playable_count();
    if subtune == 0 || subtune > count {
        return Err(no_such_subtune(subtune, u16::from(count)));
    }
    Ok(subtune - 1)
}

/// The refusal of a subtune that isn't one of this number.
pub(crate) fn no_such_subtune(subtune: u8, count: u16) -> Refusal<'static>
    ensures { last_of result ≡ Says 11 (no_subtune_line subtune count) }
{
    Refusal::says(
        Status::NoSubtune,
        &[
            Piece::Words("no such subtune: "),
            Piece::Number(u64::from(subtune)),
            Piece::Words(" of "),
            Piece::Number(u64::from(count)),
        ],
    )
}
