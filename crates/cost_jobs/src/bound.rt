//! `bound IN OUT SKIP SPEED`: numbers that say how many clock cycles a call of the packed song in IN takes at most are
//! written into OUT. `bound-check IN CERT SKIP SPEED`: such numbers in CERT are checked.

ghost use Rattle.std.specs.Prelude.{◌≡◌, ◌<◌, ◌≤◌, ◌+◌, ◌^◌, ◌++◌, IfOk, IfErr, Ok, codes, length};
ghost use Rattle.command_line.specs.Last.{last_of, last_word, Says};
ghost use Rattle.player_bound.specs.Programs.{program_blocks};
ghost use Rattle.bound_text.specs.Texts.{numbers_text};
ghost use Rattle.jobs.specs.Lines.{call_allowance, bound_line, certificate_line, fault_words};
ghost use Rattle.jobs.specs.Certificates.{IsAdmittedText};
ghost use Rattle.jobs.specs.Stands.{folder_state, SinkState};
ghost use Rattle.jobs.specs.Endings.{CertificateFails, JobEnds};
ghost use Rattle.command_line.specs.Words.{Bound, BoundCheck};

use bound_text::{TextFault, push_text};
use command_line::{Piece, Refusal, Report, Status};
use goat_io::Folder;
use jobs::{packed_song, parts_of, read_other, read_song, read_song_and_bytes, write_and_tell};
use packed_form::PackedSong;
use play_model::Options;
use player_bound::{CallBounds, CertFault, CertKind, Certificate};
use song_model::NoMemory;
use std::alloc::Global;

/// The most bytes of the numbers of a bound.
const CERTIFICATE_LIMIT: u32 = 1_048_576;

/// The clock cycles that are allowed for a call beside those of its blocks.
const CALL_ALLOWANCE: u128 = 24;

/// Writes the least numbers that bound the cycles of the packed song in a file into another, and tells the first of each
/// entrance.
///
/// # Errors
///
/// A stage ends the run, the folder fails, or out of memory.
pub fn write_bound<'a, F: Folder>(
    alloc: Global,
    input: &'a str,
    output: &'a str,
    options: Options,
    folder: &mut F,
) -> Result<Report<'a>, Refusal<'a>>
    ensures { (sink : SinkState) → JobEnds (Bound input.now output.now options) (last_word result)
        (folder_state (F.files folder.old) (F.counts folder.old))
        (folder_state (F.files folder.new) (F.counts folder.new)) sink sink }
{
    let how = &options;
    let song = read_song(alloc, input, folder)?;
    let parts = parts_of(&song)?;
    let packed = packed_song(alloc, &song, &parts, how)?;
    let certificate = player_bound::make(alloc, &packed, how)?;
    let text = certificate_text(alloc, &certificate)?;
    let told = bound_report(certificate.bounds());
    write_and_tell(output, &text, told, folder)
}

/// Checks the numbers in a file for the packed song in another, and tells the first of each entrance.
///
/// # Errors
///
/// A stage ends the run, the folder fails, or out of memory.
pub fn check_bound<'a, F: Folder>(
    alloc: Global,
    input: &'a str,
    certificate: &'a str,
    options: Options,
    folder: &mut F,
) -> Result<Report<'a>, Refusal<'a>>
    ensures { (sink : SinkState) → JobEnds (BoundCheck input.now certificate.now options)
        (last_word result)
        (folder_state (F.files folder.old) (F.counts folder.old))
        (folder_state (F.files folder.new) (F.counts folder.new)) sink sink }
{
    let how = &options;
    let (song, bytes) = read_song_and_bytes(alloc, input, folder)?;
    let parts = parts_of(&song)?;
    let text = read_other(alloc, input, bytes, certificate, CERTIFICATE_LIMIT, folder)?;
    let packed = packed_song(alloc, &song, &parts, how)?;
    let bounds = admitted(alloc, &packed, how, &text)?;
    Ok(bound_report(bounds))
}

/// The numbers as text, those of init in front.
///
/// # Errors
///
/// Out of memory.
fn certificate_text(alloc: Global, certificate: &Certificate) -> Result<Vec<u8>, NoMemory>
    ensures { IfOk result (λ text. text.items ≡ numbers_text (certificate.now.init ++ certificate.now.play)) }
{
    let mut text = Vec::new(alloc);
    push_text(&mut text, certificate.init.as_slice())?;
    push_text(&mut text, certificate.play.as_slice())?;
    Ok(text)
}

/// The most cycles of a call with this first number.
fn allowed(number: u64) -> u128
    ensures cycles { result ≡ number + call_allowance }
    ensures few { result < 10 ^ 20 }
{
    u128::from(number) + CALL_ALLOWANCE
}

/// What is told of the first numbers of both entrances.
#[tactic(auto, using(crate::proofs::Room::pieces_fit))]
fn bound_report(bounds: CallBounds) -> Report<'static>
    ensures { last_word (Ok result) ≡ Says 0 (bound_line bounds.init bounds.play) }
{
    Report::says(&[
        Piece::Words("init "),
        Piece::Wide(allowed(bounds.init)),
        Piece::Words(" play "),
        Piece::Wide(allowed(bounds.play)),
    ])
}

/// The first numbers of a text, where all are admitted for a packed song's program.
///
/// # Errors
///
/// The first line that isn't a number's; else the first fault of the numbers; or out of memory.
fn admitted(
    alloc: Global,
    packed: &PackedSong,
    options: &Options,
    text: &[u8],
) -> Result<CallBounds, Refusal<'static>>
    ensures admitted { IfOk result (IsAdmittedText (program_blocks packed.now options.now) text.now) }
    ensures refused { IfErr result (λ refusal.
        CertificateFails (program_blocks packed.now options.now) text.now (last_of refusal)) }
{
    let numbers = match bound_text::read(alloc, text) {
        Ok(numbers) => numbers,
        Err(TextFault::NoMemory) => return Err(Refusal::NoMemory),
        Err(TextFault::BadNumber { line }) => return Err(bad_number(line)),
    };
    match player_bound::check(alloc, packed, options, numbers.as_slice())? {
        Ok(bounds) => Ok(bounds),
        Err(fault) => Err(fault_refusal(fault)),
    }
}

/// The refusal of a text with a line, counted from 1, that isn't a number's.
#[tactic(auto, using(crate::proofs::Room::pieces_fit))]
fn bad_number(line: usize) -> Refusal<'static>
    ensures { last_of result ≡ Says 16 (certificate_line line (codes "bad number")) }
{
    Refusal::says(
        Status::NotAdmitted,
        &[
            Piece::Words("certificate line "),
            Piece::Number(line as u64),
            Piece::Words(": "),
            Piece::Words("bad number"),
        ],
    )
}

/// The refusal of numbers with a fault, whose places are counted from 0.
#[tactic(auto, using(crate::proofs::Room::pieces_fit))]
fn fault_refusal(fault: CertFault) -> Refusal<'static>
    ensures { last_of result ≡ Says 16 (certificate_line (fault.place + 1) (fault_words fault.kind)) }
{
    Refusal::says(
        Status::NotAdmitted,
        &[
            Piece::Words("certificate line "),
            Piece::Wide(line_number(fault.place)),
            Piece::Words(": "),
            Piece::Words(fault_words(fault.kind)),
        ],
    )
}

/// The number, counted from 1, of the line at a place.
fn line_number(place: usize) -> u128
    ensures number { result ≡ place + 1 }
    ensures few { result < 10 ^ 20 }
{
    place as u128 + 1
}

/// What is wrong with numbers.
fn fault_words(kind: CertKind) -> &'static str
    ensures words { result.now ≡ fault_words kind }
    ensures short { length result.now ≤ 9 }
{
    match kind {
        CertKind::BadShape => "bad shape",
        CertKind::TooSmall => "too small",
    }
}
