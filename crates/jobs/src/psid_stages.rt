//! The stages of a run that ask for a PSID file.

ghost use Rattle.std.specs.Prelude.{◌≡◌, ◌≢◌, ◌+◌, ◌-◌, ◌≤◌, ℕ, List, Some, IfOk, IfErr};
ghost use Rattle.std.specs.Prelude.{OnOk, Ok, length};
ghost use Rattle.goat_io.specs.Files.{Files, file_of};
ghost use Rattle.psid.specs.declared.reading.TheConstants.{ADDRESSES};
ghost use Rattle.psid.specs.Reading.{psid_read};
ghost use Rattle.command_line.specs.Last.{last_of, Says};
ghost use Rattle.jobs.specs.Calls.{HasSubtune};
ghost use Rattle.jobs.specs.Lines.{psid_fault_line};
ghost use Rattle.jobs.specs.Stages.{IsPsid, OffersSubtune, HoldsPsid};
ghost use Rattle.jobs.specs.Stands.{folder_state};
ghost use Rattle.jobs.specs.Endings.{PsidFails, PsidWasRead, Refuses};

use crate::stages::{INPUT_LIMIT, no_such_subtune, read_file};
use command_line::{Piece, Refusal, Status};
use goat_io::Folder;
use psid::{Psid, PsidFault};
use std::alloc::Global;

/// The PSID file in a file.
///
/// # Errors
///
/// The file isn't read, its bytes break the format of PSID files, or out of memory.
pub fn read_psid<'a, F: Folder>(
    alloc: Global,
    name: &'a str,
    folder: &mut F,
) -> Result<Psid, Refusal<'a>>
    ensures read { IfOk result (PsidWasRead name.now
        (folder_state (F.files folder.old) (F.counts folder.old))
        (folder_state (F.files folder.new) (F.counts folder.new))) }
    ensures fits { IfOk result (λ psid. psid.load + length psid.image ≤ ADDRESSES) }
    ensures refused { IfErr result (λ refusal. PsidFails name.now
        (folder_state (F.files folder.old) (F.counts folder.old))
        (folder_state (F.files folder.new) (F.counts folder.new)) (last_of refusal)) }
{
    let bytes = read_file(alloc, name, INPUT_LIMIT, folder)?;
    psid_of(alloc, &bytes)
}

/// The PSID file that the bytes of a file are.
///
/// # Errors
///
/// The bytes break the format of PSID files, or out of memory.
fn psid_of(alloc: Global, bytes: &[u8]) -> Result<Psid, Refusal<'static>>
    ensures reads { IfOk result (λ psid. psid_read bytes.now ≡ Ok psid) }
    ensures fits { IfOk result (λ psid. psid.load + length psid.image ≤ ADDRESSES) }
    ensures refused { IfErr result (λ refusal. (files : Files) (name : List ℕ) →
        file_of files name ≡ Some bytes.now → Refuses files (IsPsid name) (last_of refusal)) }
{
    match psid::read(alloc, bytes) {
        Ok(psid) => Ok(psid),
        Err(PsidFault::NoMemory) => Err(Refusal::NoMemory),
        Err(fault) => Err(psid_refusal(fault)),
    }
}

/// The refusal of a file that is no PSID file.
fn psid_refusal(fault: PsidFault) -> Refusal<'static>
    requires { fault ≢ PsidFault.NoMemory }
    ensures { last_of result ≡ Says 12 (psid_fault_line fault) }
{
    let words = match fault {
        PsidFault::NotPsid => "not a PSID: bad magic",
        PsidFault::Truncated => "not a PSID: truncated",
        PsidFault::Unsupported => "not a PSID: unsupported",
        PsidFault::BadField => "not a PSID: bad field",
        PsidFault::NoMemory => unreachable!(),
    };
    Refusal::says(Status::NotAPsid, &[Piece::Words(words)])
}

/// The number from 0 that init takes of a subtune that is counted from 1.
///
/// # Errors
///
/// The file doesn't have the subtune.
pub fn subtune_of(psid: &Psid, subtune: u8) -> Result<u8, Refusal<'static>>
    ensures has { OnOk result (HasSubtune psid.now subtune) }
    ensures number { IfOk result (λ number. number ≡ subtune - 1) }
    ensures refused { IfErr result (λ refusal. (files : Files) (name : List ℕ) →
        HoldsPsid files name psid.now → Refuses files (OffersSubtune name subtune)
        (last_of refusal)) }
{
    let songs = psid.header.songs;
    if subtune == 0 || u16::from(subtune) > songs {
        return Err(no_such_subtune(subtune, songs));
    }
    Ok(subtune - 1)
}
