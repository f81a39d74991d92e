//! `asm IN OUT`: the listing in IN is assembled, and its bytes are written into OUT, behind their address.

ghost use Rattle.std.specs.Prelude.{◌≡◌, ◌≢◌, ◌≤◌, ℕ, List, Some, IfOk, IfErr, length};
ghost use Rattle.goat_io.specs.Files.{Files, file_of};
ghost use Rattle.asm_text.specs.Faults.{Reads};
ghost use Rattle.command_line.specs.Last.{last_of, last_word, Says, Wants};
ghost use Rattle.jobs.specs.Lines.{listing_line, listing_words};
ghost use Rattle.jobs.specs.Stages.{CanBeAssembled, listing_limit};
ghost use Rattle.jobs.specs.Stands.{folder_state, SinkState};
ghost use Rattle.jobs.specs.Endings.{Refuses, JobEnds};
ghost use Rattle.command_line.specs.Words.{Asm};

use asm_text::{TextFault, TextKind};
use asm6502::Assembled;
use command_line::{Piece, Refusal, Report, Status};
use goat_io::Folder;
use jobs::{raw_file, read_file, write_file};
use std::alloc::Global;

/// The most bytes of a listing.
const LISTING_LIMIT: u32 = 1_048_576;

/// Assembles the listing in a file, and writes its bytes into another file, behind their address.
///
/// # Errors
///
/// A stage ends the run, the folder fails, or out of memory.
pub fn assemble_listing<'a, F: Folder>(
    alloc: Global,
    input: &'a str,
    output: &'a str,
    folder: &mut F,
) -> Result<Report<'a>, Refusal<'a>>
    ensures { (sink : SinkState) → JobEnds (Asm input.now output.now) (last_word result)
        (folder_state (F.files folder.old) (F.counts folder.old))
        (folder_state (F.files folder.new) (F.counts folder.new)) sink sink }
{
    let text = read_file(alloc, input, LISTING_LIMIT, folder)?;
    let assembled = assembled_of(alloc, &text)?;
    let file = raw_file(alloc, assembled.origin, assembled.bytes.as_slice())?;
    write_file(output, &file, folder)
}

/// The bytes that the lines of a listing name.
///
/// # Errors
///
/// Something is wrong with the listing, or out of memory.
fn assembled_of(alloc: Global, text: &[u8]) -> Result<Assembled, Refusal<'static>>
    requires { length text.now ≤ listing_limit }
    ensures reads { IfOk result (Reads text.now) }
    ensures refused { IfErr result (λ refusal. (files : Files) (name : List ℕ) →
        file_of files name ≡ Some text.now → Refuses files (CanBeAssembled name)
        (last_of refusal)) }
{
    match asm_text::read(alloc, text) {
        Ok(assembled) => Ok(assembled),
        Err(fault) => Err(listing_refusal(fault)),
    }
}

/// The refusal of a listing with which something is wrong.
#[tactic(auto, using(crate::proofs::Room::pieces_fit))]
fn listing_refusal(fault: TextFault) -> Refusal<'static>
    ensures wants { fault.kind ≡ TextKind.NoMemory → last_of result ≡ Wants }
    ensures says { fault.kind ≢ TextKind.NoMemory →
        last_of result ≡ Says 17 (listing_line fault) }
{
    if fault.kind == TextKind::NoMemory {
        return Refusal::NoMemory;
    }
    Refusal::says(
        Status::BadListing,
        &[
            Piece::Words("asm line "),
            Piece::Number(u64::from(fault.line)),
            Piece::Words(": "),
            Piece::Words(listing_words(fault.kind)),
        ],
    )
}

/// What is wrong with a line of a listing.
fn listing_words(kind: TextKind) -> &'static str
    ensures words { result.now ≡ listing_words kind }
    ensures short { length result.now ≤ 14 }
{
    match kind {
        TextKind::BadLine => "bad line",
        TextKind::DoubleLabel => "double label",
        TextKind::UnknownLabel => "unknown label",
        TextKind::PastEnd => "past end",
        TextKind::BranchTooFar => "branch too far",
        TextKind::NoMemory => "no memory",
    }
}
