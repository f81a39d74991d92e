//! Patterns that are packed and unpacked.

use crate::answer::Answer;
use case_text::{Names, Wrong, bytes_of};
use packed_form::PackedFault;
use pattern_pack::{MOST_BYTES, pack_pattern, unpack_pattern};
use song_model::{LimitFault, Pattern, Row};
use std::alloc::Global;

/// The pattern whose rows are spelled with four bytes each.
fn pattern_of(alloc: Global, bytes: &[u8]) -> Result<Pattern, Wrong> {
    let mut rows = Vec::new(alloc);
    for four in bytes.chunks(4) {
        let [note, instrument, command, param] = *four else {
            return Err(Wrong::BadLine);
        };
        rows.push(Row {
            note,
            instrument,
            command,
            param,
        })?;
    }
    match Pattern::from_rows(alloc, &rows) {
        Ok(pattern) => Ok(pattern),
        Err(LimitFault::NoMemory) => Err(Wrong::NoMemory),
        Err(_) => Err(Wrong::BadLine),
    }
}

/// The text that a pattern packs to, or how long it would be.
pub fn pack<N: Names>(alloc: Global, names: &N, rest: &str) -> Result<Answer, Wrong> {
    let pattern = pattern_of(alloc, &bytes_of(alloc, names, rest)?)?;
    match pack_pattern(&pattern) {
        Ok(packed) => digits_of(alloc, packed.as_slice()),
        Err(long) => too_long(alloc, long.length),
    }
}

/// Bytes in digits, as a text.
fn digits_of(alloc: Global, bytes: &[u8]) -> Result<Answer, Wrong> {
    let digits = hex::encode(alloc, bytes)?;
    Answer::line(alloc, &digits)
}

/// How long a pattern would be that is too long.
fn too_long(alloc: Global, length: u16) -> Result<Answer, Wrong> {
    let text = format!(in alloc; "too long {length}")?;
    Answer::line(alloc, &text)
}

/// The rows that bytes unpack to, or their fault.
pub fn unpack<N: Names>(alloc: Global, names: &N, rest: &str) -> Result<Answer, Wrong> {
    let bytes = bytes_of(alloc, names, rest)?;
    if bytes.len() > MOST_BYTES {
        return Err(Wrong::BadLine);
    }
    match unpack_pattern(alloc, &bytes) {
        Ok(pattern) => digits_of(alloc, &bytes_of_rows(alloc, &pattern)?),
        Err(fault) => told(alloc, fault),
    }
}

/// Why bytes aren't unpacked, as it is told.
fn told(alloc: Global, fault: PackedFault) -> Result<Answer, Wrong> {
    match fault {
        PackedFault::NoMemory => Err(Wrong::NoMemory),
        PackedFault::BadByte { offset } => bad_byte(alloc, offset),
        PackedFault::NoEnd => Answer::line(alloc, "no end"),
        PackedFault::BadLength => Answer::line(alloc, "bad length"),
    }
}

/// Why bytes aren't unpacked of which one is bad.
fn bad_byte(alloc: Global, offset: u32) -> Result<Answer, Wrong> {
    let text = format!(in alloc; "bad byte at {offset}")?;
    Answer::line(alloc, &text)
}

/// The bytes of a pattern's rows, four each.
fn bytes_of_rows(alloc: Global, pattern: &Pattern) -> Result<Vec<u8>, Wrong> {
    let mut bytes = Vec::new(alloc);
    for row in pattern.as_slice() {
        let four = [row.note, row.instrument, row.command, row.param];
        bytes.extend_from_slice(&four)?;
    }
    Ok(bytes)
}
