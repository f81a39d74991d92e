//! What must stand in a file after a run.

use crate::desk::Desk;
use case_text::{Names, Wrong, bytes_of, first_word, has_sum, number_of};
use std::alloc::Global;

/// What a line says of a file.
#[derive(Clone, Copy)]
pub enum Fact {
    /// It holds these bytes.
    Wrote,
    /// It begins with them.
    Begins,
    /// It ends with them.
    Closes,
    /// It has them at an offset.
    Holds,
    /// It has so many bytes.
    Size,
    /// It has at most so many.
    Most,
    /// Its sum.
    Digest,
}

/// The bytes that a line spells, one at least.
pub fn some_bytes<N: Names>(alloc: Global, names: &N, text: &str) -> Result<Vec<u8>, Wrong> {
    let bytes = bytes_of(alloc, names, text)?;
    if bytes.is_empty() {
        return Err(Wrong::BadLine);
    }
    Ok(bytes)
}

/// Whether a line holds a file against itself.
fn names_itself(name: &str, rest: &str) -> bool {
    rest.split_whitespace()
        .any(|word| word.strip_prefix('@') == Some(name))
}

/// Whether the file holds these bytes.
fn is_file(alloc: Global, desk: &Desk, file: &[u8], rest: &str) -> Result<bool, Wrong> {
    let bytes = bytes_of(alloc, desk, rest)?;
    Ok(file == bytes.as_slice())
}

/// Whether the file begins with these bytes.
fn begins(alloc: Global, desk: &Desk, file: &[u8], rest: &str) -> Result<bool, Wrong> {
    let bytes = some_bytes(alloc, desk, rest)?;
    Ok(file.starts_with(&bytes))
}

/// Whether the file ends with these bytes.
fn closes(alloc: Global, desk: &Desk, file: &[u8], rest: &str) -> Result<bool, Wrong> {
    let bytes = some_bytes(alloc, desk, rest)?;
    Ok(file.ends_with(&bytes))
}

/// Whether the file has these bytes from an offset on.
fn has_at(alloc: Global, desk: &Desk, file: &[u8], rest: &str) -> Result<bool, Wrong> {
    let (offset, rest) = first_word(rest);
    let place = number_of(offset)? as usize;
    begins(alloc, desk, file.get(place..).unwrap_or(&[]), rest)
}

/// Whether the file has so many bytes, or at most so many.
fn has_size(file: &[u8], rest: &str, or_less: bool) -> Result<bool, Wrong> {
    let size = number_of(rest)? as usize;
    Ok(file.len() == size || or_less && file.len() < size)
}

/// Whether a file is as a line says.
fn is_so(alloc: Global, desk: &Desk, fact: Fact, file: &[u8], rest: &str) -> Result<bool, Wrong> {
    match fact {
        Fact::Wrote => is_file(alloc, desk, file, rest),
        Fact::Begins => begins(alloc, desk, file, rest),
        Fact::Closes => closes(alloc, desk, file, rest),
        Fact::Holds => has_at(alloc, desk, file, rest),
        Fact::Size => has_size(file, rest, false),
        Fact::Most => has_size(file, rest, true),
        Fact::Digest => has_sum(alloc, file, rest),
    }
}

/// Whether there is a file of this name, and it is as a line says.
///
/// # Errors
///
/// The line spells nothing, or holds the file against itself; or out of memory.
pub fn is_as_said(
    alloc: Global,
    desk: &Desk,
    fact: Fact,
    name: &str,
    rest: &str,
) -> Result<bool, Wrong> {
    if names_itself(name, rest) {
        return Err(Wrong::BadLine);
    }
    let found = desk.named(name);
    let is_as_said = is_so(alloc, desk, fact, found.unwrap_or(&[]), rest)?;
    Ok(found.is_some() && is_as_said)
}
