//! A line: its first word, its other words, what a word stands for, and numbers.

use crate::Wrong;
use std::alloc::Global;

/// The first word of a line, and the rest behind one space.
pub fn first_word(line: &str) -> (&str, &str) {
    line.split_once(' ').unwrap_or((line, ""))
}

/// What stands in a table for a word, if anything does.
pub fn look_up<T: Copy>(table: &[(&[u8], T)], word: &[u8]) -> Option<T> {
    for entry in table {
        if entry.0 == word {
            return Some(entry.1);
        }
    }
    None
}

/// The words of a text. A word in quotation marks may hold spaces, or nothing.
///
/// # Errors
///
/// A quotation mark is left open; or out of memory.
pub fn words_of(alloc: Global, text: &str) -> Result<Vec<String>, Wrong> {
    let mut words = Vec::new(alloc);
    let mut is_quoted = false;
    for part in text.split('"') {
        if is_quoted {
            words.push(part.to_string(alloc)?)?;
        } else {
            add_words(alloc, &mut words, part)?;
        }
        is_quoted = !is_quoted;
    }
    // What stands behind the last mark isn't quoted.
    if !is_quoted {
        return Err(Wrong::BadLine);
    }
    Ok(words)
}

/// Adds the words between the spaces of a text.
fn add_words(alloc: Global, words: &mut Vec<String>, text: &str) -> Result<(), Wrong> {
    for word in text.split_whitespace() {
        words.push(word.to_string(alloc)?)?;
    }
    Ok(())
}

/// A number in decimal digits.
///
/// # Errors
///
/// The text is no such number, or the number is above 4,294,967,295.
pub fn number_of(text: &str) -> Result<u32, Wrong> {
    let is_digits = text.bytes().all(|byte| byte.is_ascii_digit());
    match text.parse::<u32>() {
        Ok(number) if is_digits => Ok(number),
        _ => Err(Wrong::BadLine),
    }
}
