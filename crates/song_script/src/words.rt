//! The words of comments.

ghost use Rattle.std.specs.Prelude.{◌≡◌, ◌==◌, ◌≤◌, ◌++◌, position, OnOk};
ghost use Rattle.song_script.specs.Words.{is_zero_text, readable, before_zero, readable_text, tone_words, note_words, row_words};

use crate::digits::{digit, put_digits};
use base::{ByteList, NoMemory};
use song_model::Row;

/// Whether a text has nothing but zeros.
pub(crate) fn is_zero_text(text: &[u8]) -> bool
    ensures { result ≡ is_zero_text text.now }
{
    text.iter().all(|byte| *byte == 0)
}

/// The least place of a zero in a text.
fn place_of_zero(text: &[u8]) -> Option<usize>
    ensures { result ≡ position (λ byte. byte == 0) text.now }
{
    text.iter().position(|byte| *byte == 0)
}

/// The bytes of a text before its first zero.
fn before_zero(text: &[u8]) -> &[u8]
    ensures { result.now ≡ before_zero text.now }
{
    match place_of_zero(text) {
        Some(end) => &text[..end],
        None => text,
    }
}

/// A byte that can be read aloud, or a question mark in its place.
fn readable(byte: u8) -> u8
    ensures { result ≡ readable byte }
{
    if byte >= 0x20 && byte <= 0x7e {
        byte
    } else {
        b'?'
    }
}

/// Adds what can be read of a text.
///
/// # Errors
///
/// Out of memory.
pub(crate) fn put_readable_text(out: &mut ByteList, text: &[u8]) -> Result<(), NoMemory>
    ensures { OnOk result (out.new ≡ out.old ++ readable_text text.now) }
{
    let bytes = before_zero(text);
    for byte in bytes {
        out.push(readable(*byte))?;
    }
    Ok(())
}

/// The half tone of a note and the digit of its octave.
fn tone_words(note: u8) -> [u8; 3]
    ensures { result ≡ tone_words note }
{
    let letters: &[u8] = b"C-C#D-D#E-F-F#G-G#A-A#B-";
    let tone = 2 * usize::from(note % 12);
    let octave = (note / 12).saturating_sub(8);
    [letters[tone], letters[tone + 1], b'0' + octave]
}

/// A note as musicians write it.
fn note_words(note: u8) -> [u8; 3]
    ensures { result ≡ note_words note }
{
    match note {
        0xbd => *b"...",
        0xbe => *b"---",
        0xbf => *b"+++",
        _ => tone_words(note),
    }
}

/// Adds a row of a pattern as musicians write it.
///
/// # Errors
///
/// Out of memory.
pub(crate) fn put_row_words(out: &mut ByteList, place: u8, row: Row) -> Result<(), NoMemory>
    requires { row.command ≤ 0x0F }
    ensures { OnOk result (out.new ≡ out.old ++ row_words place row) }
{
    put_digits(out, place)?;
    out.extend(b"  ")?;
    out.extend(&note_words(row.note))?;
    out.push(b' ')?;
    put_digits(out, row.instrument)?;
    out.extend(&[b' ', digit(row.command)])?;
    put_digits(out, row.param)
}
