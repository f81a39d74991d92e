//! The lines of edits: a word, and its arguments.

ghost use Rattle.std.specs.Prelude.{◌≡◌, ◌∷◌, ◌++◌, [], OnOk};
ghost use Rattle.std.specs.List.{flat_map};
ghost use Rattle.edit_script.specs.Forms.{numbers, number, name};
ghost use Rattle.song_script.specs.Statements.{argument_text};

use crate::digits::{put_all_digits, put_digits};
use base::{ByteList, NoMemory};

/// Adds arguments of a byte each.
///
/// # Errors
///
/// Out of memory.
fn put_arguments(out: &mut ByteList, bytes: &[u8]) -> Result<(), NoMemory>
    ensures { OnOk result (out.new ≡ out.old ++ flat_map argument_text (numbers bytes.now)) }
{
    for byte in bytes {
        out.push(b' ')?;
        put_digits(out, *byte)?;
    }
    Ok(())
}

/// Adds the line of a word and arguments of a byte each.
///
/// # Errors
///
/// Out of memory.
pub(crate) fn put_line(out: &mut ByteList, word: &[u8], bytes: &[u8]) -> Result<(), NoMemory>
    ensures { OnOk result (out.new ≡
        out.old ++ (word.now ++ flat_map argument_text (numbers bytes.now) ++ 10 ∷ [])) }
{
    out.extend(word)?;
    put_arguments(out, bytes)?;
    out.push(b'\n')
}

/// Adds the line of a word, a byte, and an argument of several bytes.
///
/// # Errors
///
/// Out of memory.
pub(crate) fn put_text_line(
    out: &mut ByteList,
    word: &[u8],
    which: u8,
    text: &[u8],
) -> Result<(), NoMemory>
    ensures { OnOk result (out.new ≡
        out.old ++ (word.now ++ flat_map argument_text (number which ∷ name text.now ∷ []) ++ 10 ∷ [])) }
{
    out.extend(word)?;
    put_arguments(out, &[which])?;
    out.push(b' ')?;
    put_all_digits(out, text)?;
    out.push(b'\n')
}
