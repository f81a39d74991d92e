//! A song's name, its author's and the copyright.

ghost use Rattle.std.specs.Prelude.{◌≡◌, ◌++◌, OnOk};
ghost use Rattle.song_script.specs.Statements.{text_of};
ghost use Rattle.song_script.specs.Parts.{text_said, texts_said};

use crate::lines::put_text_line;
use crate::words::{is_zero_text, put_readable_text};
use base::{ByteList, NoMemory};
use song_model::Song;

/// Adds a text under its title, if there is one.
///
/// # Errors
///
/// Out of memory.
fn put_text(out: &mut ByteList, which: u8, title: &[u8], text: &[u8; 32]) -> Result<(), NoMemory>
    ensures { OnOk result (out.new ≡ out.old ++ text_of (text_said which title.now text.now)) }
{
    if is_zero_text(text) {
        return Ok(());
    }
    out.extend(b"# ")?;
    out.extend(title)?;
    out.extend(b": ")?;
    put_readable_text(out, text)?;
    out.push(b'\n')?;
    put_text_line(out, b"text", which, text)
}

/// Adds the three texts.
///
/// # Errors
///
/// Out of memory.
pub(crate) fn put_texts(out: &mut ByteList, song: &Song) -> Result<(), NoMemory>
    ensures { OnOk result (out.new ≡ out.old ++ text_of (texts_said song.now)) }
{
    put_text(out, 0, b"name", &song.name)?;
    put_text(out, 1, b"author", &song.author)?;
    put_text(out, 2, b"copyright", &song.copyright)
}
