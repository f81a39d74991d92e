//! From a song to its script.

ghost use Rattle.std.specs.Prelude.{◌≡◌, ◌⊎◌, ◌≤◌, ◌<◌, length, IfOk, IfErr};
ghost use Rattle.song_script.specs.Shown.{script_of};

use crate::instruments::put_instruments;
use crate::making::put_parts_made;
use crate::orders::put_subtunes;
use crate::patterns::put_patterns;
use crate::tables::put_tables;
use crate::texts::put_texts;
use base::{ByteList, NoMemory};
use edit_script::MOST_BYTES;
use song_model::Song;
use std::alloc::Global;

/// Why a song isn't shown.
#[derive(Clone, Copy, Debug, PartialEq, Eq)]
pub enum ShowFault {
    /// Its script would have more bytes than a script may have, and so many.
    TooLarge { length: usize },
    /// Out of memory.
    NoMemory,
}

/// The script that makes this song of the empty one.
///
/// # Errors
///
/// `TooLarge` where it has more than 1,048,576 bytes; out of memory.
pub fn show(alloc: Global, song: &Song) -> Result<ByteList, ShowFault>
    ensures shown { IfOk result (λ text. text ≡ script_of song.now) }
    ensures short { IfOk result (λ text. length text ≤ MOST_BYTES) }
    ensures too_large { IfErr result (λ fault. (fault ≡ ShowFault.NoMemory) ⊎
        ((fault ≡ ShowFault.TooLarge (length (script_of song.now)))
        × (MOST_BYTES < length (script_of song.now)))) }
{
    let Ok(text) = text_of(alloc, song) else {
        return Err(ShowFault::NoMemory);
    };
    if text.len() > MOST_BYTES {
        return Err(ShowFault::TooLarge { length: text.len() });
    }
    Ok(text)
}

/// All lines of a song's script.
///
/// # Errors
///
/// Out of memory.
#[tactic(auto, unfolding(crate::specs::Shown::statements_of))]
fn text_of(alloc: Global, song: &Song) -> Result<ByteList, NoMemory>
    ensures { IfOk result (λ text. text ≡ script_of song.now) }
{
    let mut out = ByteList::new(alloc);
    out.extend(b"# A song, as the edits that make it of the empty one.\n")?;
    put_parts_made(&mut out, song)?;
    put_texts(&mut out, song)?;
    put_subtunes(&mut out, &song.subtunes)?;
    put_instruments(&mut out, &song.instruments)?;
    put_tables(&mut out, song)?;
    put_patterns(&mut out, &song.patterns)?;
    Ok(out)
}
