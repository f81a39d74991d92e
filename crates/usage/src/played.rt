//! The bytes of orderlists that are played.

ghost use Rattle.std.specs.Prelude.{Contains};
ghost use Rattle.play_model.specs.Used.{IsPlayedByte};
ghost use Rattle.usage.specs.Marks.{AreMarks};
ghost use Rattle.usage.specs.Building.{Adds};
ghost use Rattle.usage.specs.Played.{PlaysByte};

use crate::marks::{ByteMarks, mark};
use song_model::{Song, Subtune};

/// Marks each byte of an orderlist.
fn mark_entries(entries: &[u8], bytes: &mut ByteMarks)
    ensures { Adds (Contains entries.now) bytes.old bytes.new }
{
    for byte in entries {
        mark(bytes, usize::from(*byte));
    }
}

/// Marks each byte of the orderlists of a subtune that can be played.
fn mark_subtune(subtune: &Subtune, bytes: &mut ByteMarks)
    ensures { Adds (PlaysByte subtune.now) bytes.old bytes.new }
{
    if subtune.is_playable() {
        mark_entries(subtune.one.entries.as_slice(), bytes);
        mark_entries(subtune.two.entries.as_slice(), bytes);
        mark_entries(subtune.three.entries.as_slice(), bytes);
    }
}

/// A mark for each byte of the orderlists of playable subtunes.
pub(crate) fn played_bytes(song: &Song) -> ByteMarks
    ensures { AreMarks (IsPlayedByte song.now) result }
{
    let stored = song.subtunes.as_slice();
    let mut bytes = [false; 256];
    for subtune in stored {
        mark_subtune(subtune, &mut bytes);
    }
    bytes
}
