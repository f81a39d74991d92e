//! The notes that orderlists play.

ghost use Rattle.std.specs.Prelude.{◌≡◌, Any};
ghost use Rattle.number_range.specs.Sets.{IsSetOf};
ghost use Rattle.number_range.specs.Notes.{ArePatternNotes, NamesNote, TransposesBy, TransposeBy};
ghost use Rattle.number_range.specs.Notes.{IsOrderNote, IsSubtuneNote, IsPlayedWithin};

use crate::notes::{PatternNotes, pattern_notes};
use crate::sets::NumberSet;
use song_model::{Order, Song, Subtune};

/// The transpose that an entry sets, if it sets one, modulo 128.
fn entry_transpose(byte: u8) -> NumberSet
    ensures { IsSetOf (TransposesBy byte) result }
{
    if byte >= 0xe0 {
        NumberSet::only(byte.wrapping_add(0x10) % 128)
    } else {
        NumberSet::none()
    }
}

/// The transposes that entries set, and none, modulo 128.
fn transposes(entries: &[u8]) -> NumberSet
    ensures { IsSetOf (TransposeBy entries.now) result }
{
    let mut set = NumberSet::none();
    for byte in entries {
        set = set.union(entry_transpose(*byte));
    }
    NumberSet::only(0).union(set)
}

/// The notes of the pattern that an entry names, if it names one.
fn entry_notes(song: &Song, byte: u8, notes: &PatternNotes) -> NumberSet
    requires { ArePatternNotes song.now notes.now }
    ensures { IsSetOf (NamesNote song.now byte) result }
{
    // Named in the contract alone.
    let _song = song;
    if byte < 0xd0 {
        notes[usize::from(byte)]
    } else {
        NumberSet::none()
    }
}

/// The notes of the patterns that entries name.
fn named_notes(song: &Song, entries: &[u8], notes: &PatternNotes) -> NumberSet
    requires { ArePatternNotes song.now notes.now }
    ensures { IsSetOf (λ n. Any (λ byte. NamesNote song.now byte n) entries.now) result }
{
    let mut named = NumberSet::none();
    for byte in entries {
        named = named.union(entry_notes(song, *byte, notes));
    }
    named
}

/// The notes that an orderlist plays: those of its patterns by each of its transposes.
fn order_notes(song: &Song, order: &Order, notes: &PatternNotes) -> NumberSet
    requires { ArePatternNotes song.now notes.now }
    ensures { IsSetOf (IsOrderNote song.now order.now) result }
{
    let entries = order.entries.as_slice();
    named_notes(song, entries, notes).plus(transposes(entries))
}

/// The notes that a subtune's orderlists play, if it is playable.
fn subtune_notes(song: &Song, subtune: &Subtune, notes: &PatternNotes) -> NumberSet
    requires { ArePatternNotes song.now notes.now }
    ensures { IsSetOf (IsSubtuneNote song.now subtune.now) result }
{
    if !subtune.is_playable() {
        return NumberSet::none();
    }
    let one = order_notes(song, &subtune.one, notes);
    let two = order_notes(song, &subtune.two, notes);
    let three = order_notes(song, &subtune.three, notes);
    one.union(two).union(three)
}

/// The notes that the song plays.
pub(crate) fn played_notes(song: &Song) -> NumberSet
    ensures { IsSetOf (IsPlayedWithin song.now) result }
{
    let notes = pattern_notes(song);
    let subtunes = song.subtunes.as_slice();
    let mut played = NumberSet::none();
    for subtune in subtunes {
        played = played.union(subtune_notes(song, subtune, &notes));
    }
    played
}
