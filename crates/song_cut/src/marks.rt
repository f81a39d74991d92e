//! Which patterns a song names, and which ones its orderlists repeat.

ghost use Rattle.std.specs.Prelude.{◌≡◌, drop, nat_eq};
ghost use Rattle.std.specs.List.{list_any};
ghost use Rattle.song_model.specs.Walk.{repeat_after, end_repeat};
ghost use Rattle.pattern_cut.specs.Pieces.{repeated_in, repeated_of};
ghost use Rattle.song_cut.specs.Marks.{Adds, AreMarksOf, bytes_in, orders_if_played};

use song_model::{Order, Song, Subtune};

/// The first byte of an orderlist that is no pattern's number.
pub(crate) const FIRST_REPEAT: u8 = 0xd0;

/// The first byte of an orderlist that is a transpose.
const FIRST_TRANSPOSE: u8 = 0xe0;

/// A mark for each byte of an orderlist.
pub(crate) type ByteMarks = [bool; 256];

/// Marks of a song's patterns, by their numbers.
#[derive(Drop)]
pub(crate) struct PatternMarks {
    /// Those that the orderlists of playable subtunes name.
    pub named: ByteMarks,
    /// Those that they repeat.
    pub repeated: ByteMarks,
}

/// Marks the bytes of an orderlist.
fn mark_all(marks: &mut ByteMarks, entries: &[u8])
    ensures { Adds (λ n. list_any (nat_eq n) entries.now) marks.old marks.new }
{
    for byte in entries {
        marks[usize::from(*byte)] = true;
    }
}

/// Marks the patterns that stand behind a repeat in a walk along these bytes, begun with this repeat, and answers the
/// repeat at its end.
fn mark_repeated(marks: &mut ByteMarks, entries: &[u8], from: u8) -> u8
    ensures marks { Adds (λ n. list_any (nat_eq n) (repeated_in entries.now from)) marks.old marks.new }
    ensures repeat { result ≡ end_repeat entries.now from }
{
    let mut left = entries;
    let mut repeat = from;
    'bytes: while let Some((byte, others)) = left.split_first() {
        if *byte < FIRST_REPEAT && repeat > 0 {
            marks[usize::from(*byte)] = true;
        }
        repeat = repeat_after(*byte, repeat);
        left = others;
    }
    repeat
}

/// The repeat after a byte.
fn repeat_after(byte: u8, repeat: u8) -> u8
    ensures { result ≡ repeat_after byte repeat }
{
    if byte < FIRST_REPEAT {
        0
    } else if byte < FIRST_TRANSPOSE {
        byte - FIRST_REPEAT
    } else {
        repeat
    }
}

/// The bytes of an orderlist from its restart position on.
fn from_restart(order: &Order) -> &[u8]
    ensures { result.now ≡ drop order.now.restart order.now.entries }
{
    let entries = order.entries.as_slice();
    let first = usize::from(order.restart).min(entries.len());
    &entries[first..]
}

impl PatternMarks {
    /// Marks the patterns of an orderlist.
    fn mark_order(&mut self, order: &Order)
        ensures named { Adds (λ n. list_any (nat_eq n) order.now.entries) self.old.named
            self.new.named }
        ensures repeated { Adds (λ n. list_any (nat_eq n) (repeated_of order.now)) self.old.repeated
            self.new.repeated }
    {
        let entries = order.entries.as_slice();
        mark_all(&mut self.named, entries);
        let repeat = mark_repeated(&mut self.repeated, entries, 0);
        mark_repeated(&mut self.repeated, from_restart(order), repeat);
    }

    /// Marks the patterns of the orderlists of a subtune that can be played.
    fn mark_subtune(&mut self, subtune: &Subtune)
        ensures named { Adds (bytes_in (λ order. order.entries) (orders_if_played subtune.now))
            self.old.named self.new.named }
        ensures repeated { Adds (bytes_in repeated_of (orders_if_played subtune.now))
            self.old.repeated self.new.repeated }
    {
        if subtune.is_playable() {
            self.mark_order(&subtune.one);
            self.mark_order(&subtune.two);
            self.mark_order(&subtune.three);
        }
    }
}

/// Marks of the patterns of a song.
pub(crate) fn pattern_marks(song: &Song) -> PatternMarks
    ensures { AreMarksOf song.now result }
{
    let stored = song.subtunes.as_slice();
    let mut marks = PatternMarks {
        named: [false; 256],
        repeated: [false; 256],
    };
    for subtune in stored {
        marks.mark_subtune(subtune);
    }
    marks
}
