//! The channels that have something to play.

ghost use Rattle.std.specs.Prelude.{◌≡◌, ◌<◌, ◌↔◌, IsTrue, Any};
ghost use Rattle.song_model.specs.LookUp.{order_of};
ghost use Rattle.song_facts.specs.Facts.{IsHeard, HasChannelRow};
ghost use Rattle.usage.specs.Marks.{AreMarks};
ghost use Rattle.usage.specs.Building.{Adds};
ghost use Rattle.usage.specs.Channels.{IsHeardPattern, NamesMarked, PlaysMarked};

use crate::marks::{ByteMarks, mark};
use song_facts::is_heard;
use song_model::{Order, Row, Song, Subtune};

/// Marks a pattern if it has a row to play.
fn mark_if_heard(number: usize, rows: &[Row], marks: &mut ByteMarks)
    requires { number < 256 }
    ensures { Adds (λ k. (k ≡ number) × Any IsHeard rows.now) marks.old marks.new }
{
    if rows.iter().any(|row| is_heard(*row)) {
        mark(marks, number);
    }
}

/// A mark for each pattern that has a row to play, by its number. Its work is linear in the song.
pub fn heard_patterns(song: &Song) -> [bool; 256]
    ensures { AreMarks (IsHeardPattern song.now) result }
{
    let patterns = song.patterns.as_slice();
    let mut marks = [false; 256];
    for (n, pattern) in patterns.iter().enumerate() {
        mark_if_heard(n, pattern.as_slice(), &mut marks);
    }
    marks
}

/// Whether an orderlist names a marked pattern.
fn names_marked(order: &Order, marks: &ByteMarks) -> bool
    ensures { IsTrue result ↔ Any (NamesMarked marks.now) order.now.entries }
{
    let entries = order.entries.as_slice();
    entries
        .iter()
        .any(|byte| *byte < 0xd0 && marks[usize::from(*byte)])
}

/// The orderlist of channel 1, 2 or 3.
fn channel_order(subtune: &Subtune, channel: u8) -> &Order
    ensures { result.now ≡ order_of channel subtune.now }
{
    match channel {
        1 => &subtune.one,
        2 => &subtune.two,
        _ => &subtune.three,
    }
}

/// Whether a subtune can be played and the orderlist of its channel names a marked pattern.
fn plays_marked(subtune: &Subtune, channel: u8, marks: &ByteMarks) -> bool
    ensures { IsTrue result ↔ PlaysMarked marks.now channel subtune.now }
{
    subtune.is_playable() && names_marked(channel_order(subtune, channel), marks)
}

/// Whether a channel has a row to play; `heard` has a mark for each pattern that has one.
pub(crate) fn has_channel_row(song: &Song, channel: u8, heard: &ByteMarks) -> bool
    requires { AreMarks (IsHeardPattern song.now) heard.now }
    ensures { IsTrue result ↔ HasChannelRow song.now channel IsHeard }
{
    let subtunes = song.subtunes.as_slice();
    subtunes
        .iter()
        .any(|subtune| plays_marked(subtune, channel, heard))
}
