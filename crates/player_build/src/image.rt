//! An image with its parts.

use crate::place::Place;
use base::{ByteList, Items};
use std::marker::Model;

/// Bytes of an image that belong to one part of the player.
#[derive(Clone, Copy, Debug, PartialEq, Eq)]
pub struct PartSpan {
    /// The part: 0 to 23 for a feature, 24 to 27 for an option, 28 to 33 for what several features have in common,
    /// 34 to 55 for a fact, 56 to 60 for what several facts or features have in common, 255 for what every image has.
    pub part: u8,
    /// The first of the bytes, counted from the image's first.
    pub start: u16,
    /// How many there are.
    pub length: u16,
}

/// Spans in order. Contracts see the list.
#[derive(Drop)]
pub struct SpanList {
    pub(crate) spans: Items<PartSpan>,
}

impl Model for SpanList {
    ghost use Rattle.std.specs.Prelude.{List};
    ghost use Rattle.player_build.specs.declared.image.PartSpan.{PartSpan};

    ghost Value = { List PartSpan };

    ghost view = { λ list. list.spans };
}

impl SpanList {
    ghost use Rattle.std.specs.Prelude.{◌≡◌};

    /// The spans in order.
    pub fn as_slice(&self) -> &[PartSpan]
        ensures { result.now ≡ self.now }
    {
        self.spans.as_slice()
    }
}

/// An image: the bytes of a player with its song, built to stand at a place.
#[derive(Drop)]
pub struct Image {
    /// Where it stands.
    pub place: Place,
    /// Its bytes. Init is entered at the first, play at the fourth.
    pub bytes: ByteList,
    /// Which of them belong to which part; the others are the lists of its packed song.
    pub parts: SpanList,
}
