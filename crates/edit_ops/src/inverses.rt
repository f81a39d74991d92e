//! What an edit has replaced, and the way back.

ghost use Rattle.std.specs.Prelude.{◌≡◌, true, Some, IsSome};
ghost use Rattle.song_model.specs.LookUp.{table_of, with_table};
ghost use Rattle.edit_ops.specs.Others.{text_of, with_text};
ghost use Rattle.edit_ops.specs.Back.{back, with_parts, are_parts};

use crate::instruments::exchange_instrument;
use crate::numbered::exchange_patterns;
use crate::orders::put_order;
use crate::patterns::exchange_pattern;
use crate::{NumberedPattern, Splice};
use base::Items;
use song_model::{Instrument, InstrumentList, Order, Pattern, Song, Subtune, Table, TableName};
use std::mem;

/// What holds pointers into the tables of a song, and the tables.
#[derive(Drop)]
pub struct PointerParts {
    /// The instruments.
    pub instruments: InstrumentList,
    /// The wave table.
    pub wave: Table,
    /// The pulse table.
    pub pulse: Table,
    /// The filter table.
    pub filter: Table,
    /// The speed table.
    pub speed: Table,
    /// The patterns with a pointer that moves.
    pub patterns: Items<NumberedPattern>,
}

/// What an edit has replaced in a song.
#[derive(Drop)]
pub enum Inverse {
    /// A text: 0 name, 1 author, 2 copyright.
    Text {
        which: u8,
        text: [u8; 32],
    },
    /// A pattern, counted from 0.
    OnePattern {
        pattern: u8,
        rows: Pattern,
    },
    /// The orderlist of a subtune's channel, both counted from 1.
    OneOrder {
        subtune: u8,
        channel: u8,
        order: Order,
    },
    /// An instrument, counted from 1.
    OneInstrument {
        number: u8,
        instrument: Instrument,
    },
    /// All instruments.
    Instruments(InstrumentList),
    /// A table.
    OneTable {
        name: TableName,
        table: Table,
    },
    /// Subtunes that came or went.
    Subtunes(Splice<Subtune>),
    /// Patterns that came or went.
    Patterns(Splice<Pattern>),
    /// What has pointers that have moved.
    Pointers(PointerParts),
}

/// Puts what an inverse holds into a song that it fits, and answers the inverse of that: what the song had. It
/// takes no memory.
#[tactic(auto, unfolding(crate::specs::Back::back))]
pub fn revert(song: &mut Song, inverse: Inverse) -> Inverse
    requires { IsSome (back song.old inverse) }
    ensures there { back song.old inverse ≡ Some song.new }
    ensures and_back { back song.new result ≡ Some song.old }
{
    match inverse {
        Inverse::Text { which, text } => Inverse::Text {
            which,
            text: exchange_text(song, which, text),
        },
        Inverse::OnePattern { pattern, rows } => exchange_pattern(song, pattern, rows),
        Inverse::OneOrder {
            subtune,
            channel,
            order,
        } => put_order(song, subtune, channel, order),
        Inverse::OneInstrument { number, instrument } => {
            exchange_instrument(song, number, instrument)
        }
        Inverse::Instruments(instruments) => {
            Inverse::Instruments(mem::replace(&mut song.instruments, instruments))
        }
        Inverse::OneTable { name, table } => Inverse::OneTable {
            name,
            table: exchange_table(song, name, table),
        },
        Inverse::Subtunes(splice) => Inverse::Subtunes(splice.put(&mut song.subtunes)),
        Inverse::Patterns(splice) => Inverse::Patterns(splice.put(&mut song.patterns)),
        Inverse::Pointers(parts) => Inverse::Pointers(exchange_parts(song, parts)),
    }
}

/// Puts a text, 0 name, 1 author, else copyright, in place of the song's, and answers that one.
pub(crate) fn exchange_text(song: &mut Song, which: u8, text: [u8; 32]) -> [u8; 32]
    ensures after { song.new ≡ with_text song.old which text }
    ensures before { result ≡ text_of song.old which }
{
    match which {
        0 => mem::replace(&mut song.name, text),
        1 => mem::replace(&mut song.author, text),
        _ => mem::replace(&mut song.copyright, text),
    }
}

/// Puts a table in place of the one of that name, and answers that one.
pub(crate) fn exchange_table(song: &mut Song, name: TableName, table: Table) -> Table
    ensures after { song.new ≡ with_table song.old name table }
    ensures before { result ≡ table_of song.old name }
{
    match name {
        TableName::Wave => mem::replace(&mut song.wave, table),
        TableName::Pulse => mem::replace(&mut song.pulse, table),
        TableName::Filter => mem::replace(&mut song.filter, table),
        TableName::Speed => mem::replace(&mut song.speed, table),
    }
}

/// Puts these parts in place of the song's, and answers those.
pub(crate) fn exchange_parts(song: &mut Song, parts: PointerParts) -> PointerParts
    requires { are_parts song.old parts ≡ true }
    ensures after { song.new ≡ with_parts song.old parts }
    ensures parts { are_parts song.new result ≡ true }
    ensures and_back { with_parts song.new result ≡ song.old }
{
    PointerParts {
        instruments: mem::replace(&mut song.instruments, parts.instruments),
        wave: mem::replace(&mut song.wave, parts.wave),
        pulse: mem::replace(&mut song.pulse, parts.pulse),
        filter: mem::replace(&mut song.filter, parts.filter),
        speed: mem::replace(&mut song.speed, parts.speed),
        patterns: exchange_patterns(&mut song.patterns, parts.patterns),
    }
}
