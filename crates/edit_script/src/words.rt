//! A line that says what is to be done.

ghost use Rattle.std.specs.Prelude.{◌≡◌, take, drop};
ghost use Rattle.edit_script.specs.Reading.{made, row_in, action_in, word_end};

use crate::Action;
use crate::arguments::{Bytes, read_arguments};
use crate::forms::{Form, Keyword, form_of};
use crate::lines::place_of;
use edit_ops::Edit;
use song_model::{Row, TableRow};

/// What a line spells, if anything.
pub fn action_of(line: &[u8]) -> Option<Action>
    ensures { result ≡ action_in line.now }
{
    let (word, behind) = split_word(line);
    let Form { keyword, sizes } = form_of(word)?;
    let bytes = read_arguments(sizes, behind)?;
    Some(action_with(keyword, &bytes))
}

/// The bytes before the first space of a line, and those from there on.
fn split_word(line: &[u8]) -> (&[u8], &[u8])
    ensures word { result.0.now ≡ take (word_end line.now) line.now }
    ensures behind { result.1.now ≡ drop (word_end line.now) line.now }
{
    match place_of(b' ', line) {
        Some(end) => line.split_at(end),
        None => (line, &[]),
    }
}

/// What is to be done by this keyword with these arguments.
#[tactic(auto, unfolding(crate::specs::Reading::made))]
fn action_with(keyword: Keyword, bytes: &Bytes) -> Action
    ensures { result ≡ made keyword bytes.now }
{
    let [a, b, c, d, ..] = *bytes;
    let edit = match keyword {
        Keyword::Row => Edit::SetRow {
            pattern: a,
            place: b,
            row: row_of(bytes),
        },
        Keyword::RowInsert => Edit::InsertRow {
            pattern: a,
            place: b,
            row: row_of(bytes),
        },
        Keyword::RowDelete => Edit::DeleteRow {
            pattern: a,
            place: b,
        },
        Keyword::PatternLength => Edit::SetLength {
            pattern: a,
            length: b,
        },
        Keyword::PatternCopy => Edit::CopyPattern { from: a, to: b },
        Keyword::PatternTranspose => Edit::TransposePattern { pattern: a, by: b },
        Keyword::Order => Edit::SetOrder {
            subtune: a,
            channel: b,
            place: c,
            entry: d,
        },
        Keyword::OrderInsert => Edit::InsertOrder {
            subtune: a,
            channel: b,
            place: c,
            entry: d,
        },
        Keyword::OrderDelete => Edit::DeleteOrder {
            subtune: a,
            channel: b,
            place: c,
        },
        Keyword::OrderRestart => Edit::SetRestart {
            subtune: a,
            channel: b,
            restart: c,
        },
        Keyword::Instrument => Edit::SetInstrument {
            instrument: a,
            field: b,
            value: c,
        },
        Keyword::InstrumentName => Edit::SetInstrumentName {
            instrument: a,
            name: name_of(bytes),
        },
        Keyword::Table => Edit::SetTable {
            table: a,
            number: b,
            row: TableRow { left: c, right: d },
        },
        Keyword::TableInsert => Edit::InsertTable {
            table: a,
            number: b,
            row: TableRow { left: c, right: d },
        },
        Keyword::TableDelete => Edit::DeleteTable {
            table: a,
            number: b,
        },
        Keyword::Text => Edit::SetText {
            which: a,
            text: text_of(bytes),
        },
        Keyword::SubtuneAdd => Edit::AddSubtune,
        Keyword::SubtuneRemove => Edit::RemoveSubtune { subtune: a },
        Keyword::PatternCount => Edit::SetPatternCount { count: a },
        Keyword::Undo => return Action::Undo,
        Keyword::Redo => return Action::Redo,
    };
    Action::Edit(edit)
}

/// The row behind the first two bytes.
fn row_of(bytes: &Bytes) -> Row
    ensures { result ≡ row_in bytes.now }
{
    let [_, _, note, instrument, command, param, ..] = *bytes;
    Row {
        note,
        instrument,
        command,
        param,
    }
}

/// The name of an instrument behind the first byte.
fn name_of(bytes: &Bytes) -> [u8; 16]
    ensures { result ≡ take 16 (drop 1 bytes.now) }
{
    let mut name = [0; 16];
    name.copy_from_slice(&bytes[1..17]);
    name
}

/// The text behind the first byte.
fn text_of(bytes: &Bytes) -> [u8; 32]
    ensures { result ≡ take 32 (drop 1 bytes.now) }
{
    let mut text = [0; 32];
    text.copy_from_slice(&bytes[1..]);
    text
}
