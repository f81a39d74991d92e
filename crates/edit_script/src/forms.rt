//! The forms of the lines that say what is to be done.

ghost use Rattle.std.specs.Prelude.{◌≡◌, ◌≢◌, IfSome, IfNone};
ghost use Rattle.edit_script.specs.declared.forms.Keyword.{Keyword as Begins};
ghost use Rattle.edit_script.specs.Reading.{word_of, sizes_of};

use std::str;

/// What a line begins with.
#[derive(Clone, Copy, Debug)]
pub enum Keyword {
    Row,
    RowInsert,
    RowDelete,
    PatternLength,
    PatternCopy,
    PatternTranspose,
    Order,
    OrderInsert,
    OrderDelete,
    OrderRestart,
    Instrument,
    InstrumentName,
    Table,
    TableInsert,
    TableDelete,
    Text,
    SubtuneAdd,
    SubtuneRemove,
    PatternCount,
    Undo,
    Redo,
}

/// The form of a line: what its word says, and how many bytes each of its arguments has.
#[derive(Clone, Copy)]
pub struct Form {
    pub keyword: Keyword,
    pub sizes: &'static [usize],
}

impl Form {
    /// The form with a keyword and arguments of these sizes.
    fn new(keyword: Keyword, sizes: &'static [usize]) -> Form
        ensures keyword { result.keyword ≡ keyword }
        ensures sizes { result.sizes.now ≡ sizes.now }
    {
        Form { keyword, sizes }
    }
}

/// The form of the lines that begin with this word.
pub fn form_of(word: &[u8]) -> Option<Form>
    ensures found { IfSome result (λ form. word.now ≡ word_of form.keyword) }
    ensures sizes { IfSome result (λ form. form.sizes.now ≡ sizes_of form.keyword) }
    ensures none { IfNone result ((keyword : Begins) → word.now ≢ word_of keyword) }
{
    match str::from_utf8(word) {
        Ok(text) => form_of_text(text),
        Err(_) => None,
    }
}

/// The form of the lines that begin with this word.
#[tactic(auto, unfolding(crate::specs::Reading::made, crate::specs::Reading::word_of, crate::specs::Reading::sizes_of))]
fn form_of_text(word: &str) -> Option<Form>
    ensures found { IfSome result (λ form. word.now ≡ word_of form.keyword) }
    ensures sizes { IfSome result (λ form. form.sizes.now ≡ sizes_of form.keyword) }
    ensures none { IfNone result ((keyword : Begins) → word.now ≢ word_of keyword) }
{
    match word {
        "row" => Some(Form::new(Keyword::Row, &[1, 1, 1, 1, 1, 1])),
        "row-insert" => Some(Form::new(Keyword::RowInsert, &[1, 1, 1, 1, 1, 1])),
        "row-delete" => Some(Form::new(Keyword::RowDelete, &[1, 1])),
        "pattern-length" => Some(Form::new(Keyword::PatternLength, &[1, 1])),
        "pattern-copy" => Some(Form::new(Keyword::PatternCopy, &[1, 1])),
        "pattern-transpose" => Some(Form::new(Keyword::PatternTranspose, &[1, 1])),
        "order" => Some(Form::new(Keyword::Order, &[1, 1, 1, 1])),
        "order-insert" => Some(Form::new(Keyword::OrderInsert, &[1, 1, 1, 1])),
        "order-delete" => Some(Form::new(Keyword::OrderDelete, &[1, 1, 1])),
        "order-restart" => Some(Form::new(Keyword::OrderRestart, &[1, 1, 1])),
        "instrument" => Some(Form::new(Keyword::Instrument, &[1, 1, 1])),
        "instrument-name" => Some(Form::new(Keyword::InstrumentName, &[1, 16])),
        "table" => Some(Form::new(Keyword::Table, &[1, 1, 1, 1])),
        "table-insert" => Some(Form::new(Keyword::TableInsert, &[1, 1, 1, 1])),
        "table-delete" => Some(Form::new(Keyword::TableDelete, &[1, 1])),
        "text" => Some(Form::new(Keyword::Text, &[1, 32])),
        "subtune-add" => Some(Form::new(Keyword::SubtuneAdd, &[])),
        "subtune-remove" => Some(Form::new(Keyword::SubtuneRemove, &[1])),
        "pattern-count" => Some(Form::new(Keyword::PatternCount, &[1])),
        "undo" => Some(Form::new(Keyword::Undo, &[])),
        "redo" => Some(Form::new(Keyword::Redo, &[])),
        _ => None,
    }
}
