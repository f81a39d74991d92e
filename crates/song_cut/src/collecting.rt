//! The pieces of a song's patterns, each once, and what they weigh.

ghost use Rattle.std.specs.Prelude.{◌≡◌, ◌+◌, ◌*◌, ◌<◌, ◌≤◌, [], length, IfOk, OnOk};
ghost use Rattle.std.specs.List.{flat_map};
ghost use Rattle.song_model.specs.PatternLimits.{IsPattern};
ghost use Rattle.song_model.specs.Canonical.{row_text};
ghost use Rattle.pattern_cut.specs.Pieces.{rows_of, slice, slices};
ghost use Rattle.pattern_cut.specs.Choice.{pattern_weight};
ghost use Rattle.song_cut.specs.declared.collecting.TheConstants.{MOST_PIECES};
ghost use Rattle.song_cut.specs.Numbers.{most_of, IsCollected, Grows, IsNumberOf, AreNumbersOf};

use base::{Items, NoMemory};
use indexmap::IndexSet;
use pattern_cut::PieceLength;
use pattern_pack::pack_pattern;
use song_model::{Pattern, Row};
use std::alloc::Global;

/// The most pieces that a song has in all lengths: 1, 2, 4, 8 and 16 of each of 208 patterns.
pub(crate) const MOST_PIECES: usize = 6448;

/// A piece of a pattern.
#[derive(Drop)]
pub(crate) struct Piece {
    /// Its rows.
    pub rows: Pattern,
    /// The length of its packed text, with two bytes for its address.
    pub weight: u16,
}

/// Pieces of patterns, each once, numbered from 0 in the order in which they are first met.
#[derive(Drop)]
pub(crate) struct Pieces {
    /// The bytes of their rows.
    texts: IndexSet<Vec<u8>>,
    /// Themselves.
    pub list: Vec<Piece>,
}

/// The bytes of these rows, four for each.
///
/// # Errors
///
/// Out of memory.
fn text_of(alloc: Global, rows: &[Row]) -> Result<Vec<u8>, NoMemory>
    ensures { IfOk result (λ text. text.items ≡ flat_map row_text rows.now) }
{
    let mut text = Vec::new(alloc);
    for row in rows {
        text.extend_from_slice(&[row.note, row.instrument, row.command, row.param])?;
    }
    Ok(text)
}

/// What a pattern weighs.
fn weight_of(pattern: &Pattern) -> u16
    ensures { result ≡ pattern_weight pattern.now }
{
    match pack_pattern(pattern) {
        Ok(packed) => packed.as_slice().len() as u16 + 2,
        Err(long) => long.length + 2,
    }
}

/// The piece of these rows.
///
/// # Errors
///
/// Out of memory.
fn piece_of(alloc: Global, rows: &[Row]) -> Result<Piece, NoMemory>
    requires { IsPattern rows.now }
    ensures rows { IfOk result (λ piece. piece.rows ≡ rows.now) }
    ensures weight { IfOk result (λ piece. piece.weight ≡ pattern_weight rows.now) }
{
    let rows = Pattern::from_vec(Vec::from_slice(alloc, rows)?);
    let weight = weight_of(&rows);
    Ok(Piece { rows, weight })
}

/// The rows of each piece of a pattern but the last.
fn rows_of(size: PieceLength) -> usize
    ensures rows { result ≡ rows_of size }
    ensures least { 8 ≤ result }
    ensures most { result ≤ 128 }
{
    match size {
        PieceLength::Whole => 128,
        PieceLength::Rows64 => 64,
        PieceLength::Rows32 => 32,
        PieceLength::Rows16 => 16,
        PieceLength::Rows8 => 8,
    }
}

/// The rows of piece `i`, counted from 0.
fn piece_rows(rows: &[Row], n: usize, i: usize) -> &[Row]
    requires inside { i * n < length rows.now }
    requires rows { IsPattern rows.now }
    requires some { 0 < n }
    ensures piece { result.now ≡ slice n rows.now i }
    ensures rows { IsPattern result.now }
{
    let left = &rows[i * n..];
    &left[..n.min(left.len())]
}

impl Pieces {
    /// No pieces.
    pub(crate) fn new(alloc: Global) -> Pieces
        ensures collected { IsCollected result }
        ensures none { result.list.items ≡ [] }
    {
        Pieces {
            texts: IndexSet::new(alloc),
            list: Vec::new(alloc),
        }
    }

    /// The number of the piece of these rows. It is added at the end where it isn't there.
    ///
    /// # Errors
    ///
    /// Out of memory.
    fn number_of(&mut self, alloc: Global, rows: &[Row]) -> Result<u16, NoMemory>
        requires rows { IsPattern rows.now }
        requires collected { IsCollected self.old }
        requires few { length self.old.list.items < MOST_PIECES }
        ensures collected { OnOk result (IsCollected self.new) }
        ensures grown { OnOk result (Grows 1 self.old.list.items self.new.list.items) }
        ensures number { IfOk result (IsNumberOf self.new.list.items rows.now) }
    {
        let text = text_of(alloc, rows)?;
        let (number, is_new) = self.texts.insert_full(text)?;
        if is_new {
            self.list.push(piece_of(alloc, rows)?)?;
        }
        Ok(number as u16)
    }

    /// The numbers of the pieces of these rows that have this length.
    ///
    /// # Errors
    ///
    /// Out of memory.
    pub(crate) fn numbers_of(
        &mut self,
        alloc: Global,
        rows: &[Row],
        size: PieceLength,
    ) -> Result<Items<u16>, NoMemory>
        requires rows { IsPattern rows.now }
        requires collected { IsCollected self.old }
        requires few { length self.old.list.items + most_of size ≤ MOST_PIECES }
        ensures collected { OnOk result (IsCollected self.new) }
        ensures grown { OnOk result (Grows (most_of size) self.old.list.items self.new.list.items) }
        ensures numbers { IfOk result
            (AreNumbersOf self.new.list.items (slices (rows_of size) rows.now)) }
        ensures short { IfOk result (λ numbers. length numbers ≤ most_of size) }
    {
        let n = rows_of(size);
        let count = (rows.len() + (n - 1)) / n;
        let mut numbers = Vec::new(alloc);
        for i in 0..count {
            numbers.push(self.number_of(alloc, piece_rows(rows, n, i))?)?;
        }
        Ok(Items::from_vec(numbers))
    }
}
