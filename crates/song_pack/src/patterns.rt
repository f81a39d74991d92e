//! The patterns of a packed song.

ghost use Rattle.std.specs.Prelude.{◌≡◌, ℕ, ◌<◌, ◌≤◌, true, IfOk, IfErr, OnOk, length, map, slice_index};
ghost use Rattle.std.specs.List.{position_or_len};
ghost use Rattle.std.specs.Str.{bytes_eq};
ghost use Rattle.song_model.specs.PatternLimits.{IsRow};
ghost use Rattle.song_model.specs.LookUp.{pattern_at};
ghost use Rattle.table_pack.specs.Marks.{is_marked};
ghost use Rattle.song_pack.specs.Numbers.{row_of, numbered_row};
ghost use Rattle.song_pack.specs.Texts.{text_under, with_text, ArePatterns, IsCaused, IsCausedAt};

use crate::PackFault;
use crate::numbers::RowNumbers;
use crate::orders::PatternNumbers;
use base::NoMemory;
use indexmap::IndexSet;
use packed_form::{PackedPattern, PackedPatternList};
use pattern_pack::pack_pattern;
use song_model::{Bounded, Pattern, Row, Song, command_table};
use std::alloc::Global;

/// The patterns of a packed song.
#[derive(Drop)]
pub(crate) struct PackedPatterns {
    /// Each text once, in the order in which they are first seen.
    pub list: PackedPatternList,
    /// The new number of each used pattern, counted from 0.
    pub to: PatternNumbers,
}

/// The packed patterns of the used ones, in ascending order of their numbers; those with the same text share a number.
///
/// # Errors
///
/// The first of them is too long; out of memory.
pub(crate) fn packed_patterns(
    alloc: Global,
    song: &Song,
    used: &[bool; 208],
    numbers: &RowNumbers,
    instruments: &[u8; 64],
) -> Result<PackedPatterns, PackFault>
    requires stored { (p : ℕ) → is_marked used.now p ≡ true → p < length song.now.patterns }
    requires small { (n : ℕ) → slice_index instruments.now n ≤ 63 }
    ensures patterns { IfOk result (λ packed.
        ArePatterns (text_under song.now numbers.now instruments.now) (is_marked used.now) packed.list
        packed.to) }
    ensures fault { IfErr result
        (IsCaused (text_under song.now numbers.now instruments.now) (is_marked used.now)) }
{
    let mut seen = IndexSet::new(alloc);
    let mut list = Vec::new(alloc);
    let mut to = [0; 208];
    for p in 0..208u8 {
        if used[usize::from(p)] {
            let packed = packed_pattern(alloc, song, p, numbers, instruments)?;
            to[usize::from(p)] = number_of(alloc, &mut seen, &mut list, packed)?;
        }
    }
    Ok(PackedPatterns {
        list: Bounded::from_vec(list),
        to,
    })
}

/// The number of a packed pattern among these, counted from 0. It is added at the end where it isn't there.
///
/// # Errors
///
/// Out of memory.
fn number_of(
    alloc: Global,
    seen: &mut IndexSet<Vec<u8>>,
    list: &mut Vec<PackedPattern>,
    packed: PackedPattern,
) -> Result<u8, NoMemory>
    requires together { map (λ key. key.items) seen.old.keys ≡ list.old.items }
    requires few { length list.old.items ≤ 207 }
    ensures number { IfOk result (λ n. n ≡ position_or_len (bytes_eq packed) list.old.items) }
    ensures list { OnOk result (list.new.items ≡ with_text list.old.items packed) }
    ensures together { OnOk result (map (λ key. key.items) seen.new.keys ≡ list.new.items) }
{
    let mut key = Vec::new(alloc);
    key.extend_from_slice(packed.as_slice())?;
    let (index, is_new) = seen.insert_full(key)?;
    if is_new {
        list.push(packed)?;
    }
    Ok(index as u8)
}

/// The packed pattern of a pattern under new numbers.
///
/// # Errors
///
/// It is too long; out of memory.
#[tactic(auto, unfolding(crate::specs::Texts::text_under))]
fn packed_pattern(
    alloc: Global,
    song: &Song,
    p: u8,
    numbers: &RowNumbers,
    instruments: &[u8; 64],
) -> Result<PackedPattern, PackFault>
    requires stored { p < length song.now.patterns }
    requires small { (n : ℕ) → slice_index instruments.now n ≤ 63 }
    ensures packed { IfOk result (λ packed. packed ≡
        text_under song.now numbers.now instruments.now p) }
    ensures short { IfOk result (λ packed. length packed ≤ 256) }
    ensures fault { IfErr result
        (IsCausedAt (text_under song.now numbers.now instruments.now p) p) }
{
    let Some(pattern) = song.pattern(p) else {
        unreachable!()
    };
    let numbered = numbered_pattern(alloc, pattern, numbers, instruments)?;
    match pack_pattern(&numbered) {
        Ok(packed) => Ok(packed),
        Err(long) => Err(PackFault::PatternTooLong {
            pattern: p,
            length: long.length,
        }),
    }
}

/// A pattern with new numbers for its instruments and pointers.
///
/// # Errors
///
/// Out of memory.
fn numbered_pattern(
    alloc: Global,
    pattern: &Pattern,
    numbers: &RowNumbers,
    instruments: &[u8; 64],
) -> Result<Pattern, NoMemory>
    requires { (n : ℕ) → slice_index instruments.now n ≤ 63 }
    ensures { IfOk result (λ new. new ≡
        map (numbered_row (row_of numbers.now) (slice_index instruments.now)) pattern.now) }
{
    let stored = pattern.as_slice();
    let mut rows = Vec::new(alloc);
    for row in stored {
        rows.push(numbered_row(*row, numbers, instruments))?;
    }
    Ok(Pattern::from_vec(rows))
}

/// A row with new numbers for its instrument and its pointer.
fn numbered_row(row: Row, numbers: &RowNumbers, instruments: &[u8; 64]) -> Row
    requires small { (n : ℕ) → slice_index instruments.now n ≤ 63 }
    requires row { IsRow row }
    ensures row { result ≡ numbered_row (row_of numbers.now) (slice_index instruments.now) row }
    ensures fits { IsRow result }
{
    Row {
        instrument: instruments[usize::from(row.instrument)],
        param: numbers.pointer(command_table(row.command), row.param),
        ..row
    }
}
