//! Patterns.

ghost use Rattle.std.specs.Prelude.{◌≡◌, ◌≤◌, ◌*◌, length, drop};
ghost use Rattle.gts5.specs.Faults.{row_of};
ghost use Rattle.gts5.specs.Reading.{ends_at, cut_at, rows_of, pattern_at, patterns_at, each_at};
ghost use Rattle.gts5.specs.Gives.{Gives};

use crate::reader::Reader;
use crate::{MOST_BYTES, SongFault};
use song_model::{Pattern, PatternList, Row};
use std::alloc::Global;

impl Reader {
    /// A pattern, cut at its first end row.
    ///
    /// # Errors
    ///
    /// The first fault in it; or out of memory.
    #[tactic(auto, unfolding(crate::specs::Reading::pattern_at))]
    fn pattern<'a>(self, alloc: Global, left: &'a [u8]) -> Result<(Pattern, &'a [u8]), SongFault>
        ensures { Gives (λ x. (x.0, x.1.now)) result (pattern_at self.length left.now) }
    {
        let (count, rest) = self.byte(left)?;
        let (piece, rest) = self.bytes(4 * usize::from(count), rest)?;
        let rows = rows_before_end(alloc, self.offset(left), count, piece)?;
        Ok((Pattern::from_vec(rows), rest))
    }

    /// The next `count` patterns.
    ///
    /// # Errors
    ///
    /// The first fault in them; or out of memory.
    fn some_patterns<'a>(
        self,
        alloc: Global,
        count: u8,
        left: &'a [u8],
    ) -> Result<(PatternList, &'a [u8]), SongFault>
        requires { count ≤ 208 }
        ensures { Gives (λ x.
            (x.0, x.1.now)) result (each_at (pattern_at self.length) count left.now) }
    {
        let mut patterns = PatternList::new(alloc);
        let mut rest = left;
        for _i in 0..count {
            let (pattern, after) = self.pattern(alloc, rest)?;
            if let Err(fault) = patterns.push(pattern) {
                return Err(SongFault::of_push(fault));
            }
            rest = after;
        }
        Ok((patterns, rest))
    }

    /// The count of the patterns and the patterns.
    ///
    /// # Errors
    ///
    /// The first fault in them, a count above 208 too; or out of memory.
    #[tactic(auto, unfolding(crate::specs::Reading::patterns_at))]
    pub fn patterns<'a>(
        self,
        alloc: Global,
        left: &'a [u8],
    ) -> Result<(PatternList, &'a [u8]), SongFault>
        ensures { Gives (λ x. (x.0, x.1.now)) result (patterns_at self.length left.now) }
    {
        let (count, left) = self.count(208, left)?;
        self.some_patterns(alloc, count, left)
    }
}

/// The rows before the end row of a pattern whose count stands at offset `at`.
///
/// # Errors
///
/// The first row that is out of its range, row 0 as the end row, row 128 that is none, or no end row; or out of memory.
fn rows_before_end(alloc: Global, at: u32, count: u8, piece: &[u8]) -> Result<Vec<Row>, SongFault>
    requires place { at ≤ MOST_BYTES }
    requires size { length piece.now ≡ 4 * count }
    ensures { Gives (λ rows. rows.items) result (cut_at at 0 (rows_of count piece.now)) }
{
    let mut rows = Vec::new(alloc);
    let mut left = piece;
    for i in 0..count {
        let (row, after) = front_row(left);
        if is_end(at, i, row)? {
            return Ok(rows);
        }
        rows.push(row)?;
        left = after;
    }
    Err(SongFault::BadRow { offset: at })
}

/// The row at the front, and the bytes after it.
fn front_row(bytes: &[u8]) -> (Row, &[u8])
    requires { 4 ≤ length bytes.now }
    ensures row { result.0 ≡ row_of bytes.now }
    ensures rest { result.1.now ≡ drop 4 bytes.now }
{
    let [note, instrument, command, param, rest @ ..] = bytes else {
        unreachable!()
    };
    let row = Row {
        note: *note,
        instrument: *instrument,
        command: *command,
        param: *param,
    };
    (row, rest)
}

/// Whether row `i` of a pattern, counted from 0, is its end row; `at` is the offset of the pattern's count.
///
/// # Errors
///
/// Row 0 is the end row, row 128 is none, or the row is out of its range.
#[tactic(auto, unfolding(crate::specs::Reading::ends_at))]
fn is_end(at: u32, i: u8, row: Row) -> Result<bool, SongFault>
    requires { at ≤ MOST_BYTES }
    ensures { Gives (λ ends. ends) result (ends_at at i row) }
{
    let place = at + 1 + 4 * u32::from(i);
    if row.note == 0xff {
        if i == 0 {
            return Err(SongFault::BadRow { offset: place });
        }
        return Ok(true);
    }
    if i == 128 {
        return Err(SongFault::OutOfLimit { offset: at });
    }
    if row.is_in_range() {
        Ok(false)
    } else {
        Err(SongFault::BadRow { offset: place })
    }
}
