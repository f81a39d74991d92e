//! Patterns.

ghost use Rattle.std.specs.Prelude.{◌≡◌, ℕ, ◌↔◌, length, All, IfOk, IfSome, IfNone, IsErrOf};
ghost use Rattle.base.specs.FirstBad.{IsFirstBad};
ghost use Rattle.song_model.specs.PatternLimits.{IsRow, IsPatternLength, IsPattern};

use crate::{Bounded, LimitFault, Row};
use base::{Items, NoMemory};
use std::alloc::Global;
use std::marker::Model;

/// The most rows of a pattern.
pub const MOST_ROWS: usize = 128;

/// The most patterns of a song.
pub const MOST_PATTERNS: usize = 208;

/// A list of 1 to 128 rows, none of them the end row.
#[derive(Drop)]
pub struct Pattern {
    rows: Items<Row>,
}

/// The patterns of a song: at most 208, numbered from 0.
pub type PatternList = Bounded<Pattern, MOST_PATTERNS>;

impl Model for Pattern {
    ghost use Rattle.std.specs.Prelude.{List};
    ghost use Rattle.song_model.specs.declared.rows.Row.{Row as OneRow};
    ghost use Rattle.song_model.specs.PatternLimits.{IsPattern};

    ghost Value = { List OneRow };

    ghost view = { λ pattern. pattern.rows };

    ghost invariant = { λ pattern. IsPattern pattern.rows };
}

impl Pattern {
    /// A pattern of these rows.
    ///
    /// # Errors
    ///
    /// `BadLength` where they aren't 1 to 128, `BadItem` at the first row that is out of its ranges; out of
    /// memory.
    pub fn from_rows(alloc: Global, rows: &[Row]) -> Result<Pattern, LimitFault>
        ensures kept { IfOk result (λ pattern. pattern ≡ rows.now) }
        ensures bad_length { IsErrOf result LimitFault.BadLength ↔ ¬ IsPatternLength
            (length rows.now) }
        ensures bad_item { (place : ℕ) → IsErrOf result (LimitFault.BadItem place)
            ↔ (IsPatternLength (length rows.now) × IsFirstBad IsRow rows.now place) }
    {
        if rows.is_empty() || rows.len() > MOST_ROWS {
            return Err(LimitFault::BadLength);
        }
        if let Some(place) = first_bad_row(rows) {
            return Err(LimitFault::BadItem { place });
        }
        match Items::from_slice(alloc, rows) {
            Ok(rows) => Ok(Pattern { rows }),
            Err(NoMemory) => Err(LimitFault::NoMemory),
        }
    }

    /// The pattern of these rows, for a reader that has looked at each of them.
    pub fn from_vec(rows: Vec<Row>) -> Pattern
        requires { IsPattern rows.items }
        ensures { result ≡ rows.items }
    {
        Pattern {
            rows: Items::from_vec(rows),
        }
    }

    /// The rows in order.
    pub fn as_slice(&self) -> &[Row]
        ensures rows { result.now ≡ self.now }
        ensures limits { IsPattern self.now }
    {
        self.rows.as_slice()
    }

    /// A pattern of the same rows.
    ///
    /// # Errors
    ///
    /// Out of memory.
    pub fn copy(&self, alloc: Global) -> Result<Pattern, NoMemory>
        ensures { IfOk result (λ copy. copy ≡ self.now) }
    {
        Ok(Pattern {
            rows: self.rows.copy(alloc)?,
        })
    }
}

/// The least place of a row that is out of its range.
fn first_bad_row(rows: &[Row]) -> Option<u16>
    requires { IsPatternLength (length rows.now) }
    ensures found { IfSome result (IsFirstBad IsRow rows.now) }
    ensures none { IfNone result (All IsRow rows.now) }
{
    let place = rows.iter().position(|row| !row.is_in_range())?;
    Some(place as u16)
}
