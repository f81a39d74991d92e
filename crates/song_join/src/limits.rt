//! Whether the parts of two songs together are within the limits of one song.

ghost use Rattle.std.specs.Prelude.{◌≡◌, ◌+◌, ◌≤◌, length, IfErr, OnOk};
ghost use Rattle.song_model.specs.LookUp.{table_of};
ghost use Rattle.song_join.specs.Limits.{sum_of, limit_of, AreWithin};
ghost use Rattle.song_join.specs.Refusals.{IsRefusedFor};

use crate::{JoinFault, JoinPart};
use song_model::{
    MOST_INSTRUMENTS, MOST_PATTERNS, MOST_SUBTUNES, MOST_TABLE_ROWS, Song, TableName,
};

/// The parts in the order in which they are looked at.
const PARTS: [JoinPart; 7] = [
    JoinPart::Subtunes,
    JoinPart::Instruments,
    JoinPart::Wave,
    JoinPart::Pulse,
    JoinPart::Filter,
    JoinPart::Speed,
    JoinPart::Patterns,
];

/// Two counts together.
fn together(one: usize, two: usize) -> u16
    requires one { one ≤ 255 }
    requires two { two ≤ 255 }
    ensures { result ≡ one + two }
{
    (one + two) as u16
}

/// How many rows of a table two songs have together.
fn rows_of(first: &Song, second: &Song, name: TableName) -> u16
    ensures { result ≡ length (table_of first.now name) + length (table_of second.now name) }
{
    together(
        first.table(name).as_slice().len(),
        second.table(name).as_slice().len(),
    )
}

/// How many of a part the joined song would have.
fn sum_of(first: &Song, second: &Song, part: JoinPart) -> u16
    ensures { result ≡ sum_of first.now second.now part }
{
    match part {
        JoinPart::Subtunes => together(
            first.subtunes.as_slice().len(),
            usize::from(second.playable_count()),
        ),
        JoinPart::Instruments => together(
            first.instruments.as_slice().len(),
            second.instruments.as_slice().len(),
        ),
        JoinPart::Wave => rows_of(first, second, TableName::Wave),
        JoinPart::Pulse => rows_of(first, second, TableName::Pulse),
        JoinPart::Filter => rows_of(first, second, TableName::Filter),
        JoinPart::Speed => rows_of(first, second, TableName::Speed),
        JoinPart::Patterns => together(
            first.patterns.as_slice().len(),
            second.patterns.as_slice().len(),
        ),
    }
}

/// How many of a part a song may have.
fn limit_of(part: JoinPart) -> u16
    ensures { result ≡ limit_of part }
{
    match part {
        JoinPart::Subtunes => MOST_SUBTUNES as u16,
        JoinPart::Instruments => MOST_INSTRUMENTS as u16,
        JoinPart::Wave | JoinPart::Pulse | JoinPart::Filter | JoinPart::Speed => {
            MOST_TABLE_ROWS as u16
        }
        JoinPart::Patterns => MOST_PATTERNS as u16,
    }
}

/// Looks whether each part of the joined song would be within its limit.
///
/// # Errors
///
/// The first part that would not be.
pub(crate) fn check_limits(first: &Song, second: &Song) -> Result<(), JoinFault>
    ensures found { IfErr result (IsRefusedFor first.now second.now) }
    ensures none { OnOk result (AreWithin first.now second.now) }
{
    for part in PARTS {
        let sum = sum_of(first, second, part);
        if sum > limit_of(part) {
            return Err(JoinFault::OverLimit { part, sum });
        }
    }
    Ok(())
}
