//! Whether the two songs store the instruments and the rows of the speed table that they use.

ghost use Rattle.std.specs.Prelude.{◌≡◌, ◌≤◌, length, IfSome, IfNone, IfErr, OnOk};
ghost use Rattle.usage.specs.Parts.{AreUsedParts};
ghost use Rattle.song_join.specs.Limits.{AreWithin};
ghost use Rattle.song_join.specs.Loose.{IsLooseInstrument, IsLooseSpeed, NothingIsLoose};
ghost use Rattle.song_join.specs.Refusals.{IsRefusedFor};
ghost use Rattle.song_join.specs.Parts.{IsFirstAbove, NoneAbove};

use crate::JoinFault;
use song_model::Song;
use usage::UsedParts;

/// The least marked number above the stored ones, which count from 1.
fn first_above(marks: &[bool], stored: usize) -> Option<u8>
    requires few { length marks.now ≤ 256 }
    requires stored { stored ≤ 255 }
    ensures found { IfSome result (IsFirstAbove marks.now stored) }
    ensures none { IfNone result (NoneAbove marks.now stored) }
{
    for n in stored + 1..marks.len() {
        if marks[n] {
            return Some(n as u8);
        }
    }
    None
}

/// Looks whether each used instrument is stored.
///
/// # Errors
///
/// The first one that isn't, song by song.
pub(crate) fn check_instruments(
    first: &Song,
    second: &Song,
    first_parts: &UsedParts,
    second_parts: &UsedParts,
) -> Result<(), JoinFault>
    requires first_parts { AreUsedParts first.now first_parts.now }
    requires second_parts { AreUsedParts second.now second_parts.now }
    requires within { AreWithin first.now second.now }
    ensures found { IfErr result (IsRefusedFor first.now second.now) }
    ensures none { OnOk result (NothingIsLoose IsLooseInstrument first.now second.now) }
{
    let first_stored = first.instruments.as_slice().len();
    if let Some(instrument) = first_above(&first_parts.instruments, first_stored) {
        return Err(JoinFault::LooseInstrument {
            song: 1,
            instrument,
        });
    }
    let second_stored = second.instruments.as_slice().len();
    if let Some(instrument) = first_above(&second_parts.instruments, second_stored) {
        return Err(JoinFault::LooseInstrument {
            song: 2,
            instrument,
        });
    }
    Ok(())
}

/// Looks whether each used row of the speed table is stored.
///
/// # Errors
///
/// The first one that isn't, song by song.
pub(crate) fn check_speeds(
    first: &Song,
    second: &Song,
    first_parts: &UsedParts,
    second_parts: &UsedParts,
) -> Result<(), JoinFault>
    requires first_parts { AreUsedParts first.now first_parts.now }
    requires second_parts { AreUsedParts second.now second_parts.now }
    requires within { AreWithin first.now second.now }
    requires instruments { NothingIsLoose IsLooseInstrument first.now second.now }
    ensures found { IfErr result (IsRefusedFor first.now second.now) }
    ensures none { OnOk result (NothingIsLoose IsLooseSpeed first.now second.now) }
{
    let first_stored = first.speed.as_slice().len();
    if let Some(row) = first_above(&first_parts.speed, first_stored) {
        return Err(JoinFault::LooseSpeed { song: 1, row });
    }
    let second_stored = second.speed.as_slice().len();
    if let Some(row) = first_above(&second_parts.speed, second_stored) {
        return Err(JoinFault::LooseSpeed { song: 2, row });
    }
    Ok(())
}
