//! The lists of the joined song: those of the first song, and behind them those of the second under new numbers.

ghost use Rattle.std.specs.Prelude.{◌≡◌, map, length, IfOk};
ghost use Rattle.song_model.specs.LookUp.{playable_subtunes};
ghost use Rattle.play_model.specs.Playable.{IsPlayable};
ghost use Rattle.same_frames.specs.OrderLaws.{moved_order, moved_subtune};
ghost use Rattle.song_join.specs.Numbers.{new_numbers};
ghost use Rattle.song_join.specs.Joined.{moved_pattern_row, joined_subtunes, joined_instruments, joined_rows, joined_patterns};
ghost use Rattle.song_join.specs.Limits.{AreWithin};
ghost use Rattle.song_join.specs.Parts.{NamesStored, SubtuneNamesStored};

use crate::numbers::{moved_byte, moved_instrument, moved_pattern_row, moved_table_row};
use song_model::{
    InstrumentList, NoMemory, Order, OrderEntries, Pattern, PatternList, Song, Subtune,
    SubtuneList, Table, TableName,
};
use std::alloc::Global;

/// The instruments of the joined song.
///
/// # Errors
///
/// Out of memory.
pub(crate) fn joined_instruments(
    alloc: Global,
    first: &Song,
    second: &Song,
) -> Result<InstrumentList, NoMemory>
    requires { AreWithin first.now second.now }
    ensures { IfOk result (λ list. list ≡ joined_instruments first.now second.now) }
{
    let stored = second.instruments.as_slice();
    let mut list = Vec::from_slice(alloc, first.instruments.as_slice())?;
    for instrument in stored {
        list.push(moved_instrument(first, second, *instrument))?;
    }
    Ok(InstrumentList::from_vec(list))
}

/// A table of the joined song.
///
/// # Errors
///
/// Out of memory.
pub(crate) fn joined_table(
    alloc: Global,
    first: &Song,
    second: &Song,
    name: TableName,
) -> Result<Table, NoMemory>
    requires { AreWithin first.now second.now }
    ensures { IfOk result (λ table. table ≡ joined_rows first.now second.now name) }
{
    let stored = second.table(name).as_slice();
    let mut list = Vec::from_slice(alloc, first.table(name).as_slice())?;
    for row in stored {
        list.push(moved_table_row(first, second, name, *row))?;
    }
    Ok(Table::from_vec(list))
}

/// The first song's patterns.
///
/// # Errors
///
/// Out of memory.
fn copied_patterns(alloc: Global, song: &Song) -> Result<Vec<Pattern>, NoMemory>
    ensures { IfOk result (λ list. list.items ≡ song.now.patterns) }
{
    let stored = song.patterns.as_slice();
    let mut list = Vec::new(alloc);
    for pattern in stored {
        list.push(pattern.copy(alloc)?)?;
    }
    Ok(list)
}

/// A pattern of the second song with its instruments and pointers moved.
///
/// # Errors
///
/// Out of memory.
fn moved_pattern(
    alloc: Global,
    first: &Song,
    second: &Song,
    pattern: &Pattern,
) -> Result<Pattern, NoMemory>
    requires { AreWithin first.now second.now }
    ensures { IfOk result (λ moved. moved ≡
        map (moved_pattern_row (new_numbers first.now second.now)) pattern.now) }
{
    let stored = pattern.as_slice();
    let mut rows = Vec::new(alloc);
    for row in stored {
        rows.push(moved_pattern_row(first, second, *row))?;
    }
    Ok(Pattern::from_vec(rows))
}

/// The patterns of the joined song.
///
/// # Errors
///
/// Out of memory.
pub(crate) fn joined_patterns(
    alloc: Global,
    first: &Song,
    second: &Song,
) -> Result<PatternList, NoMemory>
    requires { AreWithin first.now second.now }
    ensures { IfOk result (λ list. list ≡ joined_patterns first.now second.now) }
{
    let stored = second.patterns.as_slice();
    let mut list = copied_patterns(alloc, first)?;
    for pattern in stored {
        list.push(moved_pattern(alloc, first, second, pattern)?)?;
    }
    Ok(PatternList::from_vec(list))
}

/// An orderlist of the second song with its patterns moved.
///
/// # Errors
///
/// Out of memory.
fn moved_order(alloc: Global, first: &Song, second: &Song, order: &Order) -> Result<Order, NoMemory>
    requires within { AreWithin first.now second.now }
    requires stored { NamesStored (length second.now.patterns) order.now.entries }
    ensures { IfOk result (λ moved. moved ≡
        moved_order (new_numbers first.now second.now) order.now) }
{
    let stored = order.entries.as_slice();
    let mut bytes = Vec::new(alloc);
    for byte in stored {
        bytes.push(moved_byte(first, second, *byte))?;
    }
    Ok(Order {
        entries: OrderEntries::from_vec(bytes),
        restart: order.restart,
    })
}

/// A subtune of the second song with its patterns moved.
///
/// # Errors
///
/// Out of memory.
fn moved_subtune(
    alloc: Global,
    first: &Song,
    second: &Song,
    subtune: &Subtune,
) -> Result<Subtune, NoMemory>
    requires within { AreWithin first.now second.now }
    requires stored { SubtuneNamesStored (length second.now.patterns) subtune.now }
    ensures { IfOk result (λ moved. moved ≡
        moved_subtune (new_numbers first.now second.now) subtune.now) }
{
    Ok(Subtune {
        one: moved_order(alloc, first, second, &subtune.one)?,
        two: moved_order(alloc, first, second, &subtune.two)?,
        three: moved_order(alloc, first, second, &subtune.three)?,
    })
}

/// The first song's subtunes.
///
/// # Errors
///
/// Out of memory.
fn copied_subtunes(alloc: Global, song: &Song) -> Result<Vec<Subtune>, NoMemory>
    ensures { IfOk result (λ list. list.items ≡ song.now.subtunes) }
{
    let stored = song.subtunes.as_slice();
    let mut list = Vec::new(alloc);
    for subtune in stored {
        list.push(subtune.copy(alloc)?)?;
    }
    Ok(list)
}

/// The subtunes of the joined song.
///
/// # Errors
///
/// Out of memory.
pub(crate) fn joined_subtunes(
    alloc: Global,
    first: &Song,
    second: &Song,
) -> Result<SubtuneList, NoMemory>
    requires within { AreWithin first.now second.now }
    requires playable { IsPlayable second.now }
    ensures { IfOk result (λ list. list ≡ joined_subtunes first.now second.now) }
{
    let stored = second.subtunes.as_slice();
    let mut list = copied_subtunes(alloc, first)?;
    for subtune in stored {
        if subtune.is_playable() {
            list.push(moved_subtune(alloc, first, second, subtune)?)?;
        }
    }
    Ok(SubtuneList::from_vec(list))
}
