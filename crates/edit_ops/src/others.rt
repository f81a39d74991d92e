//! Edits of texts, and of how many subtunes and patterns a song has.

ghost use Rattle.std.specs.Prelude.{◌≡◌, true, false, ◌+◌, ◌-◌, ◌≤◌, ◌∷◌, ◌++◌, [], Some};
ghost use Rattle.std.specs.Prelude.{length, replicate, vec_capacity, IfOk, OnOk};
ghost use Rattle.std.specs.List.{remove};
ghost use Rattle.song_model.specs.LookUp.{void_order, void_subtune};
ghost use Rattle.edit_ops.specs.Lists.{resized};
ghost use Rattle.edit_ops.specs.Orders.{lacks_subtune};
ghost use Rattle.edit_ops.specs.Others.{lacks_text, with_text, has_subtunes, is_no_count, rest_pattern};
ghost use Rattle.edit_ops.specs.Splices.{whole_list};
ghost use Rattle.edit_ops.specs.Back.{back};
ghost use Rattle.edit_ops.specs.Does.{Does};

use crate::inverses::exchange_text;
use crate::patterns::REST;
use crate::{Inverse, Splice};
use song_model::{
    MOST_PATTERNS, MOST_SUBTUNES, NoMemory, Order, OrderEntries, Pattern, Song, Subtune,
};
use std::alloc::Global;

/// Whether there is no such text.
pub(crate) fn lacks_text(which: u8) -> bool
    ensures { result ≡ lacks_text which }
{
    which > 2
}

/// Sets a text. It takes no memory.
#[tactic(auto, unfolding(crate::specs::Back::back))]
pub(crate) fn set_text(song: &mut Song, which: u8, text: [u8; 32]) -> Result<Inverse, NoMemory>
    requires { lacks_text which ≡ false }
    ensures { Does result song.old song.new (with_text song.old which text) }
{
    let text = exchange_text(song, which, text);
    Ok(Inverse::Text { which, text })
}

/// Whether a song has so many subtunes.
pub(crate) fn has_subtunes(song: &Song, count: usize) -> bool
    ensures { result ≡ has_subtunes song.now count }
{
    song.subtunes.as_slice().len() == count
}

/// Whether a song can't have so many patterns.
pub(crate) fn is_no_count(count: u8) -> bool
    ensures { result ≡ is_no_count count }
{
    usize::from(count) > MOST_PATTERNS
}

/// An orderlist with nothing in it.
fn void_order(alloc: Global) -> Order
    ensures { result ≡ void_order }
{
    Order {
        entries: OrderEntries::from_vec(Vec::new(alloc)),
        restart: 0,
    }
}

/// A subtune of three empty orderlists.
fn void_subtune(alloc: Global) -> Subtune
    ensures { result ≡ void_subtune }
{
    Subtune {
        one: void_order(alloc),
        two: void_order(alloc),
        three: void_order(alloc),
    }
}

/// Puts subtunes in place of others, and answers the way back. It takes no memory.
fn splice_subtunes(song: &mut Song, splice: Splice<Subtune>) -> Inverse
    requires places { splice.at + splice.count ≤ length song.old.subtunes }
    requires limit { length (whole_list song.old.subtunes splice) ≤ MOST_SUBTUNES }
    requires room { length (whole_list song.old.subtunes splice) ≤ vec_capacity splice.items }
    ensures after { song.new ≡
        record song.old { subtunes = whole_list song.old.subtunes splice } }
    ensures back { back song.new result ≡ Some song.old }
{
    Inverse::Subtunes(splice.put(&mut song.subtunes))
}

/// Puts patterns in place of others, and answers the way back. It takes no memory.
fn splice_patterns(song: &mut Song, splice: Splice<Pattern>) -> Inverse
    requires places { splice.at + splice.count ≤ length song.old.patterns }
    requires limit { length (whole_list song.old.patterns splice) ≤ MOST_PATTERNS }
    requires room { length (whole_list song.old.patterns splice) ≤ vec_capacity splice.items }
    ensures after { song.new ≡
        record song.old { patterns = whole_list song.old.patterns splice } }
    ensures back { back song.new result ≡ Some song.old }
{
    Inverse::Patterns(splice.put(&mut song.patterns))
}

/// Adds a subtune of three empty orderlists.
///
/// # Errors
///
/// Out of memory. The song is as before.
pub(crate) fn add_subtune(alloc: Global, song: &mut Song) -> Result<Inverse, NoMemory>
    requires { has_subtunes song.old 32 ≡ false }
    ensures { Does result song.old song.new
        (record song.old { subtunes = song.old.subtunes ++ void_subtune ∷ [] }) }
{
    let stored = song.subtunes.as_slice().len();
    let mut items = Vec::with_capacity(alloc, stored + 1)?;
    items.push_reserved(void_subtune(alloc));
    let splice = Splice {
        at: stored,
        count: 0,
        items,
    };
    Ok(splice_subtunes(song, splice))
}

/// Removes a subtune.
///
/// # Errors
///
/// Out of memory. The song is as before.
pub(crate) fn remove_subtune(
    alloc: Global,
    song: &mut Song,
    subtune: u8,
) -> Result<Inverse, NoMemory>
    requires { lacks_subtune song.old subtune ≡ false }
    ensures { Does result song.old song.new
        (record song.old { subtunes = remove song.old.subtunes (subtune - 1) }) }
{
    let splice = Splice {
        at: usize::from(subtune) - 1,
        count: 1,
        items: Vec::with_capacity(alloc, song.subtunes.as_slice().len())?,
    };
    Ok(splice_subtunes(song, splice))
}

/// A pattern of 64 rests.
///
/// # Errors
///
/// Out of memory.
fn rest_pattern(alloc: Global) -> Result<Pattern, NoMemory>
    ensures { IfOk result (λ pattern. pattern ≡ rest_pattern) }
{
    let mut rows = Vec::new(alloc);
    rows.resize(64, REST)?;
    Ok(Pattern::from_vec(rows))
}

/// Adds so many patterns of 64 rests to the end of a list.
///
/// # Errors
///
/// Out of memory.
fn add_rests(alloc: Global, list: &mut Vec<Pattern>, count: usize) -> Result<(), NoMemory>
    ensures added { OnOk result (list.new.items ≡ list.old.items ++ replicate count rest_pattern) }
    ensures room { vec_capacity list.old ≤ vec_capacity list.new }
{
    for _i in 0..count {
        list.push(rest_pattern(alloc)?)?;
    }
    Ok(())
}

/// Cuts the patterns to so many, or adds patterns of 64 rests.
///
/// # Errors
///
/// Out of memory. The song is as before.
pub(crate) fn set_pattern_count(
    alloc: Global,
    song: &mut Song,
    count: u8,
) -> Result<Inverse, NoMemory>
    requires { is_no_count count ≡ false }
    ensures { Does result song.old song.new
        (record song.old { patterns = resized count rest_pattern song.old.patterns }) }
{
    let count = usize::from(count);
    let stored = song.patterns.as_slice().len();
    let kept = count.min(stored);
    let mut items = Vec::with_capacity(alloc, count)?;
    add_rests(alloc, &mut items, count - kept)?;
    let splice = Splice {
        at: kept,
        count: stored - kept,
        items,
    };
    Ok(splice_patterns(song, splice))
}
