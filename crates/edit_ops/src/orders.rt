//! Edits of orderlists.

ghost use Rattle.std.specs.Prelude.{◌≡◌, true, false, ◌-◌, ◌<◌, ◌≤◌, length, slice_set, Some};
ghost use Rattle.std.specs.List.{insert, remove};
ghost use Rattle.song_model.specs.OrderLimits.{AreEntries};
ghost use Rattle.song_model.specs.LookUp.{order_of};
ghost use Rattle.edit_ops.specs.Orders.{lacks_subtune, lacks_order, lacks_entry, lacks_entry_gap, has_entries};
ghost use Rattle.edit_ops.specs.Orders.{is_endmark, subtune_at, order_at, with_channel, with_order, with_entries};
ghost use Rattle.edit_ops.specs.Orders.{with_restart};
ghost use Rattle.edit_ops.specs.Back.{back};
ghost use Rattle.edit_ops.specs.Does.{Does};

use crate::Inverse;
use crate::lists::{inserted, removed, with_item};
use song_model::{ENDMARK, NoMemory, Order, OrderEntries, Song, Subtune, SubtuneList};
use std::alloc::Global;
use std::mem;

/// Whether a subtune, counted from 1, isn't stored.
pub(crate) fn lacks_subtune(song: &Song, subtune: u8) -> bool
    ensures { result ≡ lacks_subtune song.now subtune }
{
    subtune == 0 || usize::from(subtune) > song.subtunes.as_slice().len()
}

/// Whether there is no such subtune or channel.
pub(crate) fn lacks_order(song: &Song, subtune: u8, channel: u8) -> bool
    ensures { result ≡ lacks_order song.now subtune channel }
{
    lacks_subtune(song, subtune) || channel == 0 || channel > 3
}

/// The subtune with this number.
fn subtune_at(song: &Song, subtune: u8) -> &Subtune
    requires { lacks_subtune song.now subtune ≡ false }
    ensures { result.now ≡ subtune_at song.now subtune }
{
    &song.subtunes.as_slice()[usize::from(subtune) - 1]
}

/// The orderlist of a subtune's channel.
fn order_at(song: &Song, subtune: u8, channel: u8) -> &Order
    requires { lacks_order song.now subtune channel ≡ false }
    ensures { result.now ≡ order_at song.now subtune channel }
{
    let subtune = subtune_at(song, subtune);
    match channel {
        1 => &subtune.one,
        2 => &subtune.two,
        _ => &subtune.three,
    }
}

/// The entries of an orderlist.
fn entries_at(song: &Song, subtune: u8, channel: u8) -> &[u8]
    requires { lacks_order song.now subtune channel ≡ false }
    ensures entries { result.now ≡ (order_at song.now subtune channel).entries }
    ensures limits { AreEntries result.now }
{
    order_at(song, subtune, channel).entries.as_slice()
}

/// Whether no entry stands at a place of an orderlist.
pub(crate) fn lacks_entry(song: &Song, subtune: u8, channel: u8, place: u8) -> bool
    ensures { result ≡ lacks_entry song.now subtune channel place }
{
    lacks_order(song, subtune, channel)
        || usize::from(place) >= entries_at(song, subtune, channel).len()
}

/// Whether no entry can be put before a place of an orderlist.
pub(crate) fn lacks_entry_gap(song: &Song, subtune: u8, channel: u8, place: u8) -> bool
    ensures { result ≡ lacks_entry_gap song.now subtune channel place }
{
    lacks_order(song, subtune, channel)
        || usize::from(place) > entries_at(song, subtune, channel).len()
}

/// Whether an orderlist that is there has so many entries.
pub(crate) fn has_entries(song: &Song, subtune: u8, channel: u8, count: usize) -> bool
    requires { lacks_order song.now subtune channel ≡ false }
    ensures { result ≡ has_entries song.now subtune channel count }
{
    entries_at(song, subtune, channel).len() == count
}

/// Whether a byte is the endmark, which is no entry.
pub(crate) fn is_endmark(entry: u8) -> bool
    ensures { result ≡ is_endmark entry }
{
    entry == ENDMARK
}

/// Puts an orderlist on a channel of a subtune, and answers the one that stood there.
fn exchange_channel(subtune: &mut Subtune, channel: u8, order: Order) -> Order
    ensures after { subtune.new ≡ with_channel subtune.old channel order }
    ensures before { result ≡ order_of channel subtune.old }
{
    match channel {
        1 => mem::replace(&mut subtune.one, order),
        2 => mem::replace(&mut subtune.two, order),
        _ => mem::replace(&mut subtune.three, order),
    }
}

/// Puts an orderlist in place of one, and answers that one.
fn exchange_order(song: &mut Song, subtune: u8, channel: u8, order: Order) -> Order
    requires { lacks_order song.old subtune channel ≡ false }
    ensures after { song.new ≡ with_order song.old subtune channel order }
    ensures before { result ≡ order_at song.old subtune channel }
{
    let mut subtunes = song.subtunes.take();
    let before = exchange_channel(&mut subtunes[usize::from(subtune) - 1], channel, order);
    song.subtunes = SubtuneList::from_vec(subtunes);
    before
}

/// Puts an orderlist in place of one, and answers the way back. It takes no memory.
pub(crate) fn put_order(song: &mut Song, subtune: u8, channel: u8, order: Order) -> Inverse
    requires { lacks_order song.old subtune channel ≡ false }
    ensures after { song.new ≡ with_order song.old subtune channel order }
    ensures back { back song.new result ≡ Some song.old }
{
    let order = exchange_order(song, subtune, channel, order);
    Inverse::OneOrder {
        subtune,
        channel,
        order,
    }
}

/// Puts entries in place of those of an orderlist. It takes no memory.
fn put_entries(song: &mut Song, subtune: u8, channel: u8, entries: Vec<u8>) -> Inverse
    requires place { lacks_order song.old subtune channel ≡ false }
    requires limits { AreEntries entries.items }
    ensures after { song.new ≡ with_entries song.old subtune channel entries.items }
    ensures back { back song.new result ≡ Some song.old }
{
    let order = Order {
        entries: OrderEntries::from_vec(entries),
        restart: order_at(song, subtune, channel).restart,
    };
    put_order(song, subtune, channel, order)
}

/// Sets an entry of an orderlist.
///
/// # Errors
///
/// Out of memory. The song is as before.
pub(crate) fn set_order(
    alloc: Global,
    song: &mut Song,
    subtune: u8,
    channel: u8,
    place: u8,
    entry: u8,
) -> Result<Inverse, NoMemory>
    requires place { lacks_entry song.old subtune channel place ≡ false }
    requires value { is_endmark entry ≡ false }
    ensures { Does result song.old song.new (with_entries song.old subtune channel
        (slice_set (order_at song.old subtune channel).entries place entry)) }
{
    let stored = entries_at(song, subtune, channel);
    let entries = with_item(alloc, stored, usize::from(place), entry)?;
    Ok(put_entries(song, subtune, channel, entries))
}

/// Inserts an entry before a place of an orderlist.
///
/// # Errors
///
/// Out of memory. The song is as before.
pub(crate) fn insert_order(
    alloc: Global,
    song: &mut Song,
    subtune: u8,
    channel: u8,
    place: u8,
    entry: u8,
) -> Result<Inverse, NoMemory>
    requires place { lacks_entry_gap song.old subtune channel place ≡ false }
    requires limit { has_entries song.old subtune channel 254 ≡ false }
    requires value { is_endmark entry ≡ false }
    ensures { Does result song.old song.new (with_entries song.old subtune channel
        (insert (order_at song.old subtune channel).entries place entry)) }
{
    let stored = entries_at(song, subtune, channel);
    let entries = inserted(alloc, stored, usize::from(place), entry)?;
    Ok(put_entries(song, subtune, channel, entries))
}

/// Deletes an entry of an orderlist.
///
/// # Errors
///
/// Out of memory. The song is as before.
pub(crate) fn delete_order(
    alloc: Global,
    song: &mut Song,
    subtune: u8,
    channel: u8,
    place: u8,
) -> Result<Inverse, NoMemory>
    requires { lacks_entry song.old subtune channel place ≡ false }
    ensures { Does result song.old song.new (with_entries song.old subtune channel
        (remove (order_at song.old subtune channel).entries place)) }
{
    let stored = entries_at(song, subtune, channel);
    let entries = removed(alloc, stored, usize::from(place))?;
    Ok(put_entries(song, subtune, channel, entries))
}

/// Sets the restart position of an orderlist.
///
/// # Errors
///
/// Out of memory. The song is as before.
pub(crate) fn set_restart(
    alloc: Global,
    song: &mut Song,
    subtune: u8,
    channel: u8,
    restart: u8,
) -> Result<Inverse, NoMemory>
    requires { lacks_order song.old subtune channel ≡ false }
    ensures { Does result song.old song.new (with_restart song.old subtune channel restart) }
{
    let entries = order_at(song, subtune, channel).entries.copy(alloc)?;
    let order = Order { entries, restart };
    Ok(put_order(song, subtune, channel, order))
}
