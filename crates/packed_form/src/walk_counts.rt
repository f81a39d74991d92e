//! How many bytes of an orderlist are passed on the way to a pattern.

ghost use Rattle.std.specs.Prelude.{◌≡◌, ◌≤◌, min, max, length};
ghost use Rattle.std.specs.List.{prefix_len};
ghost use Rattle.packed_form.specs.Unpacked.{end_place, unpacked_order, unpacked_subtune};
ghost use Rattle.packed_form.specs.WalkCount.{is_passed, looks_from, most_looks, subtune_looks, walk_count};

use crate::{MOST_ORDER_BYTES, PackedOrder, PackedSong, PackedSubtune};
use song_model::ENDMARK;

/// The first byte of an orderlist that is no pattern's number.
const FIRST_REPEAT: u8 = 0xd0;

impl PackedSong {
    /// The count of the walks of its orderlists, in looks at a byte: one more than the most bytes `$D0-$FF` that
    /// stand one behind the other on the way to a pattern's number, from any place of any orderlist. Behind the
    /// endmark, which is one of them, the way goes on at the restart position. It is 255 where that is more.
    #[tactic(auto, unfolding(crate::specs::WalkCount::walk_count))]
    pub fn walk_count(&self) -> u8
        ensures count { result ≡ min (walk_count self.now) 255 }
        ensures some { 1 ≤ result }
    {
        let mut most = 0;
        for subtune in self.subtunes.as_slice() {
            most = greater(most, subtune_looks(subtune));
        }
        if most < 255 { most as u8 + 1 } else { 255 }
    }
}

/// The most bytes that are passed from a place of an orderlist of the subtune.
fn subtune_looks(subtune: &PackedSubtune) -> u16
    ensures looks { result ≡ subtune_looks (unpacked_subtune subtune.now) }
{
    let one = order_looks(&subtune.one);
    let two = order_looks(&subtune.two);
    let three = order_looks(&subtune.three);
    greater(greater(one, two), three)
}

/// The most bytes that are passed from a place of the orderlist.
fn order_looks(order: &PackedOrder) -> u16
    ensures { result ≡ most_looks (unpacked_order order.now) }
{
    let bytes = order.as_slice();
    let end = end_place(bytes);
    let restart = match bytes.get(end + 1) {
        Some(byte) => *byte,
        None => 0,
    };
    most_looks(&bytes[..end], restart)
}

/// The place of the first endmark, or the length where there is none.
fn end_place(bytes: &[u8]) -> usize
    ensures place { result ≡ end_place bytes.now }
    ensures within { result ≤ length bytes.now }
{
    bytes.iter().take_while(|byte| **byte != ENDMARK).count()
}

/// The most bytes that are passed from a place of an orderlist with these entries.
fn most_looks(entries: &[u8], restart: u8) -> u16
    requires { length entries.now ≤ MOST_ORDER_BYTES }
    ensures { result ≡ most_looks (record { entries = entries.now; restart = restart }) }
{
    let mut looks = end_looks(entries, restart);
    let mut most = looks;
    for place in (0..entries.len()).rev() {
        looks = if entries[place] < FIRST_REPEAT {
            0
        } else {
            looks + 1
        };
        most = greater(most, looks);
    }
    most
}

/// How many bytes are passed from the endmark of an orderlist with these entries.
fn end_looks(entries: &[u8], restart: u8) -> u16
    requires { length entries.now ≤ MOST_ORDER_BYTES }
    ensures { let end = length entries.now in
        result ≡ looks_from (record { entries = entries.now; restart = restart }) end }
{
    let restart = usize::from(restart);
    if restart < entries.len() {
        1 + front_looks(&entries[restart..])
    } else {
        1
    }
}

/// How many bytes stand before the first pattern's number.
fn front_looks(bytes: &[u8]) -> u16
    requires { length bytes.now ≤ MOST_ORDER_BYTES }
    ensures looks { result ≡ prefix_len is_passed bytes.now }
    ensures most { result ≤ MOST_ORDER_BYTES }
{
    bytes
        .iter()
        .take_while(|byte| **byte >= FIRST_REPEAT)
        .count() as u16
}

/// The greater of two numbers.
fn greater(one: u16, other: u16) -> u16
    ensures { result ≡ max one other }
{
    if one < other { other } else { one }
}
