//! The addresses of the first subtune's orderlists.

ghost use Rattle.std.specs.Prelude.{◌≡◌, ◌+◌, ◌≤◌, slice_index, All, IfOk};
ghost use Rattle.song_lists.specs.DataLists.{AreFirstOrders};
ghost use Rattle.song_lists.specs.ListLaws.{lists_size};

use crate::places::text_places;
use base::NoMemory;
use packed_form::PackedSong;
use std::alloc::Global;

/// The address of a place of a list, or `start` where the list has no such place.
fn address_at(start: u16, places: &[u16], voice: usize) -> u16
    requires { All (λ place. start + place ≤ 65535) places.now }
    ensures { result ≡ start + slice_index places.now voice }
{
    match places.get(voice) {
        Some(place) => start + *place,
        None => start,
    }
}

/// The addresses of the three orderlists of the first subtune, where the first byte of the lists stands at `start`, and
/// all of them below `$D000`. Of a packed song without a subtune each of them is `start`.
///
/// # Errors
///
/// Out of memory.
pub fn first_orders(
    alloc: Global,
    packed: &PackedSong,
    start: u16,
    dependent: bool,
) -> Result<[u16; 3], NoMemory>
    requires { start + lists_size dependent packed.now ≤ 0xD000 }
    ensures { IfOk result (AreFirstOrders dependent packed.now start) }
{
    let (orders, _) = text_places(alloc, packed, dependent)?;
    let places = orders.as_slice();
    Ok([
        address_at(start, places, 0),
        address_at(start, places, 1),
        address_at(start, places, 2),
    ])
}
