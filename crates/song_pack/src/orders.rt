//! The subtunes of a packed song.

ghost use Rattle.std.specs.Prelude.{◌≡◌, IfOk, map, slice_index};
ghost use Rattle.song_model.specs.LookUp.{playable_subtunes};
ghost use Rattle.song_pack.specs.Packed.{order_byte, order_bytes, packed_subtune};

use base::NoMemory;
use packed_form::{PackedOrder, PackedSubtune, PackedSubtuneList};
use song_model::{Bounded, ENDMARK, Order, Song, Subtune};
use std::alloc::Global;

/// The first byte of an orderlist that is no pattern's number.
const FIRST_REPEAT: u8 = 0xd0;

/// The new numbers of patterns, by the old ones; 0 for one that isn't used.
pub(crate) type PatternNumbers = [u8; 208];

/// The playable subtunes of a song, in order, with new numbers for their patterns.
///
/// # Errors
///
/// Out of memory.
pub(crate) fn packed_subtunes(
    alloc: Global,
    song: &Song,
    numbers: &PatternNumbers,
) -> Result<PackedSubtuneList, NoMemory>
    ensures { IfOk result (λ list. list ≡
        map (packed_subtune (slice_index numbers.now)) (playable_subtunes song.now)) }
{
    let stored = song.subtunes.as_slice();
    let mut list = Vec::new(alloc);
    for subtune in stored {
        if subtune.is_playable() {
            list.push(packed_subtune(alloc, subtune, numbers)?)?;
        }
    }
    Ok(Bounded::from_vec(list))
}

/// The three orderlists of a subtune.
///
/// # Errors
///
/// Out of memory.
fn packed_subtune(
    alloc: Global,
    subtune: &Subtune,
    numbers: &PatternNumbers,
) -> Result<PackedSubtune, NoMemory>
    ensures { IfOk result (λ packed. packed ≡ packed_subtune (slice_index numbers.now) subtune.now) }
{
    Ok(PackedSubtune {
        one: packed_order(alloc, &subtune.one, numbers)?,
        two: packed_order(alloc, &subtune.two, numbers)?,
        three: packed_order(alloc, &subtune.three, numbers)?,
    })
}

/// The entries of an orderlist with new numbers for its patterns, the endmark and the restart position.
///
/// # Errors
///
/// Out of memory.
fn packed_order(
    alloc: Global,
    order: &Order,
    numbers: &PatternNumbers,
) -> Result<PackedOrder, NoMemory>
    ensures { IfOk result (λ packed. packed ≡ order_bytes (slice_index numbers.now) order.now) }
{
    let stored = order.entries.as_slice();
    let mut bytes = Vec::new(alloc);
    for byte in stored {
        bytes.push(order_byte(*byte, numbers))?;
    }
    bytes.push(ENDMARK)?;
    bytes.push(order.restart)?;
    Ok(Bounded::from_vec(bytes))
}

/// An entry of an orderlist, where it is a pattern's number the new one.
fn order_byte(byte: u8, numbers: &PatternNumbers) -> u8
    ensures { result ≡ order_byte (slice_index numbers.now) byte }
{
    if byte < FIRST_REPEAT {
        numbers[usize::from(byte)]
    } else {
        byte
    }
}
