//! The listing of a packed song's lists.

ghost use Rattle.std.specs.Prelude.{◌≡◌, ◌+◌, ◌≤◌, All, IfOk};
ghost use Rattle.song_lists.specs.DataLists.{HasLines};
ghost use Rattle.song_lists.specs.ListLaws.{lists_size};

use crate::bytes::data_bytes;
use crate::labels::data_marks;
use crate::marks::{cut, sorted};
use crate::places::text_places;
use asm6502::Listing;
use base::NoMemory;
use packed_form::PackedSong;
use std::alloc::Global;

/// The lists of a packed song and its frequencies as lines of a listing, with their labels, and with the lists of
/// calculated speeds where these are kept (`dependent`). The first byte is to stand at `start`, and all of them below
/// `$D000`. The listing takes two bytes, those that are read of the packed song or stand alone for all its instruments,
/// where calculated speeds are kept three for each row of the speed table and row 0, those of the gap, and two for each
/// number that the song asks for.
///
/// # Errors
///
/// Out of memory.
pub fn data_listing(
    alloc: Global,
    packed: &PackedSong,
    start: u16,
    dependent: bool,
) -> Result<Listing, NoMemory>
    requires { start + lists_size dependent packed.now ≤ 0xD000 }
    ensures { IfOk result (HasLines dependent packed.now start) }
{
    let (orders, patterns) = text_places(alloc, packed, dependent)?;
    let places = (orders.as_slice(), patterns.as_slice());
    let bytes = data_bytes(alloc, packed, start, dependent, places)?;
    let marks = sorted(data_marks(alloc, packed, dependent, places)?)?;
    cut(alloc, bytes.as_slice(), marks.as_slice())
}
