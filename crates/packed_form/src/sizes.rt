//! How many bytes a packed song has in memory.

ghost use Rattle.std.specs.Prelude.{◌≡◌, ◌≤◌, ◌*◌, ◌+◌, length, sum_by};
ghost use Rattle.packed_form.specs.Sizes.{list_size, subtune_size, packed_song_size};

use crate::packed_songs::{PackedPatternList, PackedSubtuneList};
use crate::{PackedOrder, PackedPattern, PackedSong, PackedSubtune};
use song_model::Table;

/// The most bytes of a packed song.
pub const MOST_PACKED_SIZE: u32 = 81_039;

impl PackedSong {
    /// How many bytes the packed song has in memory: the bytes of its orderlists and patterns and two for the address
    /// of each, nine of an instrument, two of a table's row.
    pub fn size(&self) -> u32
        ensures size { result ≡ packed_song_size self.now }
        ensures most { result ≤ MOST_PACKED_SIZE }
    {
        let instruments = self.instruments.as_slice();
        subtunes_size(&self.subtunes)
            + patterns_size(&self.patterns)
            + 9 * instruments.len() as u32
            + table_size(&self.wave)
            + table_size(&self.pulse)
            + table_size(&self.filter)
            + table_size(&self.speed)
    }
}

/// The size of a table.
fn table_size(table: &Table) -> u32
    ensures size { result ≡ 2 * length table.now }
    ensures most { result ≤ 510 }
{
    2 * table.as_slice().len() as u32
}

/// The size of a packed orderlist.
fn order_size(order: &PackedOrder) -> u32
    ensures size { result ≡ list_size order.now }
    ensures most { result ≤ 258 }
{
    order.as_slice().len() as u32 + 2
}

/// The size of the orderlists of a subtune.
fn subtune_size(subtune: &PackedSubtune) -> u32
    ensures size { result ≡ subtune_size subtune.now }
    ensures most { result ≤ 774 }
{
    order_size(&subtune.one) + order_size(&subtune.two) + order_size(&subtune.three)
}

/// The size of the orderlists of all subtunes.
fn subtunes_size(subtunes: &PackedSubtuneList) -> u32
    ensures size { result ≡ sum_by subtune_size subtunes.now }
    ensures most { result ≤ 24_768 }
{
    let mut size = 0;
    for subtune in subtunes.as_slice() {
        size += subtune_size(subtune);
    }
    size
}

/// The size of a packed pattern.
fn pattern_size(pattern: &PackedPattern) -> u32
    ensures size { result ≡ list_size pattern.now }
    ensures most { result ≤ 258 }
{
    pattern.as_slice().len() as u32 + 2
}

/// The size of all patterns.
fn patterns_size(patterns: &PackedPatternList) -> u32
    ensures size { result ≡ sum_by list_size patterns.now }
    ensures most { result ≤ 53_664 }
{
    let mut size = 0;
    for pattern in patterns.as_slice() {
        size += pattern_size(pattern);
    }
    size
}
