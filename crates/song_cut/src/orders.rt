//! How long orderlists are that name pieces.

ghost use Rattle.std.specs.Prelude.{◌≡◌, ◌+◌, ◌≤◌, ◌*◌, true, false, length, sum_by, IfSome, IfNone};
ghost use Rattle.std.specs.List.{list_all};
ghost use Rattle.pattern_cut.specs.Pieces.{played_orders};
ghost use Rattle.song_cut.specs.Marks.{orders_if_played};
ghost use Rattle.song_cut.specs.Tables.{IsShaped};
ghost use Rattle.song_cut.specs.Orders.{AreCounts, counted, fits_in, added, all_added};

use crate::seen::Ways;
use crate::table::PieceTable;
use song_model::{MOST_ENTRIES, Order, Song, Subtune};

/// For each byte of an orderlist how many stand for it: the pieces of a pattern; a repeat or a transpose is itself.
pub(crate) type PieceCounts = [u8; 256];

/// How many pieces each pattern has.
pub(crate) fn piece_counts(table: &PieceTable, ways: &Ways) -> PieceCounts
    requires { IsShaped table.now }
    ensures { AreCounts table.now ways.now result }
{
    let mut counts = [1; 256];
    for p in 0..208u8 {
        let numbers = table.numbers(ways[usize::from(p)], p);
        counts[usize::from(p)] = numbers.len() as u8;
    }
    counts
}

/// How many bytes stand for these bytes of an orderlist.
pub(crate) fn counted(entries: &[u8], counts: &PieceCounts) -> usize
    requires { length entries.now ≤ 254 }
    ensures length { result ≡ counted counts.now entries.now }
    ensures most { result ≤ 65535 }
{
    let mut sum = 0;
    for byte in entries {
        sum += usize::from(counts[usize::from(*byte)]);
    }
    sum
}

/// The lengths of orderlists.
#[derive(Clone, Copy)]
struct OrderLengths {
    /// None is longer than an orderlist may be.
    fit: bool,
    /// Their sum.
    sum: usize,
}

impl OrderLengths {
    /// Adds that of an orderlist.
    #[tactic(auto, unfolding(crate::specs::Orders::added))]
    fn add(&mut self, order: &Order, counts: &PieceCounts)
        requires room { self.old.sum ≤ 65535 * 99 }
        ensures lengths { self.new ≡ added counts.now self.old order.now }
        ensures most { self.new.sum ≤ self.old.sum + 65535 }
    {
        let length = counted(order.entries.as_slice(), counts);
        self.fit = self.fit && length <= MOST_ENTRIES;
        self.sum += length;
    }

    /// Adds those of a subtune that can be played.
    #[tactic(auto, unfolding(crate::specs::Orders::all_added))]
    fn add_subtune(&mut self, subtune: &Subtune, counts: &PieceCounts)
        requires room { self.old.sum ≤ 65535 * 96 }
        ensures lengths { self.new ≡ all_added counts.now self.old (orders_if_played subtune.now) }
        ensures most { self.new.sum ≤ self.old.sum + 65535 * 3 }
    {
        if subtune.is_playable() {
            self.add(&subtune.one, counts);
            self.add(&subtune.two, counts);
            self.add(&subtune.three, counts);
        }
    }
}

/// The sum of the lengths of the orderlists of playable subtunes; none where one is longer than an orderlist may be.
pub(crate) fn orders_length(song: &Song, counts: &PieceCounts) -> Option<usize>
    ensures some { IfSome result (λ n. (list_all (fits_in counts.now) (played_orders song.now) ≡ true)
        × (n ≡ sum_by (λ order. counted counts.now order.entries) (played_orders song.now))
        × (n ≤ 65535 * 96)) }
    ensures none { IfNone result
        (list_all (fits_in counts.now) (played_orders song.now) ≡ false) }
{
    let stored = song.subtunes.as_slice();
    let mut lengths = OrderLengths { fit: true, sum: 0 };
    for subtune in stored {
        lengths.add_subtune(subtune, counts);
    }
    if lengths.fit { Some(lengths.sum) } else { None }
}
