//! What a song weighs whose patterns are cut.

ghost use Rattle.std.specs.Prelude.{◌≡◌, ℕ, ◌*◌, ◌<◌, ◌≤◌, length, All};
ghost use Rattle.std.specs.List.{sum_by};
ghost use Rattle.song_model.specs.Limits.{KeepsLimits};
ghost use Rattle.pattern_cut.specs.Choice.{cut_weight};
ghost use Rattle.song_cut.specs.Numbers.{weight_at};
ghost use Rattle.song_cut.specs.Tables.{IsTableOf};

use crate::orders::{orders_length, piece_counts};
use crate::seen::{Ways, distinct_pieces};
use crate::table::PieceTable;
use song_model::Song;

/// More than any song weighs that fits.
const TOO_HEAVY: usize = 0x10_0000;

/// What these pieces weigh.
fn pieces_weight(table: &PieceTable, order: &[u16]) -> usize
    requires inside { All (λ (k : ℕ). k < length table.now.pieces.items) order.now }
    requires few { length order.now ≤ 208 }
    ensures weight { result ≡ sum_by (weight_at table.now.pieces.items) order.now }
    ensures most { result ≤ 65535 * 208 }
{
    let pieces = table.pieces.as_slice();
    let mut sum = 0;
    for number in order {
        sum += usize::from(pieces[usize::from(*number)].weight);
    }
    sum
}

/// What the song weighs whose patterns have pieces of these lengths.
pub(crate) fn cut_weight(song: &Song, table: &PieceTable, ways: &Ways) -> usize
    requires limits { KeepsLimits song.now }
    requires table { IsTableOf song.now table.now }
    ensures { result ≡ cut_weight song.now ways.now }
{
    let Some(order) = distinct_pieces(table, ways) else {
        return TOO_HEAVY;
    };
    match orders_length(song, &piece_counts(table, ways)) {
        Some(length) => length + pieces_weight(table, order.as_slice()),
        None => TOO_HEAVY,
    }
}
