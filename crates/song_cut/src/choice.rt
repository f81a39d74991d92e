//! The lengths of the pieces with which a song is lightest.

ghost use Rattle.std.specs.Prelude.{◌≡◌, ℕ, ◌<◌, List, [], ◌∷◌, slice_set};
ghost use Rattle.pattern_cut.specs.declared.lengths.PieceLength.{PieceLength as Size};
ghost use Rattle.song_model.specs.Limits.{KeepsLimits};
ghost use Rattle.pattern_cut.specs.Choice.{cut_weight, lighter, lightest, settled, settled_from, chosen_ways};
ghost use Rattle.song_cut.specs.Tables.{IsTableOf};

use crate::seen::Ways;
use crate::table::PieceTable;
use crate::weights::cut_weight;
use pattern_cut::PieceLength;
use song_model::{MOST_PATTERNS, Song};

/// Lengths, with what the song weighs whose patterns are cut by them.
#[derive(Clone, Copy)]
struct Candidate {
    /// The lengths.
    ways: Ways,
    /// What the song weighs.
    weight: usize,
}

impl Candidate {
    /// These lengths.
    fn of(song: &Song, table: &PieceTable, ways: Ways) -> Candidate
        requires limits { KeepsLimits song.now }
        requires table { IsTableOf song.now table.now }
        ensures ways { result.ways ≡ ways }
        ensures weight { result.weight ≡ cut_weight song.now result.ways }
    {
        let weight = cut_weight(song, table, &ways);
        Candidate { ways, weight }
    }

    /// The other one, where it is lighter.
    fn or_lighter(self, other: Candidate) -> Candidate
        ensures { (weighs : List Size → ℕ) → self.weight ≡ weighs self.ways →
            other.weight ≡ weighs other.ways →
            (result.ways ≡ lighter weighs self.ways other.ways) × (result.weight ≡ weighs result.ways) }
    {
        if other.weight < self.weight {
            other
        } else {
            self
        }
    }
}

/// The lightest of these lengths, the first of those.
fn lightest(
    song: &Song,
    table: &PieceTable,
    whole: Ways,
    rows64: Ways,
    rows32: Ways,
    rows16: Ways,
    rows8: Ways,
) -> Ways
    requires limits { KeepsLimits song.now }
    requires table { IsTableOf song.now table.now }
    ensures { result ≡ lightest (cut_weight song.now) whole
        (rows64 ∷ rows32 ∷ rows16 ∷ rows8 ∷ []) }
{
    Candidate::of(song, table, whole)
        .or_lighter(Candidate::of(song, table, rows64))
        .or_lighter(Candidate::of(song, table, rows32))
        .or_lighter(Candidate::of(song, table, rows16))
        .or_lighter(Candidate::of(song, table, rows8))
        .ways
}

/// These lengths with another one for a pattern.
fn with_length(mut ways: Ways, n: u8, length: PieceLength) -> Ways
    requires { n < 208 }
    ensures { result ≡ slice_set ways n length }
{
    ways[usize::from(n)] = length;
    ways
}

/// The lengths with that one for a pattern with which the song is lightest; whole where none makes it lighter.
#[tactic(auto, unfolding(pattern_cut::specs::Choice::settled))]
fn settled(song: &Song, table: &PieceTable, ways: Ways, n: u8) -> Ways
    requires limits { KeepsLimits song.now }
    requires table { IsTableOf song.now table.now }
    requires pattern { n < 208 }
    ensures { result ≡ settled song.now ways n }
{
    lightest(
        song,
        table,
        with_length(ways, n, PieceLength::Whole),
        with_length(ways, n, PieceLength::Rows64),
        with_length(ways, n, PieceLength::Rows32),
        with_length(ways, n, PieceLength::Rows16),
        with_length(ways, n, PieceLength::Rows8),
    )
}

/// The lengths to which one pattern after the other is settled, from all patterns in pieces of one length on.
fn settled_from(song: &Song, table: &PieceTable, length: PieceLength) -> Ways
    requires limits { KeepsLimits song.now }
    requires table { IsTableOf song.now table.now }
    ensures { result ≡ settled_from song.now length }
{
    let mut ways = [length; MOST_PATTERNS];
    for n in 0..208u8 {
        if table.named[usize::from(n)] {
            let next = settled(song, table, ways, n);
            ways = next;
        }
    }
    ways
}

/// The lightest of what comes of the five lengths.
#[tactic(auto, unfolding(pattern_cut::specs::Choice::chosen_ways))]
pub(crate) fn chosen_ways(song: &Song, table: &PieceTable) -> Ways
    requires limits { KeepsLimits song.now }
    requires table { IsTableOf song.now table.now }
    ensures { result ≡ chosen_ways song.now }
{
    lightest(
        song,
        table,
        settled_from(song, table, PieceLength::Whole),
        settled_from(song, table, PieceLength::Rows64),
        settled_from(song, table, PieceLength::Rows32),
        settled_from(song, table, PieceLength::Rows16),
        settled_from(song, table, PieceLength::Rows8),
    )
}
