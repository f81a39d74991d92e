//! The pieces of a song whose patterns are cut, each once, by their numbers.

ghost use Rattle.std.specs.Prelude.{◌≡◌, ℕ, ◌<◌, [], length, All, IfSome, IfNone};
ghost use Rattle.song_model.specs.declared.patterns.TheConstants.{MOST_PATTERNS};
ghost use Rattle.song_cut.specs.declared.collecting.TheConstants.{MOST_PIECES};
ghost use Rattle.song_cut.specs.Tables.{IsShaped, named_numbers, all_numbers};
ghost use Rattle.song_cut.specs.Seen.{with_number, gathered, AreMarked, Sees};

use crate::collecting::MOST_PIECES;
use crate::table::PieceTable;
use arrayvec::ArrayVec;
use pattern_cut::PieceLength;
use song_model::MOST_PATTERNS;

/// The length of the pieces of each pattern, by its number.
pub(crate) type Ways = [PieceLength; MOST_PATTERNS];

/// Numbers of pieces in the order in which they are first seen: as many as a song may have patterns.
pub(crate) type PieceOrder = ArrayVec<u16, MOST_PATTERNS>;

/// The pieces that were seen on a walk, each once.
#[derive(Drop)]
struct SeenPieces {
    /// A mark for each of them.
    marks: [bool; MOST_PIECES],
    /// Their numbers, in the order in which they were first seen.
    numbers: PieceOrder,
}

impl SeenPieces {
    /// None was seen.
    fn new() -> SeenPieces
        ensures marked { AreMarked result }
        ensures none { result.numbers.items ≡ [] }
    {
        SeenPieces {
            marks: [false; MOST_PIECES],
            numbers: ArrayVec::new(),
        }
    }

    /// Sees a piece. The answer is whether the pieces are as many as a song may have patterns, or fewer.
    fn see(&mut self, number: u16) -> bool
        requires number { number < MOST_PIECES }
        requires marked { AreMarked self.old }
        ensures { Sees result (with_number self.old.numbers.items number) self.new }
    {
        if self.marks[usize::from(number)] {
            return true;
        }
        if self.numbers.is_full() {
            return false;
        }
        self.marks[usize::from(number)] = true;
        self.numbers.push(number);
        true
    }

    /// Sees these pieces, one after the other.
    fn see_all(&mut self, numbers: &[u16]) -> bool
        requires numbers { All (λ (k : ℕ). k < MOST_PIECES) numbers.now }
        requires marked { AreMarked self.old }
        ensures { Sees result (gathered self.old.numbers.items numbers.now) self.new }
    {
        for number in numbers {
            if !self.see(*number) {
                return false;
            }
        }
        true
    }

    /// Sees the pieces of a pattern, where the song names it.
    fn see_pattern(&mut self, table: &PieceTable, ways: &Ways, p: u8) -> bool
        requires shaped { IsShaped table.now }
        requires pattern { p < 208 }
        requires marked { AreMarked self.old }
        ensures { Sees result
            (gathered self.old.numbers.items (named_numbers table.now ways.now p)) self.new }
    {
        if !table.named[usize::from(p)] {
            return true;
        }
        self.see_all(table.numbers(ways[usize::from(p)], p))
    }
}

/// The numbers of the pieces of all named patterns, each once; none where they are more than a song may have patterns.
pub(crate) fn distinct_pieces(table: &PieceTable, ways: &Ways) -> Option<PieceOrder>
    requires { IsShaped table.now }
    ensures order { IfSome result (λ order. order.items ≡ gathered [] (all_numbers table.now ways.now)) }
    ensures many { IfNone result (MOST_PATTERNS < length (gathered [] (all_numbers table.now ways.now))) }
{
    let mut seen = SeenPieces::new();
    for p in 0..208u8 {
        if !seen.see_pattern(table, ways, p) {
            return None;
        }
    }
    Some(seen.numbers)
}
