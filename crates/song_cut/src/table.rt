//! The table of a song's pieces: those of its named patterns in all lengths, each once.

ghost use Rattle.std.specs.Prelude.{◌≡◌, ◌+◌, ◌*◌, ◌<◌, ◌≤◌, true, length, if◌then◌else◌, IfOk, OnOk};
ghost use Rattle.song_model.specs.declared.patterns.TheConstants.{MOST_PATTERNS};
ghost use Rattle.play_model.specs.Playable.{IsPlayable};
ghost use Rattle.pattern_cut.specs.declared.lengths.PieceLength.TheVariants.{Whole};
ghost use Rattle.pattern_cut.specs.Pieces.{is_named};
ghost use Rattle.song_cut.specs.declared.collecting.TheConstants.{MOST_PIECES};
ghost use Rattle.song_cut.specs.Marks.{is_marked, AreMarksOf};
ghost use Rattle.song_cut.specs.Numbers.{most_of, IsCollected, Grows, AreNumbersOf};
ghost use Rattle.song_cut.specs.Tables.{pieces_with, AreSmall, AreLists, AreNumbers, lists_of, numbers_in, IsTableOf};

use crate::collecting::{Piece, Pieces};
use crate::marks::{ByteMarks, PatternMarks, pattern_marks};
use base::{Items, NoMemory};
use pattern_cut::PieceLength;
use song_model::Song;
use std::alloc::Global;

/// For each pattern the numbers of its pieces; none of one that isn't named.
pub(crate) type NumberLists = Items<Items<u16>>;

/// The pieces of a song's named patterns in all lengths.
#[derive(Drop)]
pub(crate) struct PieceTable {
    /// Marks of the patterns that the song names.
    pub named: ByteMarks,
    /// The pieces, each once.
    pub pieces: Vec<Piece>,
    /// The numbers of pieces of all rows.
    whole: NumberLists,
    /// Those of pieces of 64 rows.
    rows64: NumberLists,
    /// Those of pieces of 32 rows.
    rows32: NumberLists,
    /// Those of pieces of 16 rows.
    rows16: NumberLists,
    /// Those of pieces of 8 rows.
    rows8: NumberLists,
}

impl Pieces {
    /// The numbers of the pieces of a pattern that have this length, where the song names the pattern. One that is
    /// repeated stays whole.
    ///
    /// # Errors
    ///
    /// Out of memory.
    fn pattern_numbers(
        &mut self,
        alloc: Global,
        song: &Song,
        marks: &PatternMarks,
        size: PieceLength,
        p: u8,
    ) -> Result<Items<u16>, NoMemory>
        requires playable { IsPlayable song.now }
        requires marks { AreMarksOf song.now marks.now }
        requires pattern { p < 208 }
        requires collected { IsCollected self.old }
        requires few { length self.old.list.items + most_of size ≤ MOST_PIECES }
        ensures collected { OnOk result (IsCollected self.new) }
        ensures grown { OnOk result (Grows (most_of size) self.old.list.items self.new.list.items) }
        ensures small { IfOk result AreSmall }
        ensures numbers { is_named song.now p ≡ true → IfOk result
            (AreNumbersOf self.new.list.items (pieces_with song.now size p)) }
    {
        if !marks.named[usize::from(p)] {
            return Ok(Items::new(alloc));
        }
        let Some(pattern) = song.pattern(p) else {
            unreachable!()
        };
        let kept = kept_size(marks, size, p);
        self.numbers_of(alloc, pattern.as_slice(), kept)
    }

    /// The numbers of the pieces of each pattern that have this length.
    ///
    /// # Errors
    ///
    /// Out of memory.
    fn number_lists(
        &mut self,
        alloc: Global,
        song: &Song,
        marks: &PatternMarks,
        size: PieceLength,
    ) -> Result<NumberLists, NoMemory>
        requires playable { IsPlayable song.now }
        requires marks { AreMarksOf song.now marks.now }
        requires collected { IsCollected self.old }
        requires few { length self.old.list.items + most_of size * 208 ≤ MOST_PIECES }
        ensures collected { OnOk result (IsCollected self.new) }
        ensures grown { OnOk result (Grows (most_of size * 208) self.old.list.items self.new.list.items) }
        ensures lists { IfOk result (AreLists MOST_PATTERNS) }
        ensures numbers { IfOk result (AreNumbers song.now self.new.list.items size MOST_PATTERNS) }
    {
        let mut lists = Vec::new(alloc);
        for p in 0..208u8 {
            lists.push(self.pattern_numbers(alloc, song, marks, size, p)?)?;
        }
        Ok(Items::from_vec(lists))
    }
}

/// The length of the pieces of a pattern: one that is repeated stays whole.
fn kept_size(marks: &PatternMarks, size: PieceLength, p: u8) -> PieceLength
    ensures { result ≡ (if is_marked marks.now.repeated p then Whole else size) }
{
    if marks.repeated[usize::from(p)] {
        PieceLength::Whole
    } else {
        size
    }
}

impl PieceTable {
    /// The table of a song.
    ///
    /// # Errors
    ///
    /// Out of memory.
    pub(crate) fn of(alloc: Global, song: &Song) -> Result<PieceTable, NoMemory>
        requires { IsPlayable song.now }
        ensures { IfOk result (IsTableOf song.now) }
    {
        let marks = pattern_marks(song);
        let mut pieces = Pieces::new(alloc);
        let whole = pieces.number_lists(alloc, song, &marks, PieceLength::Whole)?;
        let rows64 = pieces.number_lists(alloc, song, &marks, PieceLength::Rows64)?;
        let rows32 = pieces.number_lists(alloc, song, &marks, PieceLength::Rows32)?;
        let rows16 = pieces.number_lists(alloc, song, &marks, PieceLength::Rows16)?;
        let rows8 = pieces.number_lists(alloc, song, &marks, PieceLength::Rows8)?;
        Ok(PieceTable {
            named: marks.named,
            pieces: pieces.list,
            whole,
            rows64,
            rows32,
            rows16,
            rows8,
        })
    }

    /// The numbers of the pieces of each pattern that have this length.
    fn lists(&self, size: PieceLength) -> &NumberLists
        ensures { result.now ≡ lists_of self.now size }
    {
        match size {
            PieceLength::Whole => &self.whole,
            PieceLength::Rows64 => &self.rows64,
            PieceLength::Rows32 => &self.rows32,
            PieceLength::Rows16 => &self.rows16,
            PieceLength::Rows8 => &self.rows8,
        }
    }

    /// The numbers of the pieces of a pattern that have this length.
    pub(crate) fn numbers(&self, size: PieceLength, p: u8) -> &[u16]
        requires { p < length (lists_of self.now size) }
        ensures { result.now ≡ numbers_in self.now size p }
    {
        self.lists(size).as_slice()[usize::from(p)].as_slice()
    }
}
