//! Facts about the definitions, each the contract of a function that does nothing.

ghost use Rattle.asked_numbers.specs.RangeLaws.{SongsHaveOneRange, RangesLieInTheTable};
ghost use Rattle.asked_numbers.specs.WorkedNumbers.{NumbersAreWorked};
ghost use Rattle.asked_numbers.specs.WorkedRange.{RangesAreWorked, RangesAreDenied, AddedNumbersAreWorked};

/// The numbers that small songs ask for, and no others: of notes with and without transposes, of rows of the wave table,
/// of commands before a note, and of half tones.
#[tactic(auto, using(crate::proofs::WorkedNumbers::numbers_are_worked))]
pub fn worked_numbers()
    ensures { NumbersAreWorked }
{}

/// Two ranges of one song are the same.
#[tactic(auto, using(crate::proofs::Ranges::songs_have_one_range))]
pub fn one_range()
    ensures { SongsHaveOneRange }
{}

/// No song's range has a number above 128.
#[tactic(auto, using(crate::proofs::Ranges::ranges_lie_in_the_table))]
pub fn ranges_lie_in_the_table()
    ensures { RangesLieInTheTable }
{}

/// The ranges of small songs, and others that aren't theirs.
#[tactic(auto, using(crate::proofs::WorkedRanges::ranges_are_worked, crate::proofs::WorkedRanges::ranges_are_denied))]
pub fn worked_ranges()
    ensures worked { RangesAreWorked }
    ensures denied { RangesAreDenied }
{}

/// Songs that ask for no number that another song doesn't ask for, and songs that do.
#[tactic(auto, using(crate::proofs::WorkedRanges::added_numbers_are_worked))]
pub fn worked_additions()
    ensures { AddedNumbersAreWorked }
{}
