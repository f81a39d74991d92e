//! Facts about new numbers and sizes, each the contract of a function that does nothing.

ghost use Rattle.packing_rules.specs.SizeLaws.{SizesAreTheSongs, PackedSizeIsWithin};
ghost use Rattle.packing_rules.specs.ProgramMaps.{MapsCompose, ProgramsReadTheSame};
ghost use Rattle.packing_rules.specs.ProgramLaws.{StandInsKeepPrograms, StandInsStay, KeptStandForThemselves};
ghost use Rattle.packing_rules.specs.ProgramLaws.{NewPointersAreRead, PlayableProgramsAreWhole};
ghost use Rattle.packing_rules.specs.WorkedSizes.{NoteHas42Bytes, EqualPatternsAreStoredOnce};
ghost use Rattle.packing_rules.specs.WorkedPrograms.{EqualProgramsAreStoredOnce, FirstOfThreeStays, PulseProgramsStop};
ghost use Rattle.packing_rules.specs.WorkedPrograms.{JumpsOutAreKept, MiddleEntriesAreKept, FirstOpenOneIsKept};
ghost use Rattle.packing_rules.specs.WorkedPrograms.{OthersAreKept, JumpsIntoDroppedPrograms};
ghost use Rattle.packing_rules.specs.WorkedPrograms.{JumpsIntoTheMiddleAreKept, LoopsAreAsFar};
ghost use Rattle.packing_rules.specs.WorkedNumbers.{CrowdedSongCanBePlayed, CrowdedSetsAreUsed, SpeedsAreSharedOnce};
ghost use Rattle.packing_rules.specs.WorkedNumbers.{PulsesAreStoredOnce, FiltersMoveUp, WavesAreStoredOnce};
ghost use Rattle.packing_rules.specs.WorkedNumbers.{InstrumentsMoveUp, InstrumentsAreInOrder, CrowdedTexts};
ghost use Rattle.packing_rules.specs.WorkedNumbers.{PatternsAreStoredOnce, CrowdedSizes};

/// Which programs are stored once, and which aren't.
pub fn worked_programs()
    ensures once { EqualProgramsAreStoredOnce × FirstOfThreeStays × LoopsAreAsFar }
    ensures pulse { PulseProgramsStop }
    ensures kept { JumpsOutAreKept × MiddleEntriesAreKept × FirstOpenOneIsKept × OthersAreKept }
    ensures jumps { JumpsIntoDroppedPrograms × JumpsIntoTheMiddleAreKept }
{}

/// A song has one size of each kind, and storing things once makes nothing longer.
#[tactic(auto, using(crate::proofs::SizesOfSongs::packed_size_is_within))]
pub fn sizes_are_the_songs()
    ensures one { SizesAreTheSongs }
    ensures within { PackedSizeIsWithin }
{}

/// Sizes of songs.
#[tactic(auto, using(crate::proofs::WorkedSizes::note_has_42, crate::proofs::WorkedSizes::patterns_once))]
pub fn worked_sizes()
    ensures note { NoteHas42Bytes }
    ensures patterns { EqualPatternsAreStoredOnce }
{}

/// A song that can be played and what it uses, the new numbers of its parts, and what its tables and patterns are
/// packed to.
pub fn worked_numbers()
    ensures playable { CrowdedSongCanBePlayed }
    ensures sets { CrowdedSetsAreUsed }
    ensures speeds { SpeedsAreSharedOnce }
    ensures tables { PulsesAreStoredOnce × FiltersMoveUp × WavesAreStoredOnce }
    ensures instruments { InstrumentsMoveUp × InstrumentsAreInOrder }
    ensures patterns { CrowdedTexts × PatternsAreStoredOnce }
    ensures sizes { CrowdedSizes }
{}

/// A map of rows that keeps programs, after another such map.
pub fn maps_compose()
    ensures { MapsCompose }
{}

/// A map of rows that keeps programs keeps what is read in them, and so does giving the wave table new pointers into
/// other tables.
pub fn programs_read_the_same()
    ensures maps { ProgramsReadTheSame }
    ensures pointers { NewPointersAreRead }
{}

/// The rows that stay stand for all rows, and the map to them keeps programs.
#[tactic(auto, using(crate::proofs::StandIns::stand_in_stays, crate::proofs::StandIns::kept_stands))]
pub fn stand_ins_keep_programs()
    ensures keep { StandInsKeepPrograms }
    ensures stay { StandInsStay }
    ensures themselves { KeptStandForThemselves }
{}

/// The tables of a song that can be played are whole.
pub fn playable_programs_are_whole()
    ensures { PlayableProgramsAreWhole }
{}
