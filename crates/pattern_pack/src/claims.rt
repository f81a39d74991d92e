//! Facts about packed patterns, each the contract of a function that does nothing.

ghost use Rattle.pattern_pack.specs.PackedLaws.{ConstantsAre, PackedTextIsSpelled, PackedTextIsShort};
ghost use Rattle.pattern_pack.specs.PackedLaws.{PackedTextHasNoFault, SpelledOnce, SpelledArePatterns, RowsOrFault};
ghost use Rattle.pattern_pack.specs.PackedLaws.{NoneIsShorter};
ghost use Rattle.pattern_pack.specs.FaultLaws.{BadBytesAreFirst, EndsAreMissing, LengthsAreBad};
ghost use Rattle.pattern_pack.specs.NormalLaws.{NormalRowsAreFetched};
ghost use Rattle.pattern_pack.specs.WorkedPatterns.{EighthsArePacked, KeyoffIsUnpacked, RestsAreGathered};
ghost use Rattle.pattern_pack.specs.WorkedPatterns.{CommandsAreNamedOnce, LongTextsAre, OtherSpellingsAreUnpacked};
ghost use Rattle.pattern_pack.specs.WorkedPatterns.{BadBytesAreFound, EndsAreWanted, LengthsAreLimited};

/// What is packed is unpacked as the normal rows: the packer's text spells these, has no fault, and bytes spell one
/// list of rows.
#[tactic(auto, using(crate::proofs::PatternLaws::packed_is_spelled, crate::proofs::PatternLaws::packed_has_no_fault))]
pub fn what_is_packed_is_unpacked()
    ensures spelled { PackedTextIsSpelled }
    ensures faultless { PackedTextHasNoFault }
    ensures once { SpelledOnce }
{}

/// No spelling of the normal rows is shorter than the packer's text, which has at most four bytes for each row.
#[tactic(auto, using(crate::proofs::PatternLaws::none_is_shorter, crate::proofs::PatternLaws::text_is_short))]
pub fn none_is_shorter()
    ensures shortest { NoneIsShorter }
    ensures most { PackedTextIsShort }
{}

/// Each list of bytes spells the rows of one pattern, or has a fault and spells none.
#[tactic(auto, using(crate::proofs::PatternLaws::rows_or_fault))]
pub fn rows_or_fault()
    ensures either { RowsOrFault }
    ensures patterns { SpelledArePatterns }
{}

/// The faults of bytes are those of the grammar: a bad byte is the first one with which no packed pattern begins.
pub fn faults_are_the_grammars()
    ensures bytes { BadBytesAreFirst }
    ensures ends { EndsAreMissing }
    ensures lengths { LengthsAreBad }
{}

/// The bytes of a packed pattern.
pub fn worked_constants()
    ensures { ConstantsAre }
{}

/// What rows pack to, and what bytes unpack to.
#[tactic(auto, unfolding(packed_form::specs::PackedText::packed_text))]
pub fn worked_patterns()
    ensures eighths { EighthsArePacked }
    ensures keyoff { KeyoffIsUnpacked }
    ensures rests { RestsAreGathered }
    ensures commands { CommandsAreNamedOnce }
    ensures long { LongTextsAre }
    ensures others { OtherSpellingsAreUnpacked }
{}

/// Bytes that are no packed pattern.
#[tactic(auto, unfolding(packed_form::specs::Faults::packed_fault_of))]
pub fn worked_faults()
    ensures bytes { BadBytesAreFound }
    ensures ends { EndsAreWanted }
    ensures lengths { LengthsAreLimited }
{}

/// Fetching a normal row does what fetching the row does, but for the parameter of command 0.
pub fn normal_rows_are_fetched()
    ensures { NormalRowsAreFetched }
{}
