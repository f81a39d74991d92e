//! Facts about the definitions, each the contract of a function that does nothing.

ghost use Rattle.image_parts.specs.CodeLines.{LinesStandAround};
ghost use Rattle.image_parts.specs.PartLaws.{CodeTakesItsParts, PartsAddUp, PartsAreShort, UnkeptPartsHaveNone};
ghost use Rattle.image_parts.specs.PartLaws.{RestIsExact, RestIsBounded, CodeIsShort, CodeIsBounded};
ghost use Rattle.image_parts.specs.PartLaws.{ImagesAreBounded};
ghost use Rattle.image_parts.specs.WorkedLengths.{PartsAreMeasured, FrequenciesAreMeasured, SilencesAreMeasured};
ghost use Rattle.image_parts.specs.WorkedLengths.{NotesAreMeasured, ReadBytesAreMeasured};

/// There are as many parts as the code has bytes, and they add up to it; and the lines of the code are those of its
/// blocks, with the bytes around them that are counted.
pub fn parts_add_up()
    ensures size { CodeTakesItsParts }
    ensures lines { LinesStandAround }
    ensures sum { PartsAddUp }
{}

/// A part that isn't kept has no bytes, no other one has more than 320, and the one that every image has no more than
/// 3,072: it has 376, those of the variables, and what stands in the place of lines that aren't kept, which makes 443
/// to 502. The code has at most 1,669 with the zeros; and an image is within the bound of its packed song and a player.
pub fn parts_are_bounded()
    ensures none { UnkeptPartsHaveNone }
    ensures short { PartsAreShort }
    ensures exact { RestIsExact }
    ensures rest { RestIsBounded }
    ensures whole { CodeIsShort }
    ensures code { CodeIsBounded }
    ensures image { ImagesAreBounded }
{}

/// How many bytes each part takes where all are kept, and where one feature or fact is asked for alone; how many
/// bytes the frequencies of some ranges take; how many bytes are read of a packed song; and how long the images of two
/// small packed songs are.
pub fn worked_lengths()
    ensures parts { PartsAreMeasured }
    ensures frequencies { FrequenciesAreMeasured }
    ensures read { ReadBytesAreMeasured }
    ensures silence { SilencesAreMeasured }
    ensures note { NotesAreMeasured }
{}
