//! Facts about the definitions of this crate, each the contract of a function that does nothing.

ghost use Rattle.asm_text.specs.Laws.{ConstantIs, LinesSayOneThing, TextsReadInOneWay, ListingsReadBack};
ghost use Rattle.asm_text.specs.Laws.{WhatIsPrintedIsRead, WhatIsPrintedHasNoFault};
ghost use Rattle.asm_text.specs.Printing.{ListingsAreShort};
ghost use Rattle.asm_text.specs.WorkedNames.{NamesAreWritten, DigitsAreWritten};
ghost use Rattle.asm_text.specs.WorkedTexts.{NumbersAreSpelled, LabelsAreSpelled, NothingIsSaid, NoLinesAreSpelled};
ghost use Rattle.asm_text.specs.WorkedTexts.{NoLineSpells, ImagesAreListed, TextsAreRead, BranchesReachSoFar};
ghost use Rattle.asm_text.specs.WorkedTexts.{BranchesReachLabels, FaultsAreTold, ResultsAreToldApart};

/// A line says nothing or spells one statement.
pub fn lines_say_one_thing()
    ensures { LinesSayOneThing }
{}

/// A text is read to one result, or has one fault, and never both.
pub fn texts_read_in_one_way()
    ensures { TextsReadInOneWay }
{}

/// Reading the listing of an image has no fault and gives its origin and its bytes, with no fixes.
pub fn listings_are_read_back()
    ensures listing { ListingsReadBack }
    ensures read { WhatIsPrintedIsRead }
    ensures no_fault { WhatIsPrintedHasNoFault }
{}

/// The listing of an image has at most 10 bytes for each byte of the image, and ten more.
pub fn listings_are_short()
    ensures { ListingsAreShort }
{}

/// The most bytes of a text.
pub fn worked_constant()
    ensures { ConstantIs }
{}

/// The names of all instructions and all digits, worked out by hand.
pub fn worked_names()
    ensures names { NamesAreWritten }
    ensures digits { DigitsAreWritten }
{}

/// Lines that were worked out by hand, and lines that are refused.
pub fn worked_lines()
    ensures numbers { NumbersAreSpelled }
    ensures labels { LabelsAreSpelled }
    ensures nothing { NothingIsSaid }
    ensures refused { NoLinesAreSpelled }
    ensures unspelled { NoLineSpells }
{}

/// Texts, images and results that were worked out by hand.
pub fn worked_texts()
    ensures images { ImagesAreListed }
    ensures texts { TextsAreRead }
    ensures branches { BranchesReachSoFar }
    ensures to_labels { BranchesReachLabels }
    ensures faults { FaultsAreTold }
    ensures results { ResultsAreToldApart }
{}
