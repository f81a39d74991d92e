//! Facts about the definitions, each the contract of a function that does nothing.

ghost use Rattle.bound_text.specs.WorkedTexts.{TextsAreWorked, BadLinesAreWorked};
ghost use Rattle.bound_text.specs.TextLaws.{TextsAreOfOneList, TextsHaveNoBadLine, OneBadLine};

/// A text is of one list of numbers alone, and has no bad line then; and of others one line alone is bad. So what is read of a
/// text, and what is told of it, is decided by the text.
pub fn one_reading()
    ensures numbers { TextsAreOfOneList }
    ensures good { TextsHaveNoBadLine }
    ensures bad { OneBadLine }
{}

/// Texts of numbers, and lines that are no number's, worked by hand.
pub fn worked_texts()
    ensures texts { TextsAreWorked }
    ensures bad { BadLinesAreWorked }
{}
