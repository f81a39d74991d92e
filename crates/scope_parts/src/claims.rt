//! Facts about the definitions, each the contract of a function that does nothing.

ghost use Rattle.scope_parts.specs.PartLaws.{PartsTakeSize, PartsAreKept, PartsAreBounded, PartsAreThere};
ghost use Rattle.scope_parts.specs.WorkedParts.{PartsAreWorked};

/// There are as many parts as a block's lines have bytes; each is a condition that holds, or that in which the block
/// stands; and of no part are there more bytes than stand under it where all conditions hold, or fewer than no condition
/// leaves out.
pub fn parts_are_counted()
    ensures size { PartsTakeSize }
    ensures kept { PartsAreKept }
    ensures most { PartsAreBounded }
    ensures least { PartsAreThere }
{}

/// The parts of a small block, worked by hand, under each condition and under none.
pub fn worked_parts()
    ensures { PartsAreWorked }
{}
