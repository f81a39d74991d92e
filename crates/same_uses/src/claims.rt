//! Facts about the definitions, each the contract of a function that does nothing.

ghost use Rattle.same_uses.specs.SameUses.{NoRowsNoUses};
ghost use Rattle.same_uses.specs.WorkedUses.{UsesAreWorked};

/// A song that adds no row to another one uses and asks for no more than that one.
#[tactic(auto, using(crate::proofs::NoRows::no_rows_lem))]
pub fn no_rows_no_uses()
    ensures { NoRowsNoUses }
{}

/// A small song whose pattern is cut in two adds no row to the song that it was; others beside it do, or have other
/// parts, each in one thing alone.
#[tactic(auto, using(crate::proofs::WorkedUses::uses_are_worked))]
pub fn worked_uses()
    ensures { UsesAreWorked }
{}
