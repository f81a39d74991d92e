//! Facts about the definitions, each the contract of a function that does nothing.

ghost use Rattle.kept_lines.specs.KeptLaws.{SetsAreExact, AskedIsExact};
ghost use Rattle.kept_lines.specs.WorkedKept.{SetsAreWorked, AskedIsWorked};
ghost use Rattle.kept_lines.specs.WorkedStarts.{StartsAreWorked};

/// In the set for what a song asks for and for options are exactly the conditions that hold for them; and what a song
/// asks for is its features and its facts.
#[tactic(auto, using(crate::proofs::Sets::sets_are_exact, crate::proofs::Sets::asked_is_exact))]
pub fn sets_are_exact()
    ensures sets { SetsAreExact }
    ensures asked { AskedIsExact }
{}

/// Sets and starts that are worked by hand.
#[tactic(auto, using(crate::proofs::WorkedKept::sets_are_worked, crate::proofs::WorkedKept::asked_is_worked, crate::proofs::WorkedKept::starts_are_worked))]
pub fn worked_sets()
    ensures sets { SetsAreWorked }
    ensures asked { AskedIsWorked }
    ensures starts { StartsAreWorked }
{}
