//! Facts about the definitions, each the contract of a function that does nothing.

ghost use Rattle.scopes.specs.WorkedScopes.{ScopesAreWorked};

/// Blocks that are worked by hand.
#[tactic(auto, using(crate::proofs::WorkedScopes::scopes_are_worked))]
pub fn worked_scopes()
    ensures { ScopesAreWorked }
{}
