//! What the definitions of `player_bound` say, each the contract of a function that does nothing.

ghost use Rattle.worked_bounds.specs.WorkedAnswers.{AnswersAreWorked};
ghost use Rattle.worked_bounds.specs.WorkedBounds.{BlocksAreTold, CyclesAreTold, EarlierCallsAreTold};
ghost use Rattle.worked_bounds.specs.WorkedBounds.{MachinesAreTold, NumbersAreTold};

/// What is told of numbers of both entrances, of a small program.
pub fn worked_answers()
    ensures { AnswersAreWorked }
{}

/// Of small images one keeps within bounds exactly, and within none that are a cycle less. Others don't keep within bounds,
/// where one call alone takes a cycle more: for the calls before it, for a byte outside the image or a flag that isn't as
/// the call before left it, or for the number that it is given.
pub fn worked_bounds()
    ensures cycles { CyclesAreTold }
    ensures blocks { BlocksAreTold }
    ensures earlier { EarlierCallsAreTold }
    ensures machines { MachinesAreTold }
    ensures numbers { NumbersAreTold }
{}
