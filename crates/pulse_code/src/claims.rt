//! Facts about the code, each the contract of a function that does nothing.

ghost use Rattle.play_model.specs.LookUps.{LookUps};
ghost use Rattle.pulse_code.specs.PulseBlock.{PulseBlockSteps};
ghost use Rattle.pulse_code.specs.WorkedPulse.{PulsesAreWorked, RowsAreWorked};

/// In any memory that holds a voice that is playing, the code of the pulse step does the step: it comes to its end with
/// the voice's bytes as the rule leaves its state, and leaves all else.
pub fn pulse_block_steps()
    ensures { PulseBlockSteps }
{}

/// The code run by hand: rows that set the width, that move it over the edge of a page, that stop, and that are behind
/// a jump; with what it leaves, and in how many instructions. What the law on it asks is met there, and refuses others.
pub fn worked_pulses()
    ensures runs { PulsesAreWorked }
    ensures rows { (look : LookUps) → RowsAreWorked look }
{}
