//! Facts about the definitions, each the contract of a function that does nothing.

ghost use Rattle.sid_run.specs.Laws.{ConstantsAre, ImageStands, ElsewhereIsZero, LoadedIsMachine, OneByteIsLoaded};

/// The machine that a file is loaded into holds the image at its address and 0 elsewhere, and is a machine.
pub fn files_are_loaded()
    ensures image { ImageStands }
    ensures elsewhere { ElsewhereIsZero }
    ensures machine { LoadedIsMachine }
{}

/// One byte, loaded at address 2.
#[tactic(auto, unfolding(crate::specs::State::loaded_memory))]
pub fn worked_memory()
    ensures { OneByteIsLoaded }
{}

/// The steps that a call may take, and the SID's registers.
pub fn worked_constants()
    ensures { ConstantsAre }
{}
