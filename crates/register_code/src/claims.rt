//! Facts about the code, each the contract of a function that does nothing.

ghost use Rattle.register_code.specs.RegisterBlock.{RegisterBlockWrites};
ghost use Rattle.register_code.specs.WorkedRegisters.{OthersAreDenied, RegistersAreWorked};

/// In any memory that holds a voice that is playing, the code writes the voice's registers: it comes to its end with
/// the seven that a frame has from the voice's state, and leaves every other place of memory.
pub fn register_block_writes()
    ensures { RegisterBlockWrites }
{}

/// A memory that holds a voice, in which the code writes its registers, worked by hand; and what writing them isn't.
pub fn worked_registers()
    ensures registers { RegistersAreWorked }
    ensures others { OthersAreDenied }
{}
