//! Facts about the code, each the contract of a function that does nothing.

ghost use Rattle.play_model.specs.LookUps.{LookUps};
ghost use Rattle.wave_code.specs.CommandBlock.{CommandBlockDoes, CommandBlockLends, CommandsLeaveTheProgram};
ghost use Rattle.wave_code.specs.EffectBlock.{EffectBlockBegins};
ghost use Rattle.wave_code.specs.WaveBlock.{WaveBlockSteps};
ghost use Rattle.wave_code.specs.WorkedEffect.{CommandsAreWorked, EffectsAreWorked, LendingIsWorked, RunningIsWorked};
ghost use Rattle.wave_code.specs.WorkedWave.{RowsAreWorked, WavesAreWorked};

/// In any memory that holds a voice that is playing, the code of the wave step does the step. It comes to its end where
/// the effect may run; else it leaves to where a note is set, with the note in A, or to where a command of the wave
/// table is done, with the command in A and its row in Y.
pub fn wave_block_steps()
    ensures { WaveBlockSteps }
{}

/// The code run by hand: rows that set a waveform and a note, that wait, that keep the note, that are a command, and
/// behind which the program jumps; with where it goes, what it leaves, and in how many instructions. What the law on it
/// asks is met there, and refuses others.
pub fn worked_waves()
    ensures runs { WavesAreWorked }
    ensures rows { (look : LookUps) → RowsAreWorked look }
{}

/// In any memory that holds a voice that is playing, the code tells which effect runs. It leaves to where a frame of a
/// command is done, with the command in A, or past that where none runs: there the effect step is done, or an option
/// leaves it out.
pub fn effect_block_begins()
    ensures { EffectBlockBegins }
{}

/// In any memory that holds a voice that is playing, the code does a command of the wave table that isn't lent to the
/// effect step, and lends one that is: the voice has it, and what it gives back is kept. For one that isn't lent it is
/// the same whether the program goes on before it or behind it.
pub fn command_block_does()
    ensures does { CommandBlockDoes }
    ensures lends { CommandBlockLends }
    ensures program { CommandsLeaveTheProgram }
{}

/// The code that tells which effect runs, and that of a command of the wave table, run by hand: an effect runs, is left
/// out, begins, waits; a command is done once, lent, or does nothing. What the law on a lent one asks is met there, and
/// lending it is no other thing.
pub fn worked_effects()
    ensures effects { EffectsAreWorked }
    ensures running { RunningIsWorked }
    ensures commands { CommandsAreWorked }
    ensures lending { LendingIsWorked }
{}
