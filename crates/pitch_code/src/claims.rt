//! Facts about the code, each the contract of a function that does nothing.

ghost use Rattle.pitch_code.specs.PitchBlock.{PitchBlockSets};
ghost use Rattle.pitch_code.specs.GivenBackBlock.{GivenBackBlockGives, GivenBackBlockPlays};
ghost use Rattle.pitch_code.specs.WorkedPitches.{NotesAreWorked, OthersAreDenied, ReturnsAreWorked};
ghost use Rattle.pitch_code.specs.WorkedVoices.{VoicesAreWorked};

/// In any memory that holds a voice that is playing and the frequencies of notes, with a note in A, the code comes to
/// its end with the voice's bytes as the rule sets the note, and leaves all else.
pub fn pitch_block_sets()
    ensures { PitchBlockSets }
{}

/// In any memory in which a command is lent, the code comes to its end with the voice's own command and parameter, and
/// none lent; where none is, with memory as it was. And in any memory that holds a voice that is playing, the voice
/// plays with its own command, and the code leaves all else.
pub fn given_back_block_gives()
    ensures gives { GivenBackBlockGives }
    ensures plays { GivenBackBlockPlays }
{}

/// Memories in which the code sets notes and gives back a command, to a voice that is playing too, worked by hand; and
/// what giving it back isn't.
pub fn worked_pitches()
    ensures notes { NotesAreWorked }
    ensures returns { ReturnsAreWorked }
    ensures others { OthersAreDenied }
    ensures voices { VoicesAreWorked }
{}
