//! Facts about the code, each the contract of a function that does nothing.

ghost use Rattle.play_model.specs.LookUps.{LookUps};
ghost use Rattle.slide_code.specs.SlideBlock.{CommandsMove, SlideBlockHasLines, SlideBlockSteps};
ghost use Rattle.slide_code.specs.WorkedSlides.{
  GroundsAreWorked,
  OthersAreDenied,
  RunsAreDenied,
  SlidesAreWorked,
};

/// In any memory that holds a voice that is playing, with the command that runs in A, the code does a frame of it:
/// where the frequency arrives at the note it comes to its end with the note's number in A, and all else as it was;
/// else it leaves the effect with the voice's bytes as the rule leaves its state.
pub fn slide_block_steps()
    ensures { SlideBlockSteps }
{}

/// What a command does here is what the rules say of it, whether it runs, is an instrument's vibrato or is lent. And
/// the block has lines, of so many bytes.
pub fn commands_move()
    ensures rules { (look : LookUps) → CommandsMove look }
    ensures lines { SlideBlockHasLines }
{}

/// The code run by hand: slides up, down and to a note, vibratos and calculated speeds, with what it leaves. What the
/// law on it asks is met there, and refuses others.
pub fn worked_slides()
    ensures runs { SlidesAreWorked }
    ensures grounds { (look : LookUps) → GroundsAreWorked look }
    ensures others { (look : LookUps) → OthersAreDenied look }
    ensures denied { (look : LookUps) → RunsAreDenied look }
{}
