//! Facts about the code, each the contract of a function that does nothing.

ghost use Rattle.std.specs.Prelude.{ℕ, List};
ghost use Rattle.song_model.specs.declared.orders.Order.{Order};
ghost use Rattle.play_model.specs.LookUps.{LookUps};
ghost use Rattle.voice_code.specs.VoiceBlock.{VoiceBlockPlays, VoiceBlockRests};
ghost use Rattle.voice_code.specs.WorkedVoice.{OthersAreDenied, VoicesAreWorked};

/// In any memory that holds a voice that is playing and is in its song, while no command is lent, the code of a voice
/// comes to its end with the registers of a state: where the voice is run that which the rule of a voice's step gives, the
/// pulse step left out where an option says so, and where it isn't that which it has.
pub fn voice_block_plays()
    ensures plays { VoiceBlockPlays }
    ensures rests { VoiceBlockRests }
{}

/// The code run by hand, where a voice waits and where a rest of it is due, with its registers and in how many
/// instructions; and what a voice in a frame isn't.
pub fn worked_voices()
    ensures runs { VoicesAreWorked }
    ensures others { (look : LookUps) (packed : ℕ → List ℕ) (order : Order) → OthersAreDenied look packed order }
{}
