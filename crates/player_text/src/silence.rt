//! The block that leaves out a voice with nothing to play.

use crate::joints::SOUNDS;
use player_memory::conditions::{FUNK_TEMPO, VOICE_THREE, VOICE_TWO};
use scopes::{Line, text};

/// Leaves `SOUNDS` with the second voice or the third where its channel has nothing to play: its variables are as they
/// began, with 0 for each of its registers. Turns between two tempos would change one of them. It keeps X.
pub const SILENCE: &[Line] = text! {
    choose FUNK_TEMPO {} or {
        choose VOICE_TWO {
            choose VOICE_THREE {} or { Cpx Number 14; jump SOUNDS on Zero; }
        } or {
            choose VOICE_THREE { Cpx Number 7; jump SOUNDS on Zero; } or { Txa; jump SOUNDS off Zero; }
        }
    }
};
