//! The block of a voice in a frame.

use crate::effect::{COMMAND_ROW, EFFECT_BEGUN};
use crate::fetch::FETCH_STEP;
use crate::joints::{COMMANDED, EFFECTED, PITCHED, PULSED, RUNNING, SOUNDS, TICKED};
use crate::pieces::steps;
use crate::pitch::{GIVEN_BACK, PITCH};
use crate::pulse::PULSE;
use crate::register::REGISTERS;
use crate::silence::SILENCE;
use crate::slide::EFFECT_STEP;
use crate::tick::TICK_STEP;
use crate::wave::WAVE_STEP;
use scopes::Line;

/// A voice in a frame: where it is run its step and the fetch of its next row, and its registers. X is 7 times the
/// voice's number, and no other register is rested on.
pub const VOICE: &[&[&[Line]]] = steps! {
    scope SOUNDS {
        put SILENCE;
        scope TICKED {
            join TICK_STEP;
        }
        scope EFFECTED {
            scope PITCHED {
                scope RUNNING {
                    scope COMMANDED {
                        put WAVE_STEP;
                        put EFFECT_BEGUN;
                    }
                    join COMMAND_ROW;
                }
                join EFFECT_STEP;
            }
            put PITCH;
        }
        put GIVEN_BACK;
        scope PULSED {
            join FETCH_STEP;
        }
        put PULSE;
    }
    put REGISTERS;
};
