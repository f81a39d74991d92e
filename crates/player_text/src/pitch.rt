//! The block of the frequency by a number, and the one that gives back what was lent.

use player_memory::conditions::{NOTE_DEPENDENT, SWINGS, WAVE_COMMAND};
use player_memory::labels::{
    COMMAND, FREQ_HIGH, FREQ_LOW, FREQUENCY_HIGHS, FREQUENCY_LOWS, KEPT_COMMAND, KEPT_PARAM,
    LAST_NOTE, LENT, PARAM, VIB_TIME,
};
use scopes::{Line, text};

/// The command that runs is the voice's own.
const OWN: u8 = 0;

/// Behind `PITCHED`: A is the number for the frequency, below 128. It keeps no register.
pub const PITCH: &[Line] = text! {
    when NOTE_DEPENDENT { Sta Own LAST_NOTE; } // Stores LAST_NOTE, which nothing reads without it; keeps A.
    Tay;
    when SWINGS { // Stores VIB_TIME, which nothing reads without it; keeps Y.
        Lda Number 0;
        Sta Own VIB_TIME;
    }
    Lda Entry FREQUENCY_LOWS;
    Sta Own FREQ_LOW;
    Lda Entry FREQUENCY_HIGHS;
    Sta Own FREQ_HIGH;
};

/// Behind `EFFECTED`: a command that was lent to the effect step makes way for the voice's own. It keeps no register.
pub const GIVEN_BACK: &[Line] = text! {
    when WAVE_COMMAND { // Idle where nothing is lent; keeps no register.
        scope OWN {
            Lda Var LENT;
            leave OWN on Zero;
            Lda Var KEPT_PARAM;
            Sta Own PARAM;
            Lda Var KEPT_COMMAND;
            Sta Own COMMAND;
            Dec Var LENT;
        }
    }
};
