//! The block of a voice's registers.

use player_memory::conditions::PULSE_TABLE;
use player_memory::labels::{AD, FREQ_HIGH, FREQ_LOW, GATE, PULSE_HIGH, PULSE_LOW, SR, WAVE};
use scopes::{Line, text};

/// Behind `SOUNDS`: writes the voice's seven registers. It keeps no register.
pub const REGISTERS: &[Line] = text! {
    Lda Own FREQ_LOW;
    Sta OwnRegister 0;
    Lda Own FREQ_HIGH;
    Sta OwnRegister 1;
    choose PULSE_TABLE { Lda Own PULSE_LOW; } or { Lda Number 0; } // Both alike where the width is 0.
    Sta OwnRegister 2;
    when PULSE_TABLE { // Idle where the width is 0, as A is; keeps A.
        Lda Own PULSE_HIGH;
        And Number 0x0F;
    }
    Sta OwnRegister 3;
    Lda Own WAVE;
    And Own GATE;
    Sta OwnRegister 4;
    Lda Own AD;
    Sta OwnRegister 5;
    Lda Own SR;
    Sta OwnRegister 6;
};
