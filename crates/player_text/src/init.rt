//! The block that begins a subtune.

use player_memory::conditions::{FUNK_TEMPO, INSTRUMENT_VIBRATO, SET_VOLUME, SUBTUNES};
use player_memory::labels::{
    FIRST_CLEARED, FUNK_ONE, FUNK_TWO, GATE, INSTRUMENT, ORDER_HIGH, ORDER_LOW, ORDERS_HIGH,
    ORDERS_LOW, TEMPO, TICK, VIB_DELAY, VOLUME,
};
use scopes::{Line, text};

/// A is the subtune's number, counted from 0. Behind it Y is where the subtune's last orderlist stands in their lists.
/// One subtune alone has no such lists, and nothing reads Y.
pub const SUBTUNE_TAKEN: &[Line] = text! {
    when SUBTUNES { // Without it nothing reads A, Y or the pointer's byte behind it; keeps X.
        Sta Pointer Low;
        Asl;
        Adc Pointer Low;
        Adc Number 2;
    }
    Tay;
};

/// The timer's low byte is A.
pub const TIMER_LOW_SET: &[Line] = text! {
    Sta Timer Low;
};

/// The timer's high byte is A.
pub const TIMER_HIGH_SET: &[Line] = text! {
    Sta Timer High;
};

/// All registers are 0, and so is A. It keeps Y.
pub const REGISTERS_CLEARED: &[Line] = text! {
    Lda Number 0;
    Ldx Number 24;
    turns 25 {
        Sta OwnRegister 0;
        Dex;
        again off Minus;
    }
};

/// X is how many bytes stand behind the first of the variables that are cleared, and A is 0: these are 0, and the volume
/// is 15, where a command sets it. It keeps Y.
pub const VARIABLES_CLEARED: &[Line] = text! {
    turns 92 {
        Sta Own FIRST_CLEARED;
        Dex;
        again off Minus;
    }
    when SET_VOLUME { // Stores VOLUME, which nothing reads without it; keeps X and Y.
        Lda Number 15;
        Sta Var VOLUME;
    }
};

/// The first funk tempo is A. It keeps Y.
pub const FUNK_STARTED: &[Line] = text! {
    Sta Var FUNK_ONE;
};

/// The third voice is next, and the others follow from the last one on. It keeps Y.
pub const VOICES_STARTED: &[Line] = text! {
    Ldx Number 14;
};

/// What a voice begins with: its orderlist is that at Y, and the one before it is next. One subtune alone has its
/// orderlists already. It keeps X.
pub const VOICE_STARTED: &[Line] = text! {
    when SUBTUNES { // Stores ORDER_LOW and ORDER_HIGH, which have these bytes already without it; keeps X.
        Lda Entry ORDERS_LOW;
        Sta Own ORDER_LOW;
        Lda Entry ORDERS_HIGH;
        Sta Own ORDER_HIGH;
        Dey;
    }
    when INSTRUMENT_VIBRATO { Dec Own VIB_DELAY; } // Nothing reads it without it; keeps X and Y.
    Lda Number 1;
    Sta Own TICK;
    Sta Own INSTRUMENT;
    Lda Number 0xFE;
    Sta Own GATE;
};

/// The voice's tempo is A, and so is the second funk tempo; X goes on to the next voice, if there is one.
pub const TEMPO_STARTED: &[Line] = text! {
    Sta Own TEMPO;
    when FUNK_TEMPO { Sta Var FUNK_TWO; } // Nothing reads it without it; keeps X and Y.
    Txa;
    Sec;
    Sbc Number 7;
    Tax;
    again on Carry;
};
