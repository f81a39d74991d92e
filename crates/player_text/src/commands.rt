//! The blocks of the commands that are done once.
//!
//! Each begins with a command, 5 up, in Y and its parameter in A. It does nothing where Y is another command, and keeps
//! A and Y there. The tick step has them all, the commands of the wave table some of them.

use player_memory::conditions::{
    COMMON_TEMPO, FUNK_CHOICE, FUNK_TURNS, SET_AD, SET_CUTOFF, SET_FILTER_CONTROL,
    SET_FILTER_POINTER, SET_PULSE_POINTER, SET_SR, SET_TEMPO, SET_VOLUME, SET_WAVE,
    SET_WAVE_POINTER, VOICE_TEMPO, WAVE_DELAY,
};
use player_memory::labels::{
    AD, CUTOFF, FILTER_CONTROL, FILTER_POINTER, FILTER_TIME, FUNK_ONE, FUNK_TWO, PULSE_POINTER,
    PULSE_TIME, SPEED_LEFTS, SPEED_RIGHTS, SR, TEMPO, TEMPO_THREE, TEMPO_TWO, VOLUME, WAVE,
    WAVE_POINTER, WAVE_TIME,
};
use scopes::{Line, text};

/// The command is done, or it is another one: A is the parameter then, and Y the command.
pub const OTHER: u8 = 32;
/// The tempo is set for all voices; A is it, Y the command.
pub const ALL: u8 = 33;
/// A is the tempo of all voices.
pub const TURNS: u8 = 34;
/// A sets no tempo, being below 3.
pub const SHORT: u8 = 35;

/// Command 5 sets attack and decay.
pub const AD_SET: &[Line] = text! {
    when SET_AD {
        scope OTHER {
            Cpy Number 5;
            leave OTHER off Zero;
            Sta Own AD;
        }
    }
};

/// Command 6 sets sustain and release.
pub const SR_SET: &[Line] = text! {
    when SET_SR {
        scope OTHER {
            Cpy Number 6;
            leave OTHER off Zero;
            Sta Own SR;
        }
    }
};

/// Command 7 sets the waveform.
pub const WAVE_SET: &[Line] = text! {
    when SET_WAVE {
        scope OTHER {
            Cpy Number 7;
            leave OTHER off Zero;
            Sta Own WAVE;
        }
    }
};

/// Command 8 sets the row of the wave program, which begins anew.
pub const WAVE_POINTER_SET: &[Line] = text! {
    when SET_WAVE_POINTER {
        scope OTHER {
            Cpy Number 8;
            leave OTHER off Zero;
            Sta Own WAVE_POINTER;
            when WAVE_DELAY { // Stores WAVE_TIME, which nothing reads without it; keeps Y.
                Lda Number 0;
                Sta Own WAVE_TIME;
            }
        }
    }
};

/// Command 9 sets the row of the pulse program, which begins anew.
pub const PULSE_POINTER_SET: &[Line] = text! {
    when SET_PULSE_POINTER {
        scope OTHER {
            Cpy Number 9;
            leave OTHER off Zero;
            Sta Own PULSE_POINTER;
            Lda Number 0;
            Sta Own PULSE_TIME;
        }
    }
};

/// Command `$A` sets the row of the filter program, which begins anew.
pub const FILTER_POINTER_SET: &[Line] = text! {
    when SET_FILTER_POINTER {
        scope OTHER {
            Cpy Number 10;
            leave OTHER off Zero;
            Sta Var FILTER_POINTER;
            Lda Number 0;
            Sta Var FILTER_TIME;
        }
    }
};

/// Command `$B` sets the filter's resonance and voices; with 0 the filter program ends.
pub const FILTER_CONTROL_SET: &[Line] = text! {
    when SET_FILTER_CONTROL {
        scope OTHER {
            Cpy Number 11;
            leave OTHER off Zero;
            Sta Var FILTER_CONTROL;
            Cmp Number 0;
            leave OTHER off Zero;
            Sta Var FILTER_POINTER;
        }
    }
};

/// Command `$C` sets the filter's cutoff.
pub const CUTOFF_SET: &[Line] = text! {
    when SET_CUTOFF {
        scope OTHER {
            Cpy Number 12;
            leave OTHER off Zero;
            Sta Var CUTOFF;
        }
    }
};

/// Command `$D` sets the volume, with a parameter below `$10`.
pub const VOLUME_SET: &[Line] = text! {
    when SET_VOLUME {
        scope OTHER {
            Cpy Number 13;
            leave OTHER off Zero;
            Cmp Number 0x10;
            leave OTHER on Carry;
            Sta Var VOLUME;
        }
    }
};

/// Command `$F` with 0 or 1 has all voices take turns between two tempos.
pub const FUNK_SET: &[Line] = text! {
    when FUNK_TURNS {
        scope OTHER {
            Cpy Number 15;
            leave OTHER off Zero;
            Cmp Number 2;
            leave OTHER on Carry;
            Sta Var TEMPO;
            Sta Var TEMPO_TWO;
            Sta Var TEMPO_THREE;
        }
    }
};

/// Command `$F` sets the tempo of all voices, or from `$80` on that of this one; it changes nothing below 3.
pub const TEMPO_SET: &[Line] = text! {
    when SET_TEMPO {
        scope OTHER {
            Cpy Number 15;
            leave OTHER off Zero;
            when VOICE_TEMPO { // Idle where A is below $80; keeps A and Y.
                scope ALL {
                    Cmp Number 0x80;
                    leave ALL off Carry;
                    And Number 0x7F;
                    Cmp Number 3;
                    leave OTHER off Carry;
                    Sbc Number 1;
                    Sta Own TEMPO;
                    leave OTHER;
                }
            }
            when COMMON_TEMPO { // Idle where A is below 3; keeps A and Y.
                scope SHORT {
                    Cmp Number 3;
                    leave SHORT off Carry;
                    Sbc Number 1;
                    Sta Var TEMPO;
                    Sta Var TEMPO_TWO;
                    Sta Var TEMPO_THREE;
                }
            }
        }
    }
};

/// Command `$E` has all voices take turns between two tempos, and sets these by a row of the speed table, but with 0.
/// It keeps no register.
pub const FUNK_CHOSEN: &[Line] = text! {
    when FUNK_CHOICE {
        scope OTHER {
            Cpy Number 14;
            leave OTHER off Zero;
            scope TURNS {
                Tay;
                leave TURNS on Zero;
                Lda Entry SPEED_LEFTS;
                Sec;
                Sbc Number 1;
                Sta Var FUNK_ONE;
                Lda Entry SPEED_RIGHTS;
                Sec;
                Sbc Number 1;
                Sta Var FUNK_TWO;
                Lda Number 0;
            }
            Sta Var TEMPO;
            Sta Var TEMPO_TWO;
            Sta Var TEMPO_THREE;
        }
    }
};
