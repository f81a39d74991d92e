//! The blocks that tell which effect runs.

use crate::commands::{
    AD_SET, CUTOFF_SET, FILTER_CONTROL_SET, FILTER_POINTER_SET, PULSE_POINTER_SET, SR_SET,
    VOLUME_SET, WAVE_SET,
};
use crate::joints::{EFFECTED, NOTHING, RUNNING};
use crate::pieces::pieces;
use player_memory::conditions::{EFFECTS, INSTRUMENT_VIBRATO, SKIP_EFFECTS, WAVE_COMMAND};
use player_memory::labels::{
    COMMAND, KEPT_COMMAND, KEPT_PARAM, LENT, PARAM, TICK, VIB_DELAY, WAVE_RIGHTS,
};
use scopes::{Line, text};

/// An effect runs; A is its command, 1 to 4.
const GOES: u8 = 0;
/// A command runs; A is it.
const RUNS: u8 = 1;
/// The instrument's vibrato doesn't run yet.
const WAITS: u8 = 2;
/// The instrument's vibrato has a delay; Y is it.
const DELAYED: u8 = 3;
/// The command is done once; A is it, 5 to 14, Y the row of the wave program.
const ONCE: u8 = 4;

/// Leaves `RUNNING` with the command that runs in A, or `EFFECTED` where none does.
pub const EFFECT_BEGUN: &[Line] = text! {
    choose EFFECTS { // Both alike where no command runs, and no vibrato of an instrument runs or waits.
        scope GOES {
            scope RUNS {
                Lda Own COMMAND;
                leave RUNS off Zero;
                when INSTRUMENT_VIBRATO {
                    // Idle where the parameter is 0, the delay is 255, or the step is left out; keeps no register.
                    scope WAITS {
                        scope DELAYED {
                            Lda Own PARAM;
                            leave WAITS on Zero;
                            when SKIP_EFFECTS { Lda Own TICK; leave WAITS on Zero; }
                            Ldy Own VIB_DELAY;
                            leave DELAYED off Zero;
                            Lda Number 4;
                            leave GOES off Zero;
                            never;
                        }
                        Iny;
                        leave WAITS on Zero;
                        Dec Own VIB_DELAY;
                    }
                }
                leave EFFECTED;
            }
            when SKIP_EFFECTS { Ldy Own TICK; jump EFFECTED on Zero; }
        }
        leave RUNNING;
    } or {
        leave EFFECTED;
    }
};

/// The command of a row of the wave program: A is the row's left side, `$F0` up, Y the row. Leaves `RUNNING` with a
/// command of 1 to 4 in A, which is lent to the effect step, and `NOTHING` where it is 0; ends with a command of 5 up
/// in Y, and its parameter in A.
pub const COMMAND_LENT: &[Line] = text! {
    And Number 0x0F;
    leave NOTHING on Zero;
    scope ONCE {
        Cmp Number 5;
        leave ONCE on Carry;
        Sta Pointer Low;
        Lda Own COMMAND;
        Sta Var KEPT_COMMAND;
        Lda Own PARAM;
        Sta Var KEPT_PARAM;
        Lda Entry WAVE_RIGHTS;
        Sta Own PARAM;
        Lda Pointer Low;
        Sta Own COMMAND;
        Inc Var LENT;
        leave RUNNING;
    }
    Sta Pointer Low;
    Lda Entry WAVE_RIGHTS;
    Ldy Pointer Low;
};

/// Behind `COMMANDED`: the command of a row of the wave program. A is the row's left side, `$F0` up, Y the row. Leaves
/// `RUNNING` with the command in A where it is lent to the effect step; else `EFFECTED`.
pub const COMMAND_ROW: &[&[Line]] = pieces! {
    when WAVE_COMMAND { // Not come to in a song without it.
        scope NOTHING {
            put COMMAND_LENT;
            put AD_SET;
            put SR_SET;
            put WAVE_SET;
            put PULSE_POINTER_SET;
            put FILTER_POINTER_SET;
            put FILTER_CONTROL_SET;
            put CUTOFF_SET;
            put VOLUME_SET;
        }
        leave EFFECTED;
    }
};
