//! The blocks of the tick step.

use crate::commands::{
    AD_SET, CUTOFF_SET, FILTER_CONTROL_SET, FILTER_POINTER_SET, FUNK_CHOSEN, FUNK_SET,
    PULSE_POINTER_SET, SR_SET, TEMPO_SET, VOLUME_SET, WAVE_POINTER_SET, WAVE_SET,
};
use crate::joints::{DONE, SOUNDS, TAKEN, TICKED};
use crate::pieces::pieces;
use player_memory::conditions::{
    EFFECTS, FIRST_MASK, FUNK_TEMPO, NOTE_FILTER, NOTE_PULSE, NOTE_VIBRATO, OWN_TIMER, OWN_WAVE,
    ROW_COMMAND, ROW_ONCE, ROW_SLIDE, ROW_TONE, SWINGS, VIBRATO_DELAY, WAVE_DELAY,
};
use player_memory::labels::{
    AD, ADS, COMMAND, DELAYS, FILTER_POINTER, FILTER_TIME, FILTERS, FIRST_WAVES, FUNK_ONE, GATE,
    GATE_TIMER, GATE_TIMERS, INSTRUMENT, NEW_COMMAND, NEW_NOTE, NEW_PARAM, NOTE, ONE_WAVE, PARAM,
    PULSE_POINTER, PULSE_TIME, PULSES, SR, SRS, TEMPO, TICK, VIB_DELAY, VIB_TIME, VIBRATOS, WAVE,
    WAVE_POINTER, WAVE_TIME, WAVES,
};
use scopes::{Line, text};

/// The row is done.
pub const AT_ROW: u8 = 0;
/// The row goes on.
pub const RUNS: u8 = 1;
/// A is the frames of the next row, less one.
pub const PLAIN: u8 = 2;
/// The note begins; Y is the instrument.
pub const STARTS: u8 = 3;
/// The mask is settled; Y is the instrument.
pub const MASKED: u8 = 4;
/// A is the mask, Y the instrument.
pub const MASK: u8 = 5;
/// The pulse program is settled; Y is the instrument.
pub const NO_PULSE: u8 = 6;
/// The filter program is settled; Y is the instrument.
pub const NO_FILTER: u8 = 7;
/// The command is done once; A is it, 5 to 15.
pub const ONCE: u8 = 8;
/// A is the parameter of the command that runs.
pub const SETTLED: u8 = 9;
/// The row has no command: Y is the instrument, and A is 0 where a command may run.
pub const BARE: u8 = 10;
/// The command that runs is set.
pub const TIMED: u8 = 11;

/// Counts the frames of the row. Leaves `TICKED` where the row goes on; ends where it is done.
pub const FRAME_COUNTED: &[Line] = text! {
    scope AT_ROW {
        scope RUNS {
            Dec Own TICK;
            leave AT_ROW on Zero;
            leave RUNS off Minus;
            Lda Own TEMPO;
            when FUNK_TEMPO { // Idle where A, the tempo, is 2 or more; keeps A.
                scope PLAIN {
                    Cmp Number 2;
                    leave PLAIN on Carry;
                    Tay;
                    Eor Number 1;
                    Sta Own TEMPO;
                    Lda Entry FUNK_ONE;
                }
            }
            Sta Own TICK;
        }
        leave TICKED;
    }
};

/// Sets the gateoff timer, where instruments differ in it. Y is the instrument behind it.
pub const GATE_TIMER_SET: &[Line] = text! {
    Ldy Own INSTRUMENT;
    when OWN_TIMER { // Stores GATE_TIMER, which nothing reads without it; keeps Y.
        Lda Entry GATE_TIMERS;
        And Number 0x3F;
        Sta Own GATE_TIMER;
    }
};

/// Takes the note that waits. Leaves `TAKEN` where none does, and where a slide goes to it; ends where the note begins.
/// Y is the instrument, and stays it.
pub const NOTE_TAKEN: &[Line] = text! {
    Lda Own NEW_NOTE;
    leave TAKEN on Zero;
    Sec;
    Sbc Number 0x60;
    And Number 0x7F;
    Sta Own NOTE;
    when VIBRATO_DELAY { // Idle where the delay is stored as $FF, and VIB_DELAY is it; keeps Y.
        Lda Entry DELAYS;
        Sta Own VIB_DELAY;
    }
    when ROW_TONE { // Idle where NEW_COMMAND isn't 3; keeps Y.
        scope STARTS {
            Lda Own NEW_COMMAND;
            Eor Number 3;
            leave STARTS off Zero;
            // A note that slides begins nothing, and goes on to the wave step.
            Sta Own NEW_NOTE;
            leave TAKEN on Zero;
            never;
        }
    }
};

/// The note begins: its vibrato, its first waveform and its mask. Y is the instrument, and stays it.
pub const NOTE_BEGUN: &[Line] = text! {
    choose EFFECTS { // This side stores COMMAND and PARAM, too, which nothing reads without it; keeps Y.
        Lda Number 0;
        when WAVE_DELAY { Sta Own WAVE_TIME; } // Nothing reads it without it; keeps A and Y.
        Sta Own COMMAND;
        when NOTE_VIBRATO { Lda Entry VIBRATOS; } // Idle where the vibrato is 0, as A is; keeps A and Y.
        Sta Own PARAM;
    } or {
        when WAVE_DELAY { Lda Number 0; Sta Own WAVE_TIME; } // Nothing reads it without it; keeps Y.
    }
    scope MASKED {
        scope MASK {
            choose OWN_WAVE { Lda Entry FIRST_WAVES; } or { Lda Var ONE_WAVE; } // Both alike in a song without it; keeps Y.
            when FIRST_MASK { // Idle where A isn't 0 and is below $FE; keeps A and Y.
                leave MASKED on Zero;
                Cmp Number 0xFE;
                leave MASK on Carry;
            }
            Sta Own WAVE;
            Lda Number 0xFF;
        }
        Sta Own GATE;
    }
};

/// The note begins: its programs, and its envelope. Y is the instrument, and stays it.
pub const PROGRAMS_BEGUN: &[Line] = text! {
    when NOTE_PULSE { // Idle where the instrument has no pulse program; keeps Y.
        scope NO_PULSE {
            Lda Entry PULSES;
            leave NO_PULSE on Zero;
            Sta Own PULSE_POINTER;
            Lda Number 0;
            Sta Own PULSE_TIME;
        }
    }
    when NOTE_FILTER { // Idle where it has no filter program; keeps Y.
        scope NO_FILTER {
            Lda Entry FILTERS;
            leave NO_FILTER on Zero;
            Sta Var FILTER_POINTER;
            Lda Number 0;
            Sta Var FILTER_TIME;
        }
    }
    Lda Entry WAVES;
    Sta Own WAVE_POINTER;
    Lda Entry ADS;
    Sta Own AD;
    Lda Entry SRS;
    Sta Own SR;
};

/// The row's command: one below 5 runs from here on. Y is the instrument. Leaves `DONE` behind it where there are others;
/// else ends there. With one of 5 up, in A, it ends.
pub const COMMAND_BEGUN: &[Line] = text! {
    scope ONCE {
        scope SETTLED {
            scope BARE {
                choose ROW_COMMAND { // Both alike where NEW_COMMAND is 0; keeps Y.
                    Lda Own NEW_COMMAND;
                    leave BARE on Zero;
                    when ROW_ONCE { Cmp Number 5; leave ONCE on Carry; } // Idle where A is below 5; keeps A and Y.
                    when ROW_SLIDE { // Not come to in a song without it.
                        Sta Own COMMAND;
                        when SWINGS { // Stores VIB_TIME, which nothing reads without it; keeps Y.
                            scope TIMED {
                                Cmp Number 3;
                                leave TIMED on Carry;
                                Lda Number 0;
                                Sta Own VIB_TIME;
                            }
                        }
                        Lda Own NEW_PARAM;
                        leave SETTLED;
                    }
                } or {
                    when EFFECTS { Lda Number 0; } // Nothing reads A without it; keeps Y.
                }
            }
            when EFFECTS { // Stores COMMAND, which nothing reads without it; keeps Y.
                Sta Own COMMAND;
                when NOTE_VIBRATO { Lda Entry VIBRATOS; } // Idle where the vibrato is 0, as A is; keeps A and Y.
            }
        }
        when EFFECTS { Sta Own PARAM; } // Nothing reads it without it; keeps Y.
        when ROW_ONCE { leave DONE; } // What follows is left out with it.
    }
};

/// The command is done once: A is it, 5 up. Behind it Y is the command, and A its parameter.
pub const COMMAND_TAKEN: &[Line] = text! {
    Tay;
    Lda Own NEW_PARAM;
};

/// The row is done, and its command: leaves `SOUNDS` where a note has started, else `TICKED`.
pub const NOTE_TOLD: &[Line] = text! {
    Lda Own NEW_NOTE;
    leave TICKED on Zero;
    Lda Number 0;
    Sta Own NEW_NOTE;
    leave SOUNDS;
};

/// The tick step. Leaves `SOUNDS` where a note has started; else ends at `TICKED`. It keeps no register.
pub const TICK_STEP: &[&[Line]] = pieces! {
    put FRAME_COUNTED;
    put GATE_TIMER_SET;
    scope TAKEN {
        put NOTE_TAKEN;
        put NOTE_BEGUN;
        put PROGRAMS_BEGUN;
    }
    scope DONE {
        put COMMAND_BEGUN;
        when ROW_ONCE { // Not come to in a song without it.
            put COMMAND_TAKEN;
            put AD_SET;
            put SR_SET;
            put WAVE_SET;
            put WAVE_POINTER_SET;
            put PULSE_POINTER_SET;
            put FILTER_POINTER_SET;
            put FILTER_CONTROL_SET;
            put CUTOFF_SET;
            put VOLUME_SET;
            put FUNK_SET;
            put TEMPO_SET;
            put FUNK_CHOSEN;
        }
    }
    put NOTE_TOLD;
};
