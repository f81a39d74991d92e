//! The block of the wave step.

use crate::joints::{COMMANDED, PITCHED};
use player_memory::conditions::{SPECIAL_ROW, WAVE_COMMAND, WAVE_DELAY, WAVE_TABLE};
use player_memory::labels::{
    NEXT_WAVE_LEFTS, NEXT_WAVE_RIGHTS, NOTE, WAVE, WAVE_LEFTS, WAVE_POINTER, WAVE_RIGHTS, WAVE_TIME,
};
use scopes::{Line, text};

/// Ends the step: no frequency is set.
const IDLE: u8 = 0;
/// The row is done; Y is it.
const NEXT: u8 = 1;
/// The row sets the waveform; A is it, Y the row.
const SOUNDING: u8 = 2;
/// The delay is over; Y is the row.
const OVER: u8 = 3;
/// The program has gone on, and the carry is off; Y is the row that was done.
const MOVED: u8 = 4;
/// The program goes on to the row behind; Y is the row that was done, and the carry is off.
const STEP: u8 = 5;
/// A is the number for the frequency.
const FIXED: u8 = 6;

/// One row of the voice's wave program, or one frame of a delay. The effect step follows where it ends. Leaves
/// `PITCHED` with the number for the frequency in A, and `COMMANDED` with a row's command, `$F0` up, in A and its row
/// in Y.
pub const WAVE_STEP: &[Line] = text! {
    when WAVE_TABLE { // Idle where WAVE_POINTER is 0; keeps no register.
        scope IDLE {
            Ldy Own WAVE_POINTER;
            leave IDLE on Zero;
            Lda Entry WAVE_LEFTS;
            scope NEXT {
                when SPECIAL_ROW { // Idle where A is below $E0; keeps A and Y.
                    scope SOUNDING {
                        Cmp Number 0xE0;
                        leave SOUNDING off Carry;
                        when WAVE_COMMAND { // Idle where A is below $F0; keeps A and Y.
                            Cmp Number 0xF0;
                            leave NEXT on Carry;
                        }
                        when WAVE_DELAY { // Not come to in a song without it.
                            scope OVER {
                                And Number 0x0F;
                                Cmp Own WAVE_TIME;
                                leave OVER on Zero;
                                Inc Own WAVE_TIME;
                                leave IDLE off Zero;
                                never;
                            }
                            Lda Number 0;
                            Sta Own WAVE_TIME;
                            leave NEXT on Zero;
                            never;
                        }
                    }
                }
                Sta Own WAVE;
            }
            scope MOVED {
                scope STEP {
                    Lda Entry NEXT_WAVE_LEFTS;
                    Cmp Number 0xFF;
                    leave STEP off Zero;
                    Lda Entry NEXT_WAVE_RIGHTS;
                    Sta Own WAVE_POINTER;
                    Clc;
                    leave MOVED off Carry;
                    never;
                }
                Inc Own WAVE_POINTER;
            }
            when WAVE_COMMAND { // Idle where the row's left side is below $F0; keeps Y and the carry, which is off.
                Lda Entry WAVE_LEFTS;
                Cmp Number 0xF0;
                leave COMMANDED on Carry;
            }
            scope FIXED {
                Lda Entry WAVE_RIGHTS;
                leave IDLE on Zero;
                leave FIXED off Minus;
                Adc Own NOTE;
                And Number 0x7F;
            }
            leave PITCHED;
        }
    }
};
