//! The block of the pulse step.

use player_memory::conditions::PULSE_TABLE;
use player_memory::labels::{
    NEXT_PULSE_LEFTS, PULSE_HIGH, PULSE_LEFTS, PULSE_LOW, PULSE_POINTER, PULSE_RIGHTS, PULSE_TIME,
};
use scopes::{Line, text};

/// Ends the block: the program stays on its row.
const STAYS: u8 = 0;
/// The program goes on to its next row; Y is the row.
pub const NEXT: u8 = 1;
/// A frame of a row that moves the width.
pub const MOVES: u8 = 2;
/// A row that moves the width begins; A is its time.
const TIMED: u8 = 3;
/// The width has been moved.
pub const MOVED: u8 = 4;
/// The width falls; A is what is added, less 256.
const FALLS: u8 = 5;
/// A is the row to which the program goes.
const ROW: u8 = 6;

/// One row of the voice's pulse program, or one frame of it. It keeps no register.
pub const PULSE: &[Line] = text! {
    when PULSE_TABLE { // Idle where PULSE_POINTER is 0; keeps no register.
        scope STAYS {
            Ldy Own PULSE_POINTER;
            leave STAYS on Zero;
            scope NEXT {
                scope MOVES {
                    Lda Own PULSE_TIME;
                    leave MOVES off Zero;
                    scope TIMED {
                        Lda Entry PULSE_LEFTS;
                        leave STAYS on Zero;
                        leave TIMED off Minus;
                        // From $80 on it sets the width; of the high byte the low four bits count.
                        Sta Own PULSE_HIGH;
                        Lda Entry PULSE_RIGHTS;
                        Sta Own PULSE_LOW;
                        leave NEXT;
                    }
                    Sta Own PULSE_TIME;
                }
                scope MOVED {
                    scope FALLS {
                        Clc;
                        Lda Entry PULSE_RIGHTS;
                        leave FALLS on Minus;
                        Adc Own PULSE_LOW;
                        Sta Own PULSE_LOW;
                        leave MOVED off Carry;
                        Inc Own PULSE_HIGH;
                        leave MOVED on Carry;
                        never;
                    }
                    Adc Own PULSE_LOW;
                    Sta Own PULSE_LOW;
                    leave MOVED on Carry;
                    Dec Own PULSE_HIGH;
                }
                Dec Own PULSE_TIME;
                leave STAYS off Zero;
            }
            scope ROW {
                Lda Entry NEXT_PULSE_LEFTS;
                Cmp Number 0xFF;
                Iny;
                Tya;
                leave ROW off Carry;
                Lda Entry PULSE_RIGHTS;
            }
            Sta Own PULSE_POINTER;
        }
    }
};
