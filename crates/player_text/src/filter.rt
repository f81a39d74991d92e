//! The block of the filter.

use crate::pieces::pieces;
use player_memory::conditions::{FILTER_TABLE, FILTER_USED, SET_VOLUME};
use player_memory::labels::{
    CUTOFF, FILTER_CONTROL, FILTER_LEFTS, FILTER_POINTER, FILTER_RIGHTS, FILTER_TIME, FILTER_TYPE,
    NEXT_FILTER_LEFTS, VOLUME,
};
use scopes::{Line, text};

/// Ends the step: the program stays on its row.
const STAYS: u8 = 0;
/// The row is done; Y is it, and A the left side of the row behind it.
pub const JUDGED: u8 = 1;
/// The row is done; Y is it.
pub const NEXT: u8 = 2;
/// A frame of a row that moves the cutoff; Y is the row.
pub const MOVES: u8 = 3;
/// A row that moves the cutoff begins; A is its time, Y the row.
const TIMED: u8 = 4;
/// A row sets the cutoff; Y is the row.
const CUTS: u8 = 5;
/// A is the row to which the program goes.
const ROW: u8 = 6;

/// One row of the filter program, or one frame of it. It keeps no register.
pub const FILTER_STEP: &[Line] = text! {
    when FILTER_TABLE { // Idle where FILTER_POINTER is 0; keeps no register.
        scope STAYS {
            Ldy Var FILTER_POINTER;
            leave STAYS on Zero;
            scope JUDGED {
                scope NEXT {
                    scope MOVES {
                        Lda Var FILTER_TIME;
                        leave MOVES off Zero;
                        scope TIMED {
                            scope CUTS {
                                Lda Entry FILTER_LEFTS;
                                leave CUTS on Zero;
                                leave TIMED off Minus;
                                And Number 0x70;
                                Sta Var FILTER_TYPE;
                                Lda Entry FILTER_RIGHTS;
                                Sta Var FILTER_CONTROL;
                                Lda Entry NEXT_FILTER_LEFTS;
                                leave JUDGED off Zero;
                                Iny;
                            }
                            Lda Entry FILTER_RIGHTS;
                            Sta Var CUTOFF;
                            leave NEXT;
                        }
                        Sta Var FILTER_TIME;
                    }
                    Lda Var CUTOFF;
                    Clc;
                    Adc Entry FILTER_RIGHTS;
                    Sta Var CUTOFF;
                    Dec Var FILTER_TIME;
                    leave STAYS off Zero;
                }
                Lda Entry NEXT_FILTER_LEFTS;
            }
            scope ROW {
                Cmp Number 0xFF;
                Iny;
                Tya;
                leave ROW off Carry;
                Lda Entry FILTER_RIGHTS;
            }
            Sta Var FILTER_POINTER;
        }
    }
};

/// Writes the filter's four registers. It keeps no register.
pub const FILTER_REGISTERS: &[Line] = text! {
    Lda Number 0;
    Sta Register 21;
    when FILTER_USED { Lda Var CUTOFF; } // Idle where it is 0, as A is; keeps A.
    Sta Register 22;
    when FILTER_USED { Lda Var FILTER_CONTROL; } // Idle where it is 0, as A is; keeps A.
    Sta Register 23;
    when FILTER_USED { Lda Var FILTER_TYPE; } // Idle where it is 0, as A is; keeps A.
    choose SET_VOLUME { Ora Var VOLUME; } or { Ora Number 15; } // Both alike where the volume is 15.
    Sta Register 24;
};

/// What a frame does before its voices.
pub const FILTER: &[&[Line]] = pieces! {
    put FILTER_STEP;
    put FILTER_REGISTERS;
};
