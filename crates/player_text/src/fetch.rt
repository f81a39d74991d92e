//! The blocks that fetch a row.

use crate::joints::{BEGINS, FETCHES, FIRST, LATE, PULSED, SOUNDS, WALKS};
use crate::pieces::pieces;
use crate::walk::{ORDER_WALKED, PATTERN_BEGUN, PATTERN_FOUND, PLAY_REPEATED};
use player_memory::conditions::{
    FIRST_HOLDS, GATE_NOTE, HELD_NOTE, LEGATO, NO_HARD_RESTART, OWN_TIMER, ROW_COMMAND, ROW_TONE,
    SKIP_FIRST, SKIP_PULSE, TRANSPOSES,
};
use player_memory::labels::{
    AD, ENVELOPE_FROM, GATE, GATE_FROM, GATE_TIMER, GATE_TIMERS, INSTRUMENT, KEPT_PARAM,
    NEW_COMMAND, NEW_NOTE, NEW_PARAM, OFFSET, ONE_TIMER, PATTERN_HIGH, PATTERN_LOW, REST, SR, TICK,
    TRANSPOSE,
};
use scopes::{Line, text};

/// The row is due.
pub const DUE: u8 = 0;
/// No rests are left, so an entry is next.
pub const ENTRY: u8 = 1;
/// The command of the packed pattern is known; Y is the offset.
pub const RUNNING_ON: u8 = 2;
/// The entry has no instrument; A is its byte, Y the offset.
pub const OLD: u8 = 3;
/// Y is the offset of the entry's last byte, and the carry is off exactly where it is a note.
pub const READ: u8 = 4;
/// It is a note; A is it, Y the offset, and the carry is off.
pub const NOTES: u8 = 5;
/// The entry has no command; A is its byte, Y the offset.
pub const UNNAMED: u8 = 6;
/// It is a run of rests; A is its byte, Y the offset, and the carry is on.
pub const RESTS: u8 = 7;
/// A is the offset of the next entry, 0 at the end of the pattern.
pub const END: u8 = 8;
/// The gate is set.
pub const HELD: u8 = 9;
/// Whether it is tick 0 of the pattern's first row is remembered; Y is the offset.
pub const LATER: u8 = 10;

/// Leaves `FETCHES` where a row is due that has an entry of its own, with the entry's offset in Y. Leaves `PULSED`
/// where no row is due, and with a rest, or `SOUNDS` with one where an option says so. Leaves `LATE` before the
/// pattern's first row where an option asks for it, with 1 in Y. Ends, or leaves `WALKS`, where the pattern is through.
pub const ROW_AWAITED: &[Line] = text! {
    scope DUE {
        Lda Own TICK;
        choose OWN_TIMER { Cmp Own GATE_TIMER; } or { Cmp Var ONE_TIMER; } // Both alike in a song without it; keeps A and Y.
        leave DUE on Zero;
        jump PULSED on Carry;
        Ldy Own OFFSET;
        leave WALKS on Zero;
        when SKIP_FIRST { Cpy Number 1; leave LATE on Zero; }
        leave PULSED;
    }
    scope ENTRY {
        Lda Own REST;
        leave ENTRY on Zero;
        Dec Own REST;
        when SKIP_PULSE { leave SOUNDS; }
        leave PULSED;
    }
    Ldy Own OFFSET;
    leave FETCHES off Zero;
};

/// Behind `LATE`: the pattern's first row is next, and Y is 1. Leaves `FETCHES` where it is due, `FIRST` at tick 0
/// where an option asks for it, else `PULSED`.
pub const ROW_REACHED: &[Line] = text! {
    Lda Own TICK;
    when SKIP_FIRST { leave FIRST on Zero; }
    choose OWN_TIMER { Cmp Own GATE_TIMER; } or { Cmp Var ONE_TIMER; } // Both alike in a song without it; keeps A and Y.
    leave FETCHES on Zero;
    leave PULSED;
};

/// Behind `FIRST`: A and the tick are 0, Y is 1. Leaves `FETCHES` where the row is due, `PULSED` where rests are left
/// of the row before, and else `SOUNDS`: the option leaves the pulse step out.
pub const FIRST_REACHED: &[Line] = text! {
    when SKIP_FIRST { // A and the tick are 0, Y and the offset are 1.
        choose OWN_TIMER { Cmp Own GATE_TIMER; } or { Cmp Var ONE_TIMER; } // Both alike in a song without it; keeps A and Y.
        leave FETCHES on Zero;
        Lda Own REST;
        jump PULSED off Zero;
        leave SOUNDS;
    }
};

/// Behind `FETCHES`: Y is the entry's offset, which isn't 0. Takes its instrument. Behind it A is the byte that
/// follows, and Y the offset of that.
pub const ENTRY_BEGUN: &[Line] = text! {
    when SKIP_FIRST { // KEPT_PARAM is 0 exactly at tick 0 of the pattern's first row; keeps Y.
        scope LATER {
            Sty Var KEPT_PARAM;
            Cpy Number 1;
            leave LATER off Zero;
            Lda Own TICK;
            Sta Var KEPT_PARAM;
        }
    }
    when ROW_COMMAND { // Stores NEW_COMMAND, which nothing reads without it; keeps Y.
        scope RUNNING_ON {
            Cpy Number 1;
            leave RUNNING_ON off Zero;
            Lda Number 0;
            Sta Own NEW_COMMAND;
        }
    }
    Lda Own PATTERN_LOW;
    Sta Pointer Low;
    Lda Own PATTERN_HIGH;
    Sta Pointer High;
    Lda Pointed;
    scope OLD {
        Cmp Number 0x40;
        leave OLD on Carry;
        Sta Own INSTRUMENT;
        Iny;
        Lda Pointed;
    }
};

/// Takes the entry's command, and its note, mask or rests: A is its first byte, Y the offset of that. Behind it Y is
/// the offset of its last byte, and the carry is off exactly where it is a note.
pub const ENTRY_READ: &[Line] = text! {
    scope READ {
        scope NOTES {
            scope UNNAMED {
                Cmp Number 0x60;
                leave UNNAMED on Carry;
                Cmp Number 0x50;
                when ROW_COMMAND { // Stores NEW_COMMAND, which nothing reads without it; keeps Y and the carry.
                    And Number 0x0F;
                    Sta Own NEW_COMMAND;
                }
                Iny;
                when ROW_COMMAND { Lda Pointed; Sta Own NEW_PARAM; } // Nothing reads it without it; keeps Y and the carry.
                leave READ on Carry;
                Iny;
                Lda Pointed;
            }
            Cmp Number 0xBD;
            leave NOTES off Carry;
            leave READ on Zero;
            when GATE_NOTE { // Idle where A is $C0 up; keeps A, Y and the carry, which is on.
                scope RESTS {
                    Cmp Number 0xC0;
                    leave RESTS on Carry;
                    Ora Number 0xF0;
                    Sta Own GATE;
                    Sec;
                    leave READ on Carry;
                    never;
                }
            }
            Sbc Number 0xC0;
            Sta Own REST;
            leave READ on Carry;
            never;
        }
        when TRANSPOSES { // Idle where the transpose is 0; keeps A, Y and the carry, which is off.
            Adc Own TRANSPOSE;
            Clc;
        }
        Sta Own NEW_NOTE;
    }
};

/// Goes on to the next entry: Y is the offset of the last byte of this one. It keeps the carry.
pub const ENTRY_ENDED: &[Line] = text! {
    Iny;
    scope END {
        Lda Pointed;
        leave END on Zero;
        Tya;
    }
    Sta Own OFFSET;
};

/// Closes the gate before a note, where the carry is off, by the instrument. It keeps no register.
pub const GATE_CLOSED: &[Line] = text! {
    scope HELD {
        leave HELD on Carry;
        when ROW_TONE { // Idle where NEW_COMMAND isn't 3; keeps Y.
            Lda Own NEW_COMMAND;
            Cmp Number 3;
            leave HELD on Zero;
        }
        when HELD_NOTE { // Idle where the instrument holds nothing.
            choose FIRST_HOLDS { // Both tell the same in a song without it: the carry that the envelope is held.
                Ldy Own INSTRUMENT;
                Lda Entry GATE_TIMERS;
                Asl;
                when LEGATO { leave HELD on Minus; } // Idle where the minus is off; keeps A, Y and the carry.
            } or {
                Lda Own INSTRUMENT;
                when LEGATO { Cmp Var GATE_FROM; leave HELD on Carry; } // Idle where A is below it; keeps A and Y.
                when NO_HARD_RESTART { Cmp Var ENVELOPE_FROM; } // Idle where A is below it; keeps A and Y.
            }
        }
        Lda Number 0xFE;
        Sta Own GATE;
        when NO_HARD_RESTART { leave HELD on Carry; } // Idle where the carry is off.
        Lda Number 0x0F;
        Sta Own AD;
        Lda Number 0;
        Sta Own SR;
    }
};

/// Leaves `SOUNDS` where an option leaves the pulse step out. It keeps no register.
pub const PULSE_LEFT_OUT: &[Line] = text! {
    when SKIP_PULSE { leave SOUNDS; }
    when SKIP_FIRST { Lda Var KEPT_PARAM; leave SOUNDS on Zero; }
};

/// Fetches a row where one is due, behind the orderlist's walk where a pattern begins. Ends at `PULSED`, where the
/// pulse step goes on; leaves `SOUNDS` where an option leaves that out. It keeps no register.
pub const FETCH_STEP: &[&[Line]] = pieces! {
    scope FETCHES {
        scope FIRST {
            scope LATE {
                scope WALKS {
                    put ROW_AWAITED;
                }
                scope BEGINS {
                    put PLAY_REPEATED;
                    put ORDER_WALKED;
                    put PATTERN_FOUND;
                }
                put PATTERN_BEGUN;
            }
            put ROW_REACHED;
        }
        put FIRST_REACHED;
    }
    put ENTRY_BEGUN;
    put ENTRY_READ;
    put ENTRY_ENDED;
    put GATE_CLOSED;
    put PULSE_LEFT_OUT;
};
