//! The blocks of the effect step: the frequency slides, swings, or is at its note.

use crate::joints::{DOWN, EFFECTED, FALLS, FOUND, RISES, UP};
use crate::pieces::pieces;
use player_memory::conditions::{
    CLIMB, DROP, EFFECTS, FOUND_NOTE, NOTE_DEPENDENT, PORTA_DOWN, PORTA_UP, RISE, SINK, SWINGS,
    TIE_NOTE, TONE_PORTA,
};
use player_memory::labels::{
    COMMAND, FREQ_HIGH, FREQ_LOW, FREQUENCY_HIGHS, FREQUENCY_LOWS, LAST_NOTE, NEXT_FREQUENCY_HIGHS,
    NEXT_FREQUENCY_LOWS, NOTE, PARAM, PERIODS, SLIDES_HIGH, SLIDES_LOW, SPEED_LEFTS, SPEED_RIGHTS,
    VIB_TIME,
};
use scopes::{Line, text};

/// The row's speed isn't calculated, or has been; Y is the row, and the carry as before.
pub const STORED: u8 = 0;
/// A is how often the half tone is halved, at most 16.
pub const FEW: u8 = 1;
/// The half tone has been halved.
pub const WHOLE: u8 = 2;
/// A is the command, and Y the row.
pub const NAMED: u8 = 3;
/// A is another command; Y is the row.
pub const SLIDES: u8 = 4;
/// The time goes on; A is it less 2, and the carry is off. Y is the row.
pub const ADDED: u8 = 5;
/// The time goes on, with the carry off; A is it less 2, Y the row.
pub const CLEARED: u8 = 6;
/// The frequency is above that of the note, or is it; A is the low byte of the distance, Y the row.
pub const ABOVE: u8 = 7;

/// Behind `RUNNING`: A is the command, 1 up, 2 down, 3 to the note, 4 for a vibrato. A is it behind this block too, and
/// Y the row of the speed table, whose slide stands in the lists of slides.
pub const SPEED_STEP: &[Line] = text! {
    Ldy Own PARAM;
    when NOTE_DEPENDENT { // Idle where the row's left side is below $80; keeps Y, and A anew.
        scope STORED {
            Lda Entry SPEED_LEFTS;
            leave STORED off Minus;
            Ldy Own LAST_NOTE;
            Lda Entry NEXT_FREQUENCY_LOWS;
            Sec;
            Sbc Entry FREQUENCY_LOWS;
            Sta Pointer Low;
            Lda Entry NEXT_FREQUENCY_HIGHS;
            Sbc Entry FREQUENCY_HIGHS;
            Sta Pointer High;
            Ldy Own PARAM;
            Lda Entry SPEED_RIGHTS;
            scope FEW {
                Cmp Number 17;
                leave FEW off Carry;
                Lda Number 16;
            }
            scope WHOLE {
                Tay;
                leave WHOLE on Zero;
                turns 16 {
                    Lsr Pointer High;
                    Ror Pointer Low;
                    Dey;
                    again off Zero;
                }
            }
            Ldy Own PARAM;
            Lda Pointer Low;
            Sta Entry SLIDES_LOW;
            Lda Pointer High;
            Sta Entry SLIDES_HIGH;
        }
        scope NAMED {
            Lda Own COMMAND;
            leave NAMED off Zero;
            Lda Number 4;
        }
    }
};

/// The vibrato, where A is 4. Leaves `UP` or `DOWN` with a calculated speed, `RISES` or `FALLS` with another one. Where
/// A is less it keeps A and Y.
pub const SWING_STEP: &[Line] = text! {
    when SWINGS { // Idle where A is below 4; keeps A and Y.
        scope SLIDES {
            Cmp Number 4;
            leave SLIDES off Carry;
            scope ADDED {
                scope CLEARED {
                    Lda Own VIB_TIME;
                    leave CLEARED on Minus;
                    Cmp Entry PERIODS;
                    leave ADDED off Carry;
                    leave CLEARED on Zero;
                    Eor Number 0xFF;
                }
                Clc;
            }
            Adc Number 2;
            Sta Own VIB_TIME;
            Lsr;
            when NOTE_DEPENDENT { // Idle where the row's left side is below $80; keeps Y and the carry.
                scope STORED {
                    Lda Entry SPEED_LEFTS;
                    leave STORED off Minus;
                    leave UP off Carry;
                    leave DOWN on Carry;
                    never;
                }
            }
            leave RISES off Carry;
            leave FALLS on Carry;
            never;
        }
    }
};

/// Leaves `UP` where A is 1, and `DOWN` where it is 2; else it keeps Y.
pub const PORTA_STEP: &[Line] = text! {
    when PORTA_UP { Cmp Number 2; leave UP off Carry; } // Idle where A isn't 1; keeps A and Y.
    when PORTA_DOWN { Cmp Number 2; leave DOWN on Zero; } // Idle where A isn't 2; keeps A and Y.
};

/// Where A is 3: leaves `UP` or `DOWN`, by where the note is, and `FOUND` where it is reached.
pub const TONE_STEP: &[Line] = text! {
    when TIE_NOTE { // Idle where Y, the parameter, isn't 0; keeps Y.
        Cpy Number 0;
        leave FOUND on Zero;
    }
    when TONE_PORTA { // Not come to in a song without it.
        Ldy Own NOTE;
        Lda Own FREQ_LOW;
        Sec;
        Sbc Entry FREQUENCY_LOWS;
        Sta Pointer Low;
        Lda Own FREQ_HIGH;
        Sbc Entry FREQUENCY_HIGHS;
        Sta Pointer High;
        Ldy Own PARAM;
        Lda Pointer Low;
        scope ABOVE {
            leave ABOVE on Carry;
            Adc Entry SLIDES_LOW;
            Lda Pointer High;
            Adc Entry SLIDES_HIGH;
            leave FOUND on Carry;
            leave UP off Carry;
            never;
        }
        Clc;
        Sbc Entry SLIDES_LOW;
        Lda Pointer High;
        Sbc Entry SLIDES_HIGH;
        leave FOUND off Carry;
        leave DOWN on Carry;
    }
    never;
};

/// Behind `UP`: moves the frequency's high byte up by the slide's. The carry is off, and stays off; it keeps Y.
pub const CLIMB_STEP: &[Line] = text! {
    when CLIMB { // Not come to in a song without it.
        Lda Own FREQ_HIGH;
        Adc Entry SLIDES_HIGH;
        Sta Own FREQ_HIGH;
        Clc;
    }
};

/// Behind `DOWN`: moves the frequency's high byte down by the slide's. The carry is on, and stays on; it keeps Y.
pub const DROP_STEP: &[Line] = text! {
    when DROP { // Not come to in a song without it.
        Lda Own FREQ_HIGH;
        Sbc Entry SLIDES_HIGH;
        Sta Own FREQ_HIGH;
        Sec;
    }
};

/// Behind `RISES`: moves the frequency up by the slide's low byte, and leaves `EFFECTED`. The carry is off.
pub const RISE_STEP: &[Line] = text! {
    when RISE { // Not come to in a song without it.
        Lda Own FREQ_LOW;
        Adc Entry SLIDES_LOW;
        Sta Own FREQ_LOW;
        leave EFFECTED off Carry;
        Inc Own FREQ_HIGH;
        leave EFFECTED;
    }
};

/// Behind `FALLS`: moves the frequency down by the slide's low byte, and leaves `EFFECTED`. The carry is on.
pub const SINK_STEP: &[Line] = text! {
    when SINK { // Not come to in a song without it.
        Lda Own FREQ_LOW;
        Sbc Entry SLIDES_LOW;
        Sta Own FREQ_LOW;
        leave EFFECTED on Carry;
        Dec Own FREQ_HIGH;
        leave EFFECTED;
    }
};

/// Behind `FOUND`: A is the note that is reached, as a number for the frequency.
pub const FOUND_STEP: &[Line] = text! {
    when FOUND_NOTE { // Not come to in a song without it.
        Lda Own NOTE;
    }
};

/// The effect step, behind `RUNNING`: A is the command, 1 up, 2 down, 3 to the note, 4 for a vibrato. Leaves
/// `EFFECTED`, or ends with the number for the frequency in A.
pub const EFFECT_STEP: &[&[Line]] = pieces! {
    when EFFECTS { // Not come to in a song without it.
        scope FOUND {
            scope FALLS {
                scope DOWN {
                    scope RISES {
                        scope UP {
                            put SPEED_STEP;
                            put SWING_STEP;
                            put PORTA_STEP;
                            put TONE_STEP;
                        }
                        put CLIMB_STEP;
                    }
                    put RISE_STEP;
                }
                put DROP_STEP;
            }
            put SINK_STEP;
        }
        put FOUND_STEP;
    }
};
