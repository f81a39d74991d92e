//! The blocks of the orderlist's walk, where a pattern begins.

use crate::joints::BEGINS;
use player_memory::conditions::{REPEATS, TRANSPOSES};
use player_memory::labels::{
    OFFSET, ORDER_HIGH, ORDER_LOW, ORDER_PLACE, PATTERN_HIGH, PATTERN_LOW, PATTERNS_HIGH,
    PATTERNS_LOW, REPEAT, TRANSPOSE,
};
use scopes::{Line, OPEN, text};

/// No plays are left of the pattern.
pub const NEW: u8 = 0;
/// The pattern is found; A is its number, Y the place behind it.
pub const PATTERN: u8 = 1;
/// It is no repeat; A is the byte, Y the place behind it, and the carry is on.
pub const ABOVE: u8 = 2;
/// It is the endmark; Y is the place behind it, and the carry is on.
pub const ENDMARK: u8 = 3;

/// Leaves `BEGINS` where the pattern before is played once more. It keeps no register.
pub const PLAY_REPEATED: &[Line] = text! {
    when REPEATS { // Idle where no plays are left; keeps no register.
        scope NEW {
            Lda Own REPEAT;
            leave NEW on Zero;
            Dec Own REPEAT;
            leave BEGINS off Minus;
            never;
        }
    }
};

/// Walks along the orderlist to the next pattern: over transposes and repeats, and from the endmark on at the restart
/// position, in as many turns as the song's longest walk has looks. Behind it A is the pattern's number, and Y the place behind that.
pub const ORDER_WALKED: &[Line] = text! {
    Lda Own ORDER_LOW;
    Sta Pointer Low;
    Lda Own ORDER_HIGH;
    Sta Pointer High;
    Ldy Own ORDER_PLACE;
    scope PATTERN {
        turns OPEN {
            Lda Pointed;
            Iny;
            Cmp Number 0xD0;
            leave PATTERN off Carry;
            when REPEATS { // Idle where A isn't $D0 to $DF; keeps A, Y and the carry, which is on.
                scope ABOVE {
                    Cmp Number 0xE0;
                    leave ABOVE on Carry;
                    Sbc Number 0xCF;
                    Sta Own REPEAT;
                    again on Carry;
                    never;
                }
            }
            when TRANSPOSES { // Idle where A is $FF; keeps Y and the carry, which is on.
                scope ENDMARK {
                    Cmp Number 0xFF;
                    leave ENDMARK on Zero;
                    Sbc Number 0xEF;
                    Sta Own TRANSPOSE;
                    again;
                }
            }
            Lda Pointed;
            Tay;
            again on Carry;
            never;
        }
    }
};

/// Finds a pattern: A is its number, Y the place behind that in the orderlist. It keeps no register.
pub const PATTERN_FOUND: &[Line] = text! {
    Sta Pointer Low;
    Tya;
    Sta Own ORDER_PLACE;
    Ldy Pointer Low;
    Lda Entry PATTERNS_HIGH;
    Sta Own PATTERN_HIGH;
    Lda Entry PATTERNS_LOW;
    Sta Own PATTERN_LOW;
};

/// Behind `BEGINS`: the pattern's first entry is next. Y is its offset, 1, behind it.
pub const PATTERN_BEGUN: &[Line] = text! {
    Lda Number 1;
    Sta Own OFFSET;
    Tay;
};
