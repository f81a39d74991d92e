//! Small blocks whose lines are worked by hand.

use scopes::{Line, text};

/// The name of a scope.
pub const OUT: u8 = 0;

/// Whether a sum is at most 15.
pub const CAPPED: u8 = 2;
/// Whether a sum goes to the volume's register.
pub const LOUD: u8 = 3;

/// The label from which the places of a block are counted.
pub const START: u16 = 0;
/// The label of a counter.
pub const COUNTER: u16 = 1;
/// The label of a list.
pub const LIST: u16 = 2;

/// Looks for A in four bytes of the list, from the last one back. Y is where it stands, or 255 where it doesn't.
pub const SOUGHT: &[Line] = text! {
    scope OUT {
        Ldy Number 3;
        turns 4 {
            Cmp Entry LIST;
            leave OUT on Zero;
            Dey;
            leave OUT on Minus;
            again;
        }
    }
};

/// Lines in bad form: a scope that nothing closes.
pub const NOT_CLOSED: [Line; 1] = [Line::Scope(OUT)];

/// Lines in bad form: a choice without its other side.
pub const ONE_SIDE: [Line; 2] = [Line::Choose(CAPPED), Line::End];

/// Lines in bad form: an other side without its choice.
pub const OTHER_SIDE: [Line; 3] = [Line::When(CAPPED), Line::Or, Line::End];

/// Lines that leave a scope that isn't around them.
pub const LEFT: [Line; 1] = [Line::Leave(OUT)];

/// Adds the byte at `$101C` to the counter, by the pointer. Where it is capped, a sum of 16 or more isn't kept; where
/// it is loud, what is kept goes to the volume's register too.
pub const SUMMED: &[Line] = text! {
    Lda Number 0x1B;
    Sta Pointer Low;
    Lda Number 0x10;
    Sta Pointer High;
    Ldy Number 1;
    scope OUT {
        Clc;
        Lda Pointed;
        Adc Var COUNTER;
        when CAPPED {
            Cmp Number 16;
            jump OUT on Carry;
        }
        choose LOUD {
            Sta Register 24;
            Sta Var COUNTER;
        } or {
            Sta Var COUNTER;
        }
    }
};
