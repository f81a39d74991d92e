//! Small blocks that are worked by hand.

use crate::{Line, OPEN, text};

/// The outer scope's name.
pub const OUTER: u8 = 0;
/// The inner scope's name.
pub const INNER: u8 = 1;

/// A condition.
pub const SHORT: u8 = 5;
/// Another condition.
pub const LONG: u8 = 6;

/// The label of a counter.
pub const COUNTER: u16 = 3;
/// The label of the first voice's byte; those of the others stand 7 and 14 bytes on.
pub const LEVEL: u16 = 8;
/// The label of a list.
pub const LIST: u16 = 64;

/// Halves A as often as the counter says, 0 to 3 times; from 4 on it is stuck.
pub const HALVED: &[Line] = text! {
    scope OUTER {
        Ldy Var COUNTER;
        leave OUTER on Zero;
        turns 3 {
            Lsr;
            Dey;
            again off Zero;
        }
    }
};

/// Halves A as often as Y says, and at least once; how often it may depends on the layout.
pub const HALVED_OPEN: &[Line] = text! {
    turns OPEN {
        Lsr;
        Dey;
        again off Zero;
    }
};

/// Where A is 16 or more it becomes 1, else where Y is 8 or more 2, else 3; behind both scopes 4 is added, behind the
/// inner one 64 too.
pub const LEFT_TWICE: &[Line] = text! {
    scope OUTER {
        scope INNER {
            Cmp Number 16;
            Lda Number 1;
            leave OUTER on Carry;
            Cpy Number 8;
            Lda Number 2;
            leave INNER on Carry;
            Lda Number 3;
        }
        Ora Number 64;
    }
    Clc;
    Adc Number 4;
};

/// Looks for A in four bytes of the list, from the last one back. Y is where it stands, or 255 where it doesn't.
pub const SOUGHT: &[Line] = text! {
    scope OUTER {
        Ldy Number 3;
        turns 4 {
            Cmp Entry LIST;
            leave OUTER on Zero;
            Dey;
            leave OUTER on Minus;
            again;
        }
    }
};

/// A name stands for the innermost scope that has it.
pub const SAME_NAME: &[Line] = text! {
    scope OUTER {
        scope OUTER {
            leave OUTER;
        }
        Lda Number 1;
    }
};

/// A name that no scope around it has.
pub const LEFT_ALL: &[Line] = text! {
    leave OUTER;
};

/// Adds one to A twice in each of two turns; the inner loop goes on from within a scope.
pub const LOOP_IN_LOOP: &[Line] = text! {
    Ldy Number 2;
    turns 2 {
        Ldx Number 2;
        turns 2 {
            scope INNER {
                Clc;
                Adc Number 1;
                Dex;
                again off Zero;
            }
        }
        Dey;
        again off Zero;
    }
};

/// Halves A, and once more where a bit left it.
pub const HALVED_AGAIN: &[Line] = text! {
    turns 2 {
        Lsr;
        again on Carry;
    }
};

/// Adds one to the byte of the voice that X tells, but leaves it where it is 0, and writes what it has come to as the
/// voice's waveform.
pub const RISEN: &[Line] = text! {
    scope OUTER {
        Lda Own LEVEL;
        leave OUTER on Zero;
        Inc Own LEVEL;
        Lda Own LEVEL;
        Sta OwnRegister 4;
    }
};

/// Leaves by a jump under a test: where Y is below 8, A is 1 at the end, else 3.
pub const LEFT_FAR: &[Line] = text! {
    scope OUTER {
        Lda Number 1;
        Cpy Number 8;
        jump OUTER off Carry;
        Lda Number 3;
    }
};

/// The same where Y is 8 or more, and by the opposite test.
pub const LEFT_FAR_ON: &[Line] = text! {
    scope OUTER {
        Lda Number 1;
        Cpy Number 8;
        jump OUTER on Carry;
        Lda Number 3;
    }
};

/// One side where a condition holds, and the other where it doesn't; and lines that are kept where it holds.
pub const CHOSEN: &[Line] = text! {
    choose SHORT {
        Lda Number 1;
    } or {
        Lda Number 2;
    }
    when SHORT {
        Ora Number 128;
    }
};

/// Lines under two conditions.
pub const CHOSEN_APART: &[Line] = text! {
    choose SHORT {
        Lda Number 1;
    } or {
        Lda Number 2;
    }
    when LONG {
        Ora Number 128;
    }
};

/// A byte of a list by Y, and the byte that the pointer and Y name.
pub const READ: &[Line] = text! {
    Lda Number 0x20;
    Sta Pointer Low;
    Lda Number 0x10;
    Sta Pointer High;
    Ldy Number 2;
    Lda Entry LIST;
    Adc Pointed;
};

/// Stores by each kind of operand that no other block stores by, and over the end of memory.
pub const STORED: &[Line] = text! {
    Lda Number 7;
    Sta Register 24;
    Sta Timer Low;
    Lda Number 9;
    Sta Timer High;
    Asl Var COUNTER;
    Ldy Number 2;
    Sta Entry 0xEFFF;
    Lda Number 0xFF;
    Sta Pointer Low;
    Sta Pointer High;
    Ldy Number 3;
    Sta Pointed;
};

/// What is never come to, behind what is left in any case.
pub const NOT_COME_TO: &[Line] = text! {
    scope OUTER {
        leave OUTER;
        never;
    }
};

/// A sum with the decimal flag, at which the processor of this project stops.
pub const DECIMAL: &[Line] = text! {
    Sed;
    Adc Number 1;
};

/// Lines in bad form: a scope that nothing closes.
pub const NOT_CLOSED: [Line; 2] = [Line::Scope(OUTER), Line::Do(cpu6502::Mnemonic::Dey)];

/// Lines in bad form: an end too many.
pub const END_TOO_MANY: [Line; 2] = [Line::Do(cpu6502::Mnemonic::Dey), Line::End];

/// Lines in bad form: an end too many, in front of a scope that nothing closes.
pub const END_BEFORE_ITS_SCOPE: [Line; 3] = [
    Line::Do(cpu6502::Mnemonic::Dey),
    Line::End,
    Line::Scope(OUTER),
];
