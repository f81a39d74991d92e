//! Small blocks whose numbers are worked by hand.

use scopes::{Line, text};

/// The name of a scope.
pub const OUT: u8 = 0;
/// The name of a scope in it.
pub const IN: u8 = 1;
/// Whether a loop may be left for what is behind the scope in it.
pub const KEPT: u8 = 0;

/// The label of a byte.
pub const BYTE: u16 = 0;

/// One of two ways: where the zero flag is on A becomes 2, else 1, which is stored.
pub const ONE_OF_TWO: &[Line] = text! {
    scope OUT {
        scope IN {
            leave IN on Zero;
            Lda Number 1;
            Sta Var BYTE;
            leave OUT;
        }
        Lda Number 2;
    }
};

/// A loop of three turns, in each of which a loop of two; both may be left for what follows them.
pub const IN_LOOPS: &[Line] = text! {
    scope OUT {
        turns 3 {
            Lda Var BYTE;
            turns 2 {
                Dex;
                leave OUT on Zero;
                again on Carry;
            }
            again on Minus;
        }
    }
    Lda Number 1;
    Inx;
    leave IN;
};

/// Writes by an index, in front of what is never come to.
pub const WRITES: &[Line] = text! {
    Sta Own BYTE;
    Dec Own BYTE;
    never;
    Lda Number 1;
};

/// A loop that comes to no end of its own, and may be left for the end of the outer scope, and, where that is kept, for
/// that of the inner one.
pub const LEFT_FAR: &[Line] = text! {
    scope OUT {
        scope IN {
            turns 2 {
                leave OUT on Zero;
                when KEPT {
                    leave IN on Carry;
                }
                again;
            }
            never;
        }
        Lda Number 1;
    }
    Inx;
    Inx;
};

/// A loop in which a scope has the name of one around the loop, and is left by it.
pub const SAME_NAME: &[Line] = text! {
    scope IN {
        turns 2 {
            scope IN {
                leave IN on Zero;
            }
            again;
        }
        never;
    }
    Lda Number 1;
};

/// The same loop as one that is left by one of two ways, of which one is kept.
pub const LEFT_EITHER: &[Line] = text! {
    scope OUT {
        scope IN {
            turns 2 {
                choose KEPT {
                    leave IN on Carry;
                } or {
                    leave OUT on Carry;
                }
                again;
            }
            never;
        }
        Lda Number 1;
    }
    Inx;
    Inx;
};

/// A loop that goes on for ever, and is stuck after its turn.
pub const ENDLESS: &[Line] = text! {
    turns 1 {
        again;
    }
};
