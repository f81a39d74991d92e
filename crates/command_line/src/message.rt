//! What a run says last: a status, and the line that goes with it.

ghost use Rattle.std.specs.Prelude.{◌≡◌, ◌≤◌, length};
ghost use Rattle.command_line.specs.Message.{number_of, IsShort};

use crate::status::Status;
use arrayvec::ArrayVec;
use std::marker::Model;

/// The most pieces of a line.
const MOST_PIECES: usize = 16;

/// A piece of a line.
#[derive(Clone, Copy, Debug)]
pub enum Piece<'a> {
    /// Words that stand in each such line.
    Words(&'static str),
    /// The name of a file.
    Name(&'a str),
    /// A number, in decimal.
    Number(u64),
    /// One that may not have room in 64 bits, in decimal.
    Wide(u128),
    /// A byte, as two hexadecimal digits in upper case.
    Byte(u8),
    /// An address, as four hexadecimal digits in upper case.
    Address(u16),
    /// The bits of features, as six hexadecimal digits in lower case: the low 24 bits of the number.
    Features(u32),
    /// A sum, as eight hexadecimal digits in lower case.
    Sum(u32),
}

impl Default for Piece<'_> {
    /// A piece without bytes, for the room of a list that isn't used yet.
    fn default() -> Self {
        Piece::Words("")
    }
}

/// A status and the pieces of its line, which have at most 127 bytes beside names. It takes no memory.
#[derive(Drop)]
pub struct Message<'a> {
    status: Status,
    pieces: ArrayVec<Piece<'a>, MOST_PIECES>,
}

impl<'a> Model for Message<'a> {
    ghost use Rattle.command_line.specs.Message.{MessageState, number_of, IsShort};

    ghost Value = { MessageState };

    ghost view = { λ message. record {
      status = number_of message.status;
      pieces = message.pieces.items;
    } };

    ghost invariant = { λ message. IsShort message.pieces.items };
}

impl<'a> Message<'a> {
    /// The message with this status and these pieces of its line.
    pub fn new(status: Status, pieces: &[Piece<'a>]) -> Self
        requires few { length pieces.now ≤ 16 }
        requires short { IsShort pieces.now }
        ensures status { result.status ≡ number_of status }
        ensures pieces { result.pieces ≡ pieces.now }
    {
        let mut kept = ArrayVec::new();
        if kept.try_extend_from_slice(pieces).is_err() {
            unreachable!()
        }
        Message {
            status,
            pieces: kept,
        }
    }

    /// The exit status.
    pub fn status(&self) -> u8
        ensures { result ≡ self.now.status }
    {
        self.status.number()
    }

    /// The pieces of the line, but for its line feed.
    pub fn pieces(&self) -> &[Piece<'a>]
        ensures pieces { result.now ≡ self.now.pieces }
        ensures short { IsShort self.now.pieces }
    {
        self.pieces.as_slice()
    }
}
