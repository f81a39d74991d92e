//! How a job ends: with a report, or refused.

ghost use Rattle.std.specs.Prelude.{◌≡◌, ◌≤◌, length};
ghost use Rattle.command_line.specs.Last.{last_of, last_word, Says};
ghost use Rattle.command_line.specs.Message.{number_of, line_of, IsShort};

use crate::message::{Message, Piece};
use crate::status::Status;
use base::NoMemory;
use goat_io::SinkFault;

/// What is left to print of a job that is done.
#[derive(Drop)]
pub enum Report<'a> {
    /// A last line.
    Says(Message<'a>),
    /// Nothing: all lines were printed.
    Shown,
}

/// Why a run is over before its job is done.
#[derive(Drop)]
pub enum Refusal<'a> {
    /// The run ends with this status and this line.
    Says(Message<'a>),
    /// The sink failed to take a line; no other follows.
    SinkFault,
    /// Out of memory.
    NoMemory,
}

impl<'a> Report<'a> {
    /// A job that is done, with the pieces of its last line.
    pub fn says(pieces: &[Piece<'a>]) -> Self
        requires few { length pieces.now ≤ 16 }
        requires short { IsShort pieces.now }
        ensures { last_word (Ok result) ≡ Says 0 (line_of pieces.now) }
    {
        Report::Says(Message::new(Status::Done, pieces))
    }
}

impl<'a> Refusal<'a> {
    /// The refusal with this status and these pieces of its line.
    pub fn says(status: Status, pieces: &[Piece<'a>]) -> Self
        requires few { length pieces.now ≤ 16 }
        requires short { IsShort pieces.now }
        ensures { last_of result ≡ Says (number_of status) (line_of pieces.now) }
    {
        Refusal::Says(Message::new(status, pieces))
    }
}

impl From<NoMemory> for Refusal<'_> {
    ghost use Rattle.std.specs.Prelude.{◌≡◌};
    ghost use Rattle.command_line.specs.declared.refusal.Refusal.TheVariants as refusal;

    ghost from_gives = { λ _ it. it ≡ refusal.NoMemory };

    fn from(_: NoMemory) -> Self {
        Refusal::NoMemory
    }
}

impl From<SinkFault> for Refusal<'_> {
    ghost use Rattle.command_line.specs.Last.{IsOfSink};

    ghost from_gives = { IsOfSink };

    fn from(fault: SinkFault) -> Self {
        match fault {
            SinkFault::Failed => Refusal::SinkFault,
            SinkFault::NoMemory => Refusal::NoMemory,
        }
    }
}
