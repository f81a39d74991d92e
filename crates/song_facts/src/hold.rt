//! What an instrument holds before its notes.

ghost use Rattle.std.specs.Prelude.{◌≡◌, ◌↔◌, IsTrue};
ghost use Rattle.song_facts.specs.Hold.{HoldsMore};

use song_model::Instrument;

/// What an instrument holds before each of its notes, by the flags of its gateoff timer.
#[derive(Clone, Copy, Debug, PartialEq, Eq)]
pub enum Hold {
    /// Neither flag: the gate goes off, and the envelope is cut short by a hard restart.
    Nothing,
    /// Bit `$80` and not `$40`: the gate goes off, and the envelope stays as it is.
    Envelope,
    /// Bit `$40`: the gate stays, and the envelope with it.
    Gate,
}

impl Hold {
    ghost use Rattle.song_facts.specs.Hold.{held_by, how_much};

    /// What an instrument with this gateoff timer holds.
    pub fn of(gate_timer: u8) -> Hold
        ensures { result ≡ held_by gate_timer }
    {
        if gate_timer & 0x40 != 0 {
            Hold::Gate
        } else if gate_timer & 0x80 != 0 {
            Hold::Envelope
        } else {
            Hold::Nothing
        }
    }

    /// How much that is: 0 nothing, 1 the envelope, 2 the gate as well.
    pub fn how_much(self) -> u8
        ensures { result ≡ how_much self }
    {
        self as u8
    }
}

/// Whether one instrument holds more than the other.
pub fn holds_more(one: &Instrument, other: &Instrument) -> bool
    ensures { IsTrue result ↔ HoldsMore one.now other.now }
{
    Hold::of(other.gate_timer).how_much() < Hold::of(one.gate_timer).how_much()
}
