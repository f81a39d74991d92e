//! Numbers of a voice that have fewer bits than their bytes.

ghost use Rattle.std.specs.Prelude.{◌≡◌, ◌<◌, ◌%◌};

use std::marker::Model;

/// The note whose half tone a speed may be taken from, in half tones from C-0: 0 to 127.
#[derive(Clone, Copy, Debug, PartialEq, Eq)]
pub struct LastNote {
    half_tones: u8,
}

impl Model for LastNote {
    ghost use Rattle.std.specs.Prelude.{ℕ, ◌<◌};

    ghost Value = { ℕ };

    ghost view = { λ note. note.half_tones };

    ghost inverse = { λ n. record { half_tones = n } };

    ghost invariant = { λ note. note.half_tones < 128 };
}

impl LastNote {
    /// The low seven bits of this number.
    pub fn of(half_tones: u8) -> LastNote
        ensures { result ≡ half_tones % 128 }
    {
        LastNote {
            half_tones: half_tones % 128,
        }
    }

    /// The half tones from C-0.
    pub fn half_tones(self) -> u8
        ensures half_tones { result ≡ self }
        ensures range { result < 128 }
    {
        self.half_tones
    }
}

/// A pulse width: 0 to 4,095 of the 4,096 parts of a wave.
#[derive(Clone, Copy, Debug, PartialEq, Eq)]
pub struct PulseWidth {
    parts: u16,
}

impl Model for PulseWidth {
    ghost use Rattle.std.specs.Prelude.{ℕ, ◌<◌};

    ghost Value = { ℕ };

    ghost view = { λ width. width.parts };

    ghost inverse = { λ n. record { parts = n } };

    ghost invariant = { λ width. width.parts < 4096 };
}

impl PulseWidth {
    /// The low twelve bits of this number.
    pub fn of(parts: u16) -> PulseWidth
        ensures { result ≡ parts % 4096 }
    {
        PulseWidth {
            parts: parts % 4096,
        }
    }

    /// The parts of a wave.
    pub fn parts(self) -> u16
        ensures parts { result ≡ self }
        ensures range { result < 4096 }
    {
        self.parts
    }
}
