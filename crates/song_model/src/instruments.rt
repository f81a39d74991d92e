//! Instruments.

use crate::Bounded;

/// The most instruments of a song.
pub const MOST_INSTRUMENTS: usize = 63;

/// An instrument, as the GoatTracker 2 readme's format has it.
#[derive(Clone, Copy, Debug, PartialEq, Eq)]
pub struct Instrument {
    /// Attack and decay.
    pub ad: u8,
    /// Sustain and release.
    pub sr: u8,
    /// The first row of its wave program, 0 for none.
    pub wave: u8,
    /// The first row of its pulse program, 0 for none.
    pub pulse: u8,
    /// The first row of its filter program, 0 for none.
    pub filter: u8,
    /// The vibrato's row of the speed table, 0 for none.
    pub vibrato: u8,
    /// Frames before the vibrato begins; 0 for never.
    pub vibrato_delay: u8,
    /// In the low six bits the frames before a note at which the gate goes off; `$40` keeps the gate,
    /// `$80` keeps the envelope.
    pub gate_timer: u8,
    /// The waveform of a note's first frame.
    pub first_wave: u8,
    /// Its name, of no meaning to a player.
    pub name: [u8; 16],
}

/// The instruments of a song: at most 63, numbered from 1.
pub type InstrumentList = Bounded<Instrument, MOST_INSTRUMENTS>;
