//! Packed songs.

ghost use Rattle.std.specs.Prelude.{◌≤◌, ◌<◌, ◌+◌, ◌^◌};

use crate::PackedPattern;
use asked_numbers::NumberRange;
use song_facts::Facts;
use song_model::{Bounded, FeatureBits, MOST_INSTRUMENTS, MOST_PATTERNS, MOST_SUBTUNES, Table};

/// The most bytes of a packed orderlist: 254 entries, the endmark and the restart position.
pub const MOST_ORDER_BYTES: usize = 256;

/// A packed orderlist: its entries, the endmark `$FF`, and the restart position.
pub type PackedOrder = Bounded<u8, MOST_ORDER_BYTES>;

/// Three packed orderlists, one for each channel.
#[derive(Drop)]
pub struct PackedSubtune {
    /// That of channel 1.
    pub one: PackedOrder,
    /// That of channel 2.
    pub two: PackedOrder,
    /// That of channel 3.
    pub three: PackedOrder,
}

/// The packed subtunes of a song: at most 32, counted from 0.
pub type PackedSubtuneList = Bounded<PackedSubtune, MOST_SUBTUNES>;

/// The packed patterns of a song: at most 208, numbered from 0.
pub type PackedPatternList = Bounded<PackedPattern, MOST_PATTERNS>;

/// The bytes of an instrument in their order in a file, without its name: attack and decay, sustain and release, the
/// pointers into the wave, pulse and filter table, the vibrato's pointer into the speed table, its delay, the gateoff
/// timer, and the first frame's waveform.
#[derive(Clone, Copy, Debug, PartialEq, Eq)]
pub struct PackedInstrument {
    /// The nine bytes.
    pub bytes: [u8; 9],
}

/// The packed instruments of a song: at most 63, numbered from 1.
pub type PackedInstrumentList = Bounded<PackedInstrument, MOST_INSTRUMENTS>;

/// What the player reads in place of a song: only what the song uses, under new numbers.
#[derive(Drop)]
pub struct PackedSong {
    /// The playable subtunes, counted from 0.
    pub subtunes: PackedSubtuneList,
    /// The patterns, counted from 0.
    pub patterns: PackedPatternList,
    /// The instruments, numbered from 1.
    pub instruments: PackedInstrumentList,
    /// The wave table, numbered from 1.
    pub wave: Table,
    /// The pulse table, numbered from 1.
    pub pulse: Table,
    /// The filter table, numbered from 1.
    pub filter: Table,
    /// The speed table, numbered from 1.
    pub speed: Table,
    /// What its player has to be able to do.
    pub features: FeatureBits,
    /// What its rows, instruments and wave programs have, in what two of its instruments differ, whether it has several
    /// subtunes, which of its channels have something to play, and whether its first instrument holds more before a note
    /// than another: the player leaves out what no song like it needs.
    pub facts: Facts,
    /// The numbers of the frequency table that it asks for.
    pub numbers: NumberRange,
    /// No bit stands for nothing.
    pub ghost features_within: { features.0 < 2 ^ 24 },
    /// No number is above 128.
    pub ghost numbers_within: { numbers.first + numbers.count ≤ 129 },
}
