//! The features that a song uses.

ghost use Rattle.std.specs.Prelude.{◌↔◌, ◌<◌, ◌^◌, IsTrue};
ghost use Rattle.play_model.specs.Features.{HasFeature, AreFeatures};
ghost use Rattle.usage.specs.Found.{IsFoundOf};
ghost use Rattle.usage.specs.FeatureParts.{AddsBit};

use crate::found::Found;
use crate::uses::{has_note_speed, has_pointer};
use song_model::{Feature, FeatureBits, Song, TableName};

/// All features, each at its bit.
const FEATURES: [Feature; 24] = [
    Feature::Transpose,
    Feature::Repeat,
    Feature::PortaUp,
    Feature::PortaDown,
    Feature::TonePorta,
    Feature::TieNote,
    Feature::Vibrato,
    Feature::InstrumentVibrato,
    Feature::NoteDependent,
    Feature::SetAd,
    Feature::SetSr,
    Feature::SetWave,
    Feature::SetWavePointer,
    Feature::PulseTable,
    Feature::SetPulsePointer,
    Feature::FilterTable,
    Feature::SetFilterPointer,
    Feature::FilterControl,
    Feature::Cutoff,
    Feature::Volume,
    Feature::FunkTempo,
    Feature::SetTempo,
    Feature::WaveTable,
    Feature::WaveCommand,
];

impl Found {
    /// Whether the song uses a feature.
    pub(crate) fn has(&self, song: &Song, feature: Feature) -> bool
        requires { IsFoundOf song.now self.now }
        ensures { IsTrue result ↔ HasFeature song.now feature }
    {
        match feature {
            Feature::Transpose => self.has_byte(song, 0xe0, 0xff),
            Feature::Repeat => self.has_byte(song, 0xd0, 0xe0),
            Feature::PortaUp => self.uses(song, 1),
            Feature::PortaDown => self.uses(song, 2),
            Feature::TonePorta => self.uses_parameter(song, 3),
            Feature::TieNote => self.uses_zero(song, 3),
            Feature::Vibrato => self.uses(song, 4),
            Feature::InstrumentVibrato => self.has_instrument_vibrato(song),
            Feature::NoteDependent => has_note_speed(song, &self.speed),
            Feature::SetAd => self.uses(song, 5),
            Feature::SetSr => self.uses(song, 6),
            Feature::SetWave => self.uses(song, 7),
            Feature::SetWavePointer => self.has_row(song, 8),
            Feature::PulseTable => has_pointer(song, TableName::Pulse, &self.pulse.pointers),
            Feature::SetPulsePointer => self.uses(song, 9),
            Feature::FilterTable => has_pointer(song, TableName::Filter, &self.filter.pointers),
            Feature::SetFilterPointer => self.uses(song, 0xa),
            Feature::FilterControl => self.uses(song, 0xb),
            Feature::Cutoff => self.uses(song, 0xc),
            Feature::Volume => self.uses(song, 0xd),
            Feature::FunkTempo => self.has_row(song, 0xe) || self.has_funk_row(song),
            Feature::SetTempo => self.has_tempo_row(song),
            Feature::WaveTable => has_pointer(song, TableName::Wave, &self.wave.pointers),
            Feature::WaveCommand => self.has_wave_command(song),
        }
    }

    /// The bits with the one of a feature, if the song uses it.
    fn with_bit(&self, song: &Song, feature: Feature, bits: u32) -> u32
        requires found { IsFoundOf song.now self.now }
        requires small { bits < 2 ^ 24 }
        ensures small { result < 2 ^ 24 }
        ensures added { AddsBit song.now feature bits result }
    {
        if self.has(song, feature) {
            bits | 1 << feature.bit()
        } else {
            bits
        }
    }

    /// The bits of the features that the song uses.
    pub(crate) fn features(&self, song: &Song) -> FeatureBits
        requires { IsFoundOf song.now self.now }
        ensures { AreFeatures song.now result.0 }
    {
        let mut bits = 0;
        for feature in FEATURES {
            bits = self.with_bit(song, feature, bits);
        }
        FeatureBits(bits)
    }
}
