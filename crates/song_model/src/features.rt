//! What a player may do without where a song doesn't use it.

ghost use Rattle.std.specs.Prelude.{◌≡◌};

/// A part of what a player can do. It is left out of the player of a song that doesn't use it. The parts are those of
/// this project's player; the commands are the GoatTracker 2 readme's, and each is meant in rows of patterns and in the
/// wave table, unless its variant says where.
#[derive(Clone, Copy, Debug, PartialEq, Eq)]
pub enum Feature {
    /// Transposes in orderlists.
    Transpose,
    /// Repeats in orderlists.
    Repeat,
    /// Command 1: the frequency rises.
    PortaUp,
    /// Command 2: the frequency falls.
    PortaDown,
    /// Command 3 with a parameter: a slide to the note.
    TonePorta,
    /// Command 3 with parameter 0: the note at once, without its start.
    TieNote,
    /// Command 4.
    Vibrato,
    /// The vibrato of an instrument, after its delay.
    InstrumentVibrato,
    /// Speeds that are taken from the half tone at the last note.
    NoteDependent,
    /// Command 5: attack and decay.
    SetAd,
    /// Command 6: sustain and release.
    SetSr,
    /// Command 7: the waveform.
    SetWave,
    /// Command 8 in a row of a pattern: the wave program.
    SetWavePointer,
    /// Pulse programs.
    PulseTable,
    /// Command 9: the pulse program.
    SetPulsePointer,
    /// Filter programs.
    FilterTable,
    /// Command `$A`: the filter program.
    SetFilterPointer,
    /// Command `$B`: resonance and routing.
    FilterControl,
    /// Command `$C`: the cutoff.
    Cutoff,
    /// Command `$D`: the volume.
    Volume,
    /// Command `$E`, or `$F` with parameter 0 or 1, in a row of a pattern: rows of two lengths in turn.
    FunkTempo,
    /// Command `$F` with parameter `$03` to `$7F` or `$83` to `$FF` in a row of a pattern: the tempo.
    SetTempo,
    /// Wave programs.
    WaveTable,
    /// Commands in the wave table: rows with left side `$F0` to `$FE`.
    WaveCommand,
}

impl Feature {
    ghost use Rattle.song_model.specs.Feature.{bit_of};

    /// The feature's bit, 0 to 23.
    pub fn bit(self) -> u8
        ensures { result ≡ bit_of self }
    {
        self as u8
    }
}

/// A set of features of the player: bits 0 to 23, that of a feature by [`Feature::bit`].
#[derive(Clone, Copy, Debug, PartialEq, Eq)]
pub struct FeatureBits(pub u32);
