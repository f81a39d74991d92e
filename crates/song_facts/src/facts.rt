//! Facts of a song.

ghost use Rattle.std.specs.Prelude.{◌≡◌, ◌↔◌, IsTrue};
ghost use Rattle.song_facts.specs.Facts.{IsHeard};

use song_model::{Instrument, Row, TableRow};

/// Whether a row has a note, `$60` to `$BC`, or a command: its voice has something to play.
pub fn is_heard(row: Row) -> bool
    ensures { IsTrue result ↔ IsHeard row }
{
    (0x60..=0xbc).contains(&row.note) || row.command != 0
}

/// What a song has beside its features, of all that it uses: rows of its patterns, its instruments and the rows of its
/// wave table; whether it has several subtunes; which channels have something to play; and whether its first instrument
/// holds more before a note than another. The player leaves out what it does for a fact where a song hasn't it.
#[derive(Clone, Copy, Debug, PartialEq, Eq)]
pub enum Fact {
    /// A row has command 3, which slides to its note.
    RowTone,
    /// A row has one of the commands 1 to 4, which run.
    RowSlide,
    /// A row has one of the commands 5 up, which are done once.
    RowOnce,
    /// An instrument's first waveform is 0, `$FE` or `$FF`: it sets the mask alone, or nothing.
    FirstMask,
    /// An instrument's gateoff timer has bit `$40`: the gate stays as it is before a note.
    Legato,
    /// An instrument's gateoff timer has bit `$80` and not `$40`: the envelope stays as it is before a note.
    NoHardRestart,
    /// A row of the wave table has a left side below `$10`: a delay.
    WaveDelay,
    /// A row has keyoff or keyon in place of a note.
    GateNote,
    /// An instrument has a vibrato, which each of its notes begins.
    NoteVibrato,
    /// An instrument has a delay of its vibrato.
    VibratoDelay,
    /// An instrument has a pulse program, which each of its notes begins.
    NotePulse,
    /// An instrument has a filter program, which each of its notes begins.
    NoteFilter,
    /// A row has command `$F` with `$80` up, which sets the tempo of its voice; `$80` to `$82` set none.
    VoiceTempo,
    /// A row has command `$F` with 3 to `$7F`, which sets the tempo of all voices.
    CommonTempo,
    /// A row has command `$F` with 0 or 1, from which all voices take turns between two tempos.
    FunkTurns,
    /// A row has command `$E`, from which they do so, too, with two tempos of the speed table.
    FunkChoice,
    /// Two instruments differ in the low six bits of their gateoff timers: how many frames before its tick 0 a row is
    /// fetched.
    OwnTimer,
    /// Two instruments differ in their first waveforms.
    OwnWave,
    /// There are two subtunes, or more, that can be played.
    Subtunes,
    /// Channel 2 has a row to play that has a note or a command.
    VoiceTwo,
    /// So has channel 3.
    VoiceThree,
    /// Instrument 1, with which each voice begins, holds more before its notes than another one: its gate, where that
    /// holds the envelope alone or nothing, or its envelope, where that holds nothing.
    FirstHolds,
}

impl Fact {
    ghost use Rattle.song_facts.specs.Facts.{number_of, IsOfRow, IsOfInstrument, IsOfPair, IsOfWaveRow};

    /// The fact's number, 0 to 21.
    pub fn number(self) -> u8
        ensures { result ≡ number_of self }
    {
        self as u8
    }

    /// Whether a row of a pattern gives a song the fact.
    pub fn is_of_row(self, row: Row) -> bool
        ensures { IsTrue result ↔ IsOfRow self row }
    {
        match self {
            Fact::RowTone => row.command == 3,
            Fact::RowSlide => 1 <= row.command && row.command <= 4,
            Fact::RowOnce => row.command >= 5,
            Fact::GateNote => row.note == 0xbe || row.note == 0xbf,
            Fact::VoiceTempo => row.command == 0xf && row.param >= 0x80,
            Fact::CommonTempo => row.command == 0xf && row.param >= 3 && row.param < 0x80,
            Fact::FunkTurns => row.command == 0xf && row.param < 2,
            Fact::FunkChoice => row.command == 0xe,
            _ => false,
        }
    }

    /// Whether an instrument gives a song the fact.
    pub fn is_of_instrument(self, instrument: &Instrument) -> bool
        ensures { IsTrue result ↔ IsOfInstrument self instrument.now }
    {
        let timer = instrument.gate_timer;
        match self {
            Fact::FirstMask => instrument.first_wave == 0 || instrument.first_wave >= 0xfe,
            Fact::Legato => timer & 0x40 != 0,
            Fact::NoHardRestart => timer & 0x40 == 0 && timer & 0x80 != 0,
            Fact::NoteVibrato => instrument.vibrato != 0,
            Fact::VibratoDelay => instrument.vibrato_delay != 0,
            Fact::NotePulse => instrument.pulse != 0,
            Fact::NoteFilter => instrument.filter != 0,
            _ => false,
        }
    }

    /// Whether two instruments give a song the fact, by what they differ in.
    pub fn is_of_pair(self, one: &Instrument, other: &Instrument) -> bool
        ensures { IsTrue result ↔ IsOfPair self one.now other.now }
    {
        match self {
            Fact::OwnTimer => one.gate_timer % 64 != other.gate_timer % 64,
            Fact::OwnWave => one.first_wave != other.first_wave,
            _ => false,
        }
    }

    /// Whether a row of the wave table gives a song the fact.
    pub fn is_of_wave_row(self, row: TableRow) -> bool
        ensures { IsTrue result ↔ IsOfWaveRow self row }
    {
        self == Fact::WaveDelay && row.left < 0x10
    }
}

/// The facts of a song: for each whether the song has it.
#[derive(Clone, Copy, Debug, PartialEq, Eq)]
pub struct Facts {
    /// [`Fact::RowTone`].
    pub row_tone: bool,
    /// [`Fact::RowSlide`].
    pub row_slide: bool,
    /// [`Fact::RowOnce`].
    pub row_once: bool,
    /// [`Fact::FirstMask`].
    pub first_mask: bool,
    /// [`Fact::Legato`].
    pub legato: bool,
    /// [`Fact::NoHardRestart`].
    pub no_hard_restart: bool,
    /// [`Fact::WaveDelay`].
    pub wave_delay: bool,
    /// [`Fact::GateNote`].
    pub gate_note: bool,
    /// [`Fact::NoteVibrato`].
    pub note_vibrato: bool,
    /// [`Fact::VibratoDelay`].
    pub vibrato_delay: bool,
    /// [`Fact::NotePulse`].
    pub note_pulse: bool,
    /// [`Fact::NoteFilter`].
    pub note_filter: bool,
    /// [`Fact::VoiceTempo`].
    pub voice_tempo: bool,
    /// [`Fact::CommonTempo`].
    pub common_tempo: bool,
    /// [`Fact::FunkTurns`].
    pub funk_turns: bool,
    /// [`Fact::FunkChoice`].
    pub funk_choice: bool,
    /// [`Fact::OwnTimer`].
    pub own_timer: bool,
    /// [`Fact::OwnWave`].
    pub own_wave: bool,
    /// [`Fact::Subtunes`].
    pub subtunes: bool,
    /// [`Fact::VoiceTwo`].
    pub voice_two: bool,
    /// [`Fact::VoiceThree`].
    pub voice_three: bool,
    /// [`Fact::FirstHolds`].
    pub first_holds: bool,
}

impl Facts {
    ghost use Rattle.song_facts.specs.Facts.{is_among};

    /// Whether the fact is among these.
    pub fn has(&self, fact: Fact) -> bool
        ensures { result ≡ is_among self.now fact }
    {
        match fact {
            Fact::RowTone => self.row_tone,
            Fact::RowSlide => self.row_slide,
            Fact::RowOnce => self.row_once,
            Fact::FirstMask => self.first_mask,
            Fact::Legato => self.legato,
            Fact::NoHardRestart => self.no_hard_restart,
            Fact::WaveDelay => self.wave_delay,
            Fact::GateNote => self.gate_note,
            Fact::NoteVibrato => self.note_vibrato,
            Fact::VibratoDelay => self.vibrato_delay,
            Fact::NotePulse => self.note_pulse,
            Fact::NoteFilter => self.note_filter,
            Fact::VoiceTempo => self.voice_tempo,
            Fact::CommonTempo => self.common_tempo,
            Fact::FunkTurns => self.funk_turns,
            Fact::FunkChoice => self.funk_choice,
            Fact::OwnTimer => self.own_timer,
            Fact::OwnWave => self.own_wave,
            Fact::Subtunes => self.subtunes,
            Fact::VoiceTwo => self.voice_two,
            Fact::VoiceThree => self.voice_three,
            Fact::FirstHolds => self.first_holds,
        }
    }
}
