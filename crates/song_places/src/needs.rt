//! What of a song needs a feature or gives it a fact.

ghost use Rattle.std.specs.Prelude.{◌≡◌, ◌≢◌, ℕ, ◌+◌, ◌%◌, ◌≤◌, ◌⊎◌, ◌↔◌, IsTrue, Some};
ghost use Rattle.song_model.specs.declared.songs.Song.{Song as AnySong};
ghost use Rattle.song_model.specs.declared.tables.TableName.TheVariants.{Speed};
ghost use Rattle.song_model.specs.LookUp.{speed_row};
ghost use Rattle.play_model.specs.Features.{IsAny, HasFeature};
ghost use Rattle.usage.specs.Marks.{AreMarks};
ghost use Rattle.usage.specs.Channels.{IsHeardPattern};
ghost use Rattle.song_places.specs.declared.places.Place.{Place};
ghost use Rattle.song_places.specs.Needs.{Points, GivesFact, NamesHeard, OrdersGiveFact};
ghost use Rattle.song_places.specs.Places.{IsNeededAt, NeedsAt};
ghost use Rattle.song_places.specs.Search.{IsParameter, meant, IsKnown};

use song_facts::{Fact, holds_more};
use song_model::{
    Feature, Instrument, Row, Song, TableName, TableRow, command_table, wave_row_table,
};

/// Which parameters of a command are meant.
#[derive(Clone, Copy)]
pub(crate) enum Parameter {
    /// Each.
    Any,
    /// 0.
    Zero,
    /// Another than 0.
    Other,
}

impl Parameter {
    /// Whether this parameter is meant.
    fn holds(self, parameter: u8) -> bool
        ensures { IsTrue result ↔ IsParameter self parameter }
    {
        match self {
            Parameter::Any => true,
            Parameter::Zero => parameter == 0,
            Parameter::Other => parameter != 0,
        }
    }
}

/// What is looked for.
#[derive(Clone, Copy)]
pub(crate) enum Wanted {
    /// Bytes of orderlists from the first number to the second.
    Bytes(u8, u8),
    /// A command of rows of patterns and of the wave table.
    Command(u8, Parameter),
    /// Command 8 of rows of patterns.
    WavePointer,
    /// Commands `$E`, and `$F` with 0 or 1, of rows of patterns.
    FunkTempo,
    /// Command `$F` of rows of patterns with `$03`-`$7F` or `$83`-`$FF`.
    Tempo,
    /// Pointers into a table.
    Pointers(TableName),
    /// Pointers to speeds that are taken from the half tone at the last note.
    NoteSpeeds,
    /// Vibrato parameters of instruments.
    Vibrato,
    /// Commands of the wave table.
    WaveCommands,
    /// What gives a song the fact.
    OfFact(Fact),
}

/// What is known of the orderlists of a subtune.
#[derive(Drop)]
pub(crate) struct Known {
    /// Whether the subtune is behind another that can be played.
    pub(crate) behind: bool,
    /// A mark for each pattern that has a row to play, where such patterns are looked for.
    pub(crate) heard: [bool; 256],
}

impl Known {
    /// Whether a byte of an orderlist names a marked pattern.
    fn names_heard(&self, byte: u8) -> bool
        ensures { (song : AnySong) → AreMarks (IsHeardPattern song) self.now.heard →
            IsTrue result ↔ NamesHeard song byte }
    {
        byte < 0xd0 && self.heard[usize::from(byte)]
    }
}

/// Whether a number points into a table.
fn points(table: Option<TableName>, name: TableName, pointer: u8) -> bool
    ensures { IsTrue result ↔ Points name IsAny table pointer }
{
    table == Some(name) && pointer != 0
}

/// Whether a number points to a speed that is taken from the half tone at the last note.
fn points_at_note_speed(song: &Song, table: Option<TableName>, pointer: u8) -> bool
    ensures { IsTrue result ↔
        Points Speed (λ p. 0x80 ≤ (speed_row song.now p).left) table pointer }
{
    points(table, TableName::Speed, pointer) && song.speed(pointer).left >= 0x80
}

/// Whether an instrument gives the song the fact: by itself, as one that differs from instrument 1, or as one that
/// holds less before a note.
fn gives_fact(song: &Song, fact: Fact, instrument: &Instrument) -> bool
    ensures { IsTrue result ↔ GivesFact song.now fact instrument.now }
{
    match fact {
        Fact::OwnTimer | Fact::OwnWave => fact.is_of_pair(&song.instrument(1), instrument),
        Fact::FirstHolds => holds_more(&song.instrument(1), instrument),
        _ => fact.is_of_instrument(instrument),
    }
}

/// Whether a byte of a channel's orderlist gives the song the fact, in a subtune of which this is known.
fn orders_give_fact(fact: Fact, known: &Known, channel: u8, byte: u8) -> bool
    ensures { (song : AnySong) → (s : ℕ) → IsKnown song (Wanted.OfFact fact) s known.now →
        IsTrue result ↔ OrdersGiveFact song fact s channel byte }
{
    match fact {
        Fact::Subtunes => known.behind,
        Fact::VoiceTwo => channel == 2 && known.names_heard(byte),
        Fact::VoiceThree => channel == 3 && known.names_heard(byte),
        _ => false,
    }
}

impl Wanted {
    /// What a feature needs, in a song that uses it.
    pub(crate) fn of(feature: Feature) -> Wanted
        ensures { (song : AnySong) → HasFeature song feature → (place : Place) →
            IsNeededAt song (meant song result) place ↔ NeedsAt song feature place }
    {
        match feature {
            Feature::Transpose => Wanted::Bytes(0xe0, 0xfe),
            Feature::Repeat => Wanted::Bytes(0xd0, 0xdf),
            Feature::PortaUp => Wanted::Command(1, Parameter::Any),
            Feature::PortaDown => Wanted::Command(2, Parameter::Any),
            Feature::TonePorta => Wanted::Command(3, Parameter::Other),
            Feature::TieNote => Wanted::Command(3, Parameter::Zero),
            Feature::Vibrato => Wanted::Command(4, Parameter::Any),
            Feature::InstrumentVibrato => Wanted::Vibrato,
            Feature::NoteDependent => Wanted::NoteSpeeds,
            Feature::SetAd => Wanted::Command(5, Parameter::Any),
            Feature::SetSr => Wanted::Command(6, Parameter::Any),
            Feature::SetWave => Wanted::Command(7, Parameter::Any),
            Feature::SetWavePointer => Wanted::WavePointer,
            Feature::PulseTable => Wanted::Pointers(TableName::Pulse),
            Feature::SetPulsePointer => Wanted::Command(9, Parameter::Any),
            Feature::FilterTable => Wanted::Pointers(TableName::Filter),
            Feature::SetFilterPointer => Wanted::Command(0xa, Parameter::Any),
            Feature::FilterControl => Wanted::Command(0xb, Parameter::Any),
            Feature::Cutoff => Wanted::Command(0xc, Parameter::Any),
            Feature::Volume => Wanted::Command(0xd, Parameter::Any),
            Feature::FunkTempo => Wanted::FunkTempo,
            Feature::SetTempo => Wanted::Tempo,
            Feature::WaveTable => Wanted::Pointers(TableName::Wave),
            Feature::WaveCommand => Wanted::WaveCommands,
        }
    }

    /// Whether a byte of a channel's orderlist is wanted, in a subtune of which this is known.
    pub(crate) fn is_byte(self, known: &Known, channel: u8, byte: u8) -> bool
        ensures { (song : AnySong) → (s : ℕ) → IsKnown song self s known.now →
            IsTrue result ↔ (meant song self).byte s channel byte }
    {
        match self {
            Wanted::Bytes(from, to) => from <= byte && byte <= to,
            Wanted::OfFact(fact) => orders_give_fact(fact, known, channel, byte),
            _ => false,
        }
    }

    /// Whether a row of a pattern is wanted.
    pub(crate) fn is_row(self, song: &Song, row: Row) -> bool
        ensures { IsTrue result ↔ (meant song.now self).row row }
    {
        match self {
            Wanted::Command(command, parameter) => {
                row.command == command && parameter.holds(row.param)
            }
            Wanted::WavePointer => row.command == 8,
            Wanted::FunkTempo => row.command == 0xe || (row.command == 0xf && row.param <= 1),
            Wanted::Tempo => row.command == 0xf && row.param % 128 >= 3,
            Wanted::Pointers(name) => points(command_table(row.command), name, row.param),
            Wanted::NoteSpeeds => points_at_note_speed(song, command_table(row.command), row.param),
            Wanted::OfFact(fact) => fact.is_of_row(row),
            _ => false,
        }
    }

    /// Whether an instrument is wanted.
    pub(crate) fn is_instrument(self, song: &Song, instrument: &Instrument) -> bool
        ensures { IsTrue result ↔ (meant song.now self).instrument instrument.now }
    {
        match self {
            Wanted::Pointers(name) => points(Some(name), name, instrument.pointer(name)),
            Wanted::NoteSpeeds => {
                points_at_note_speed(song, Some(TableName::Speed), instrument.vibrato)
            }
            Wanted::Vibrato => instrument.vibrato != 0,
            Wanted::OfFact(fact) => gives_fact(song, fact, instrument),
            _ => false,
        }
    }

    /// Whether a row of the wave table is wanted.
    pub(crate) fn is_wave_row(self, song: &Song, row: TableRow) -> bool
        ensures { IsTrue result ↔ (meant song.now self).wave_row row }
    {
        match self {
            Wanted::Command(command, parameter) => {
                row.left >= 0xf0 && row.left - 0xf0 == command && parameter.holds(row.right)
            }
            Wanted::Pointers(name) => points(wave_row_table(row.left), name, row.right),
            Wanted::NoteSpeeds => {
                points_at_note_speed(song, wave_row_table(row.left), row.right)
            }
            Wanted::WaveCommands => row.left >= 0xf0 && row.left <= 0xfe,
            Wanted::OfFact(fact) => fact.is_of_wave_row(row),
            _ => false,
        }
    }
}
