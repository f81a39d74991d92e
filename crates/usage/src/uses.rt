//! What of a song tells its features: the marks in a range, and the commands that are used.

ghost use Rattle.std.specs.Prelude.{◌≡◌, ◌≢◌, ◌↔◌, ◌⊎◌, ◌%◌, ◌-◌, ◌≤◌, ◌<◌};
ghost use Rattle.std.specs.Prelude.{IsTrue, length};
ghost use Rattle.song_model.specs.declared.tables.TableName.TheVariants.{Speed};
ghost use Rattle.song_model.specs.LookUp.{instrument_at};
ghost use Rattle.play_model.specs.Used.{IsUsedInstrument};
ghost use Rattle.play_model.specs.Reached.{IsPointer};
ghost use Rattle.play_model.specs.Features.{HasByte, HasRow, HasInstrument, HasNoteSpeed, HasPointer, HasWaveCommand};
ghost use Rattle.play_model.specs.Features.{HasFeature, UsesCommand, IsAny};
ghost use Rattle.usage.specs.Found.{IsFoundOf};
ghost use Rattle.song_model.specs.declared.features.Feature.TheVariants.{InstrumentVibrato};
ghost use Rattle.usage.specs.Marks.{AreMarks};
ghost use Rattle.usage.specs.Building.{AreWhole, marks_of};
ghost use Rattle.usage.specs.FeatureParts.{HasMark, HasCommandMark};

use crate::found::Found;
use crate::marks::{ByteMarks, CommandMarks};
use song_model::{Song, TableName};

/// Whether one of the numbers from `from` on and below `to` is marked.
pub(crate) fn has_mark(marks: &[bool], from: usize, to: usize) -> bool
    requires order { from ≤ to }
    requires inside { to ≤ length marks.now }
    ensures { IsTrue result ↔ HasMark marks.now from to }
{
    for n in from..to {
        if marks[n] {
            return true;
        }
    }
    false
}

/// Whether one of the numbers of two ranges is marked.
fn has_either(marks: &ByteMarks, from: usize, to: usize, other_from: usize, other_to: usize) -> bool
    requires order { from ≤ to }
    requires other_order { other_from ≤ other_to }
    requires inside { to ≤ 256 }
    requires other_inside { other_to ≤ 256 }
    ensures { IsTrue result ↔ (HasMark marks.now from to ⊎ HasMark marks.now other_from other_to) }
{
    has_mark(marks, from, to) || has_mark(marks, other_from, other_to)
}

/// Whether a used instrument has a vibrato parameter.
pub(crate) fn has_vibrato(song: &Song, used: &[bool; 64]) -> bool
    requires { AreMarks (IsUsedInstrument song.now) used.now }
    ensures { IsTrue result ↔ HasInstrument song.now (λ i. (instrument_at song.now i).vibrato) }
{
    for instrument in 0..64u8 {
        if used[usize::from(instrument)] && song.instrument(instrument).vibrato != 0 {
            return true;
        }
    }
    false
}

/// Whether a used instrument has a vibrato delay.
pub(crate) fn has_delay(song: &Song, used: &[bool; 64]) -> bool
    requires { AreMarks (IsUsedInstrument song.now) used.now }
    ensures { IsTrue result ↔
        HasInstrument song.now (λ i. (instrument_at song.now i).vibrato_delay) }
{
    for instrument in 0..64u8 {
        if used[usize::from(instrument)] && song.instrument(instrument).vibrato_delay != 0 {
            return true;
        }
    }
    false
}

/// Whether a used pointer names a speed that is taken from the half tone at the last note.
pub(crate) fn has_note_speed(song: &Song, pointers: &ByteMarks) -> bool
    requires { AreMarks (IsPointer song.now Speed) pointers.now }
    ensures { IsTrue result ↔ HasNoteSpeed song.now }
{
    for pointer in 0..256u16 {
        if pointers[usize::from(pointer)] && song.speed(pointer as u8).left >= 0x80 {
            return true;
        }
    }
    false
}

/// Whether there is a pointer into a table.
pub(crate) fn has_pointer(song: &Song, name: TableName, pointers: &ByteMarks) -> bool
    requires { AreMarks (IsPointer song.now name) pointers.now }
    ensures { IsTrue result ↔ HasPointer song.now name }
{
    // Named in the contract alone.
    let _song = song;
    let _name = name;
    has_mark(pointers, 0, 256)
}

/// Whether a command is marked.
pub(crate) fn has_command(commands: &CommandMarks) -> bool
    requires { AreWhole commands.now }
    ensures { IsTrue result ↔ HasCommandMark commands.now }
{
    for command in 0..16 {
        if has_mark(&commands[command], 0, 256) {
            return true;
        }
    }
    false
}

impl Found {
    /// Whether an orderlist has a byte from `from` on and below `to`.
    pub(crate) fn has_byte(&self, song: &Song, from: usize, to: usize) -> bool
        requires order { from < to }
        requires byte { to ≤ 256 }
        requires found { IsFoundOf song.now self.now }
        ensures { IsTrue result ↔ HasByte song.now from (to - 1) }
    {
        // Named in the contract alone.
        let _song = song;
        has_mark(&self.bytes, from, to)
    }

    /// Whether a command is used with a parameter from `from` on and below `to`.
    fn has_parameter(&self, command: usize, from: usize, to: usize) -> bool
        requires command { command < 16 }
        requires rows { AreWhole self.now.rows.commands }
        requires waves { AreWhole self.now.wave_commands }
        requires order { from ≤ to }
        requires byte { to ≤ 256 }
        ensures { IsTrue result ↔ (HasMark (marks_of self.now.rows.commands command) from to ⊎
            HasMark (marks_of self.now.wave_commands command) from to) }
    {
        has_mark(&self.rows.commands[command], from, to)
            || has_mark(&self.wave_commands[command], from, to)
    }

    /// Whether a command is used, with any parameter.
    pub(crate) fn uses(&self, song: &Song, command: usize) -> bool
        requires command { command < 15 }
        requires found { IsFoundOf song.now self.now }
        ensures { IsTrue result ↔ UsesCommand song.now command IsAny }
    {
        // Named in the contract alone.
        let _song = song;
        self.has_parameter(command, 0, 256)
    }

    /// Whether a command is used with another parameter than 0.
    pub(crate) fn uses_parameter(&self, song: &Song, command: usize) -> bool
        requires command { command < 15 }
        requires found { IsFoundOf song.now self.now }
        ensures { IsTrue result ↔ UsesCommand song.now command (λ d. d ≢ 0) }
    {
        // Named in the contract alone.
        let _song = song;
        self.has_parameter(command, 1, 256)
    }

    /// Whether a command is used with parameter 0.
    pub(crate) fn uses_zero(&self, song: &Song, command: usize) -> bool
        requires command { command < 15 }
        requires found { IsFoundOf song.now self.now }
        ensures { IsTrue result ↔ UsesCommand song.now command (λ d. d ≡ 0) }
    {
        // Named in the contract alone.
        let _song = song;
        self.has_parameter(command, 0, 1)
    }

    /// Whether a row of a used pattern has a command, with any parameter.
    pub(crate) fn has_row(&self, song: &Song, command: usize) -> bool
        requires command { command < 16 }
        requires found { IsFoundOf song.now self.now }
        ensures { IsTrue result ↔ HasRow song.now command IsAny }
    {
        // Named in the contract alone.
        let _song = song;
        has_mark(&self.rows.commands[command], 0, 256)
    }

    /// Whether a row of a used pattern has command `$F` with parameter 0 or 1.
    pub(crate) fn has_funk_row(&self, song: &Song) -> bool
        requires { IsFoundOf song.now self.now }
        ensures { IsTrue result ↔ HasRow song.now 0xF (λ d. d ≤ 1) }
    {
        // Named in the contract alone.
        let _song = song;
        has_mark(&self.rows.commands[0xf], 0, 2)
    }

    /// Whether a row of a used pattern sets a tempo: command `$F` with `$03-$7F` or `$83-$FF`.
    pub(crate) fn has_tempo_row(&self, song: &Song) -> bool
        requires { IsFoundOf song.now self.now }
        ensures { IsTrue result ↔ HasRow song.now 0xF (λ d. 3 ≤ d % 128) }
    {
        // Named in the contract alone.
        let _song = song;
        has_either(&self.rows.commands[0xf], 0x03, 0x80, 0x83, 0x100)
    }

    /// Whether a used instrument has a vibrato parameter, and one a vibrato delay.
    pub(crate) fn has_instrument_vibrato(&self, song: &Song) -> bool
        requires { IsFoundOf song.now self.now }
        ensures { IsTrue result ↔ HasFeature song.now InstrumentVibrato }
    {
        has_vibrato(song, &self.rows.instruments) && has_delay(song, &self.rows.instruments)
    }

    /// Whether a row of the wave table that programs come to is a command.
    pub(crate) fn has_wave_command(&self, song: &Song) -> bool
        requires { IsFoundOf song.now self.now }
        ensures { IsTrue result ↔ HasWaveCommand song.now }
    {
        // Named in the contract alone.
        let _song = song;
        has_command(&self.wave_commands)
    }
}
