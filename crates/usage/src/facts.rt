//! The facts that a song has.

ghost use Rattle.std.specs.Prelude.{◌≤◌, ◌<◌, ◌↔◌, IsTrue};
ghost use Rattle.song_model.specs.declared.tables.TableName.TheVariants.{Wave};
ghost use Rattle.song_model.specs.LookUp.{instrument_at};
ghost use Rattle.play_model.specs.Used.{IsUsedInstrument};
ghost use Rattle.play_model.specs.Reached.{IsReached};
ghost use Rattle.song_facts.specs.Facts.{IsTone, IsSlide, IsOnce, IsGateNote, IsDelay, IsOfInstrument, IsOfPair};
ghost use Rattle.song_facts.specs.Facts.{IsVoiceTempo, IsCommonTempo, IsFunkTurns, IsFunkChoice};
ghost use Rattle.song_facts.specs.Facts.{HasSuchRow, HasSuchInstrument, HasSuchPair, HasSuchWaveRow, HasSubtunes};
ghost use Rattle.song_facts.specs.Facts.{AreFacts};
ghost use Rattle.song_facts.specs.Hold.{HoldsMore};
ghost use Rattle.usage.specs.Marks.{AreMarks};
ghost use Rattle.usage.specs.Found.{IsFoundOf};

use crate::channels::{has_channel_row, heard_patterns};
use crate::found::Found;
use crate::marks::ByteMarks;
use crate::uses::has_mark;
use song_facts::{Fact, Facts, holds_more};
use song_model::{Song, TableName};

/// Whether a used instrument gives the song the fact.
fn has_instrument(song: &Song, used: &[bool; 64], fact: Fact) -> bool
    requires { AreMarks (IsUsedInstrument song.now) used.now }
    ensures { IsTrue result ↔ HasSuchInstrument song.now (IsOfInstrument fact) }
{
    for instrument in 0..64u8 {
        if used[usize::from(instrument)] && fact.is_of_instrument(&song.instrument(instrument)) {
            return true;
        }
    }
    false
}

/// Whether two used instruments give the song the fact, by what they differ in. Instrument 1 is always used, and where
/// two differ, one of them differs from it.
fn has_pair(song: &Song, used: &[bool; 64], fact: Fact) -> bool
    requires { AreMarks (IsUsedInstrument song.now) used.now }
    ensures { IsTrue result ↔ HasSuchPair song.now (IsOfPair fact) }
{
    let first = song.instrument(1);
    for instrument in 0..64u8 {
        if used[usize::from(instrument)] && fact.is_of_pair(&first, &song.instrument(instrument)) {
            return true;
        }
    }
    false
}

/// Whether a used instrument holds less before its notes than instrument 1.
fn first_holds(song: &Song, used: &[bool; 64]) -> bool
    requires { AreMarks (IsUsedInstrument song.now) used.now }
    ensures { IsTrue result ↔ HasSuchInstrument song.now (λ i. HoldsMore (instrument_at song.now 1) i) }
{
    let first = song.instrument(1);
    for instrument in 0..64u8 {
        if used[usize::from(instrument)] && holds_more(&first, &song.instrument(instrument)) {
            return true;
        }
    }
    false
}

/// Whether a row of the wave table that programs come to is a delay.
fn has_wave_delay(song: &Song, wave: &ByteMarks) -> bool
    requires { AreMarks (IsReached song.now Wave) wave.now }
    ensures { IsTrue result ↔ HasSuchWaveRow song.now IsDelay }
{
    for p in 0..256u16 {
        if wave[usize::from(p)]
            && Fact::WaveDelay.is_of_wave_row(song.row_or_zero(TableName::Wave, p as u8))
        {
            return true;
        }
    }
    false
}

/// Whether two subtunes, or more, can be played.
fn has_subtunes(song: &Song) -> bool
    ensures { IsTrue result ↔ HasSubtunes song.now }
{
    song.playable_count() > 1
}

impl Found {
    /// Whether a row of a used pattern has a command from `from` on and below `to`.
    fn has_commands(&self, song: &Song, from: usize, to: usize) -> bool
        requires order { from ≤ to }
        requires inside { to ≤ 16 }
        requires found { IsFoundOf song.now self.now }
        ensures { IsTrue result ↔
            HasSuchRow song.now (λ row. (from ≤ row.command) × (row.command < to)) }
    {
        for command in from..to {
            if self.has_row(song, command) {
                return true;
            }
        }
        false
    }

    /// Whether a row of a used pattern slides to its note.
    fn has_tone(&self, song: &Song) -> bool
        requires { IsFoundOf song.now self.now }
        ensures { IsTrue result ↔ HasSuchRow song.now IsTone }
    {
        self.has_commands(song, 3, 4)
    }

    /// Whether a row of a used pattern has a command that runs.
    fn has_slide(&self, song: &Song) -> bool
        requires { IsFoundOf song.now self.now }
        ensures { IsTrue result ↔ HasSuchRow song.now IsSlide }
    {
        self.has_commands(song, 1, 5)
    }

    /// Whether a row of a used pattern has a command that is done once.
    fn has_once(&self, song: &Song) -> bool
        requires { IsFoundOf song.now self.now }
        ensures { IsTrue result ↔ HasSuchRow song.now IsOnce }
    {
        // That no command is past the last mark is told by their array.
        let _commands = &self.rows.commands;
        self.has_commands(song, 5, 16)
    }

    /// Whether a row of a used pattern has keyoff or keyon in place of a note.
    fn has_gate_note(&self, song: &Song) -> bool
        requires { IsFoundOf song.now self.now }
        ensures { IsTrue result ↔ HasSuchRow song.now IsGateNote }
    {
        // Named in the contract alone.
        let _song = song;
        has_mark(&self.rows.notes, 0xbe, 0xc0)
    }

    /// Whether a row of a used pattern sets the tempo of its voice: command `$F` with `$80` up.
    fn has_voice_tempo(&self, song: &Song) -> bool
        requires { IsFoundOf song.now self.now }
        ensures { IsTrue result ↔ HasSuchRow song.now IsVoiceTempo }
    {
        // Named in the contract alone.
        let _song = song;
        has_mark(&self.rows.commands[0xf], 0x80, 0x100)
    }

    /// Whether a row of a used pattern sets the tempo of all voices: command `$F` with 3 to `$7F`.
    fn has_common_tempo(&self, song: &Song) -> bool
        requires { IsFoundOf song.now self.now }
        ensures { IsTrue result ↔ HasSuchRow song.now IsCommonTempo }
    {
        // Named in the contract alone.
        let _song = song;
        has_mark(&self.rows.commands[0xf], 3, 0x80)
    }

    /// Whether a row of a used pattern has the voices take turns between two tempos: command `$F` with 0 or 1.
    fn has_funk_turns(&self, song: &Song) -> bool
        requires { IsFoundOf song.now self.now }
        ensures { IsTrue result ↔ HasSuchRow song.now IsFunkTurns }
    {
        // Named in the contract alone.
        let _song = song;
        has_mark(&self.rows.commands[0xf], 0, 2)
    }

    /// Whether a row of a used pattern chooses these two tempos: command `$E`.
    fn has_funk_choice(&self, song: &Song) -> bool
        requires { IsFoundOf song.now self.now }
        ensures { IsTrue result ↔ HasSuchRow song.now IsFunkChoice }
    {
        self.has_row(song, 0xe)
    }

    /// The facts that the song has; `wave` has a mark for each row of the wave table that programs come to.
    pub(crate) fn facts(&self, song: &Song, wave: &ByteMarks) -> Facts
        requires found { IsFoundOf song.now self.now }
        requires wave { AreMarks (IsReached song.now Wave) wave.now }
        ensures { AreFacts song.now result }
    {
        let used = &self.rows.instruments;
        let heard = heard_patterns(song);
        Facts {
            row_tone: self.has_tone(song),
            row_slide: self.has_slide(song),
            row_once: self.has_once(song),
            first_mask: has_instrument(song, used, Fact::FirstMask),
            legato: has_instrument(song, used, Fact::Legato),
            no_hard_restart: has_instrument(song, used, Fact::NoHardRestart),
            wave_delay: has_wave_delay(song, wave),
            gate_note: self.has_gate_note(song),
            note_vibrato: has_instrument(song, used, Fact::NoteVibrato),
            vibrato_delay: has_instrument(song, used, Fact::VibratoDelay),
            note_pulse: has_instrument(song, used, Fact::NotePulse),
            note_filter: has_instrument(song, used, Fact::NoteFilter),
            voice_tempo: self.has_voice_tempo(song),
            common_tempo: self.has_common_tempo(song),
            funk_turns: self.has_funk_turns(song),
            funk_choice: self.has_funk_choice(song),
            own_timer: has_pair(song, used, Fact::OwnTimer),
            own_wave: has_pair(song, used, Fact::OwnWave),
            subtunes: has_subtunes(song),
            voice_two: has_channel_row(song, 2, &heard),
            voice_three: has_channel_row(song, 3, &heard),
            first_holds: first_holds(song, used),
        }
    }
}
