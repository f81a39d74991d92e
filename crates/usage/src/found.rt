//! All that is found of a song: the bytes, rows, pointers and programs that it uses.

ghost use Rattle.std.specs.Prelude.{◌≡◌, ◌≤◌, length, IfErr, OnOk};
ghost use Rattle.song_model.specs.declared.tables.TableName.TheVariants.{Wave};
ghost use Rattle.play_model.specs.Reached.{IsPointer, IsReached};
ghost use Rattle.play_model.specs.Playable.{IsFirst, HasPrograms};
ghost use Rattle.song_model.specs.LookUp.{table_of};
ghost use Rattle.usage.specs.Marks.{AreMarks};
ghost use Rattle.usage.specs.Building.{AreMarksAt};
ghost use Rattle.usage.specs.Rows.{AreRowsOf};
ghost use Rattle.usage.specs.Waves.{IsWaveCommand};
ghost use Rattle.usage.specs.Checks.{ArePrograms};
ghost use Rattle.usage.specs.Search.{IsNowhere};
ghost use Rattle.usage.specs.Found.{IsFoundOf, ProgramFails};

use crate::checks::{Programs, check_pointers, check_rows};
use crate::marks::{ByteMarks, CommandMarks};
use crate::played::played_bytes;
use crate::pointers::{CommandPlace, mark_commands, played_pointers};
use crate::programs::reached;
use crate::rows::{RowMarks, played_rows};
use crate::waves::wave_commands;
use play_model::Unplayable;
use song_model::{Song, TableName};

/// What is found of a song.
#[derive(Drop)]
pub(crate) struct Found {
    /// A mark for each byte of an orderlist that is played.
    pub bytes: ByteMarks,
    /// What the rows of used patterns have.
    pub rows: RowMarks,
    /// The programs of the wave table.
    pub wave: Programs,
    /// Its commands that programs come to.
    pub wave_commands: CommandMarks,
    /// The programs of the pulse table.
    pub pulse: Programs,
    /// The programs of the filter table.
    pub filter: Programs,
    /// A mark for each row of the speed table that a pointer names.
    pub speed: ByteMarks,
}

/// The programs of the wave table: its own rows don't point into it.
fn wave_programs(song: &Song, rows: &RowMarks) -> Programs
    requires { AreRowsOf song.now rows.now }
    ensures { ArePrograms song.now Wave result }
{
    let pointers = played_pointers(song, TableName::Wave, rows);
    let reached = reached(TableName::Wave, song.wave.as_slice(), &pointers);
    Programs { pointers, reached }
}

/// The pointers into another table, those of the wave table among them.
fn other_pointers(song: &Song, name: TableName, rows: &RowMarks, waves: &CommandMarks) -> ByteMarks
    requires rows { AreRowsOf song.now rows.now }
    requires waves { AreMarksAt (IsWaveCommand song.now) waves.now }
    ensures { AreMarks (IsPointer song.now name) result }
{
    let mut pointers = played_pointers(song, name, rows);
    mark_commands(CommandPlace::WaveTable, name, waves, &mut pointers);
    pointers
}

/// The programs of another table.
fn other_programs(song: &Song, name: TableName, rows: &RowMarks, waves: &CommandMarks) -> Programs
    requires rows { AreRowsOf song.now rows.now }
    requires waves { AreMarksAt (IsWaveCommand song.now) waves.now }
    ensures { ArePrograms song.now name result }
{
    let pointers = other_pointers(song, name, rows, waves);
    let reached = reached(name, song.table(name).as_slice(), &pointers);
    Programs { pointers, reached }
}

impl Found {
    /// What is found of this song.
    pub(crate) fn of(song: &Song) -> Found
        ensures { IsFoundOf song.now result }
    {
        let bytes = played_bytes(song);
        let rows = played_rows(song, &bytes);
        let wave = wave_programs(song, &rows);
        // That these tables keep their limit is told by their slices.
        let _wave_rows = song.wave.as_slice();
        let _pulse_rows = song.pulse.as_slice();
        let _filter_rows = song.filter.as_slice();
        let wave_commands = wave_commands(song, &wave.reached);
        let pulse = other_programs(song, TableName::Pulse, &rows, &wave_commands);
        let filter = other_programs(song, TableName::Filter, &rows, &wave_commands);
        let speed = other_pointers(song, TableName::Speed, &rows, &wave_commands);
        Found {
            bytes,
            rows,
            wave,
            wave_commands,
            pulse,
            filter,
            speed,
        }
    }

    /// Looks whether the programs keep their rules: those on rows first, for each table in turn.
    ///
    /// # Errors
    ///
    /// The first place where one of them breaks a rule.
    #[tactic(auto, using(crate::proofs::FoundPrograms::wave_runs, crate::proofs::FoundPrograms::pulse_runs, crate::proofs::FoundPrograms::filter_runs, crate::proofs::FoundPrograms::wave_points, crate::proofs::FoundPrograms::pulse_points, crate::proofs::FoundPrograms::filter_points))]
    pub(crate) fn check(&self, song: &Song) -> Result<(), Unplayable>
        requires { IsFoundOf song.now self.now }
        ensures found { IfErr result (IsFirst (ProgramFails song.now)) }
        ensures none { OnOk result (IsNowhere (ProgramFails song.now)) }
    {
        check_rows(song, TableName::Wave, &self.wave.reached)?;
        check_rows(song, TableName::Pulse, &self.pulse.reached)?;
        check_rows(song, TableName::Filter, &self.filter.reached)?;
        check_pointers(song, TableName::Wave, &self.wave)?;
        check_pointers(song, TableName::Pulse, &self.pulse)?;
        check_pointers(song, TableName::Filter, &self.filter)
    }
}
