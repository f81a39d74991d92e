//! The rows of entries.

ghost use Rattle.std.specs.Prelude.{◌≡◌, ◌+◌, ◌≤◌, ◌∷◌, ◌++◌, [], List, All, OnOk, IfOk};
ghost use Rattle.std.specs.Prelude.{IfErr, replicate};
ghost use Rattle.song_model.specs.declared.rows.Row.{Row as OneRow};
ghost use Rattle.song_model.specs.PatternLimits.{IsRow};
ghost use Rattle.packed_form.specs.declared.entries.Entry.{Entry};
ghost use Rattle.packed_form.specs.Entries.{row_with};
ghost use Rattle.packed_form.specs.Faults.{within_length};
ghost use Rattle.pattern_pack.specs.Answers.{RowsAre, RowsOf, GoesOn, Gives};

use crate::commands::NO_COMMAND;
use packed_form::{Command, Entry, PackedFault, Place, Taken};
use song_model::{MOST_ROWS, Pattern, Row};
use std::alloc::Global;

/// The first 128 rows of entries, how many rows there are, and the running command behind them.
#[derive(Drop)]
pub struct Rows {
    /// The first 128 rows.
    kept: Vec<Row>,
    /// How many rows there are.
    count: u32,
    /// The running command.
    running: Command,
}

impl Rows {
    /// No rows.
    pub fn new(alloc: Global) -> Rows
        ensures { RowsOf result [] }
    {
        Rows {
            kept: Vec::new(alloc),
            count: 0,
            running: NO_COMMAND,
        }
    }

    /// Adds the rows of an entry, where a byte has made one; and where the next byte stands, or none at the end.
    ///
    /// # Errors
    ///
    /// Out of memory.
    pub fn go_on(&mut self, taken: Taken) -> Result<Option<Place>, PackedFault>
        requires { self.old.count ≤ 0xffff0000 }
        ensures ok { IfOk result (GoesOn self.old taken self.new) }
        ensures err { IfErr result (λ fault. fault ≡ PackedFault.NoMemory) }
    {
        match taken {
            Taken::On(next) => Ok(Some(next)),
            Taken::Made(entry) => {
                self.add(entry)?;
                Ok(Some(Place::AtEntry { instrument: 0 }))
            }
            Taken::End => Ok(None),
        }
    }

    /// Adds the rows of an entry.
    ///
    /// # Errors
    ///
    /// Out of memory.
    fn add(&mut self, entry: Entry) -> Result<(), PackedFault>
        requires { self.old.count ≤ 0xffff0000 }
        ensures ok { OnOk result ((done : List Entry) → RowsOf self.old done → RowsOf self.new
            (done ++ entry ∷ [])) }
        ensures counted { OnOk result (self.new.count ≤ self.old.count + 256) }
        ensures err { IfErr result (λ fault. fault ≡ PackedFault.NoMemory) }
    {
        self.running = entry.kind.command_behind(self.running);
        self.push(row_with(entry.kind.note(), entry.instrument, self.running))?;
        self.push_rests(entry.kind.more_rests())?;
        Ok(())
    }

    /// Adds so many rests with the running command.
    ///
    /// # Errors
    ///
    /// Out of memory.
    fn push_rests(&mut self, more: u8) -> Result<(), PackedFault>
        requires { self.old.count ≤ 0xffff0001 }
        ensures ok { OnOk result ((all : List OneRow) → RowsAre self.old all → RowsAre self.new
            (all ++ replicate more (row_with 0xBD 0 self.old.running))) }
        ensures counted { OnOk result (self.new.count ≡ self.old.count + more) }
        ensures running { OnOk result (self.new.running ≡ self.old.running) }
        ensures err { IfErr result (λ fault. fault ≡ PackedFault.NoMemory) }
    {
        let rest = row_with(0xbd, 0, self.running);
        for _i in 0..more {
            self.push(rest)?;
        }
        Ok(())
    }

    /// Adds a row.
    ///
    /// # Errors
    ///
    /// Out of memory.
    fn push(&mut self, row: Row) -> Result<(), PackedFault>
        requires { self.old.count ≤ 0xfffffffe }
        ensures ok { OnOk result ((all : List OneRow) → RowsAre self.old all → RowsAre self.new
            (all ++ row ∷ [])) }
        ensures counted { OnOk result (self.new.count ≡ self.old.count + 1) }
        ensures running { OnOk result (self.new.running ≡ self.old.running) }
        ensures err { IfErr result (λ fault. fault ≡ PackedFault.NoMemory) }
    {
        if self.count < MOST_ROWS as u32 {
            self.kept.push(row)?;
        }
        self.count += 1;
        Ok(())
    }

    /// The pattern of the rows.
    ///
    /// # Errors
    ///
    /// There is no row, or there are more than 128.
    pub fn into_pattern(self) -> Result<Pattern, PackedFault>
        requires { (all : List OneRow) × RowsAre self all × All IsRow all }
        ensures { (all : List OneRow) → RowsAre self all → Gives result (within_length all) }
    {
        if self.count == 0 || self.count > MOST_ROWS as u32 {
            return Err(PackedFault::BadLength);
        }
        Ok(Pattern::from_vec(self.kept))
    }
}

/// The row with this note, instrument and command.
fn row_with(note: u8, instrument: u8, command: Command) -> Row
    ensures { result ≡ row_with note instrument command }
{
    Row {
        note,
        instrument,
        command: command.number,
        param: command.param,
    }
}
