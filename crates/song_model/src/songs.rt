//! The song.

ghost use Rattle.std.specs.Prelude.{◌≡◌, ◌↔◌, [], ◌∷◌, ◌++◌, ◌⊎◌, length, IsErrOf, IfOk};
ghost use Rattle.std.specs.Prelude.{IfErr, OnOk, OnErr};
ghost use Rattle.song_model.specs.Silence.{empty_song};
ghost use Rattle.song_model.specs.LookUp.{with_table};

use crate::{
    Bounded, Instrument, InstrumentList, LimitFault, MOST_INSTRUMENTS, MOST_PATTERNS,
    MOST_SUBTUNES, Pattern, PatternList, PushFault, Subtune, SubtuneList, Table, TableName,
};
use base::NoMemory;
use std::alloc::Global;

/// A song. Its texts are kept as they are; nothing in it is renumbered or packed.
#[derive(Drop)]
pub struct Song {
    /// Its name, 32 bytes.
    pub name: [u8; 32],
    /// Its author's name.
    pub author: [u8; 32],
    /// Who holds the copyright.
    pub copyright: [u8; 32],
    /// Subtunes, counted from 0.
    pub subtunes: SubtuneList,
    /// Instrument 1 is the first one.
    pub instruments: InstrumentList,
    /// The wave table.
    pub wave: Table,
    /// The pulse table.
    pub pulse: Table,
    /// The filter table.
    pub filter: Table,
    /// The speed table.
    pub speed: Table,
    /// Patterns, counted from 0.
    pub patterns: PatternList,
}

impl Song {
    /// The song with zero texts and nothing in its lists.
    pub fn empty(alloc: Global) -> Song
        ensures { result ≡ empty_song }
    {
        Song {
            name: [0; 32],
            author: [0; 32],
            copyright: [0; 32],
            subtunes: Bounded::new(alloc),
            instruments: Bounded::new(alloc),
            wave: Bounded::new(alloc),
            pulse: Bounded::new(alloc),
            filter: Bounded::new(alloc),
            speed: Bounded::new(alloc),
            patterns: Bounded::new(alloc),
        }
    }

    /// Adds a subtune at the end.
    ///
    /// # Errors
    ///
    /// `BadLength` where the song has 32; out of memory. The song is as before.
    pub fn add_subtune(&mut self, subtune: Subtune) -> Result<(), LimitFault>
        ensures ok { OnOk result (self.new ≡
            record self.old { subtunes = self.old.subtunes ++ subtune ∷ [] }) }
        ensures bad_length { IsErrOf result LimitFault.BadLength ↔
            (length self.old.subtunes ≡ MOST_SUBTUNES) }
        ensures no_other { IfErr result (λ fault. (fault ≡ LimitFault.BadLength) ⊎
            (fault ≡ LimitFault.NoMemory)) }
        ensures err { OnErr result (self.new ≡ self.old) }
    {
        match self.subtunes.push(subtune) {
            Ok(()) => Ok(()),
            Err(PushFault::Full) => Err(LimitFault::BadLength),
            Err(PushFault::NoMemory) => Err(LimitFault::NoMemory),
        }
    }

    /// Adds an instrument at the end.
    ///
    /// # Errors
    ///
    /// `BadLength` where the song has 63; out of memory. The song is as before.
    pub fn add_instrument(&mut self, instrument: Instrument) -> Result<(), LimitFault>
        ensures ok { OnOk result (self.new ≡
            record self.old { instruments = self.old.instruments ++ instrument ∷ [] }) }
        ensures bad_length { IsErrOf result LimitFault.BadLength ↔
            (length self.old.instruments ≡ MOST_INSTRUMENTS) }
        ensures no_other { IfErr result (λ fault. (fault ≡ LimitFault.BadLength) ⊎
            (fault ≡ LimitFault.NoMemory)) }
        ensures err { OnErr result (self.new ≡ self.old) }
    {
        match self.instruments.push(instrument) {
            Ok(()) => Ok(()),
            Err(PushFault::Full) => Err(LimitFault::BadLength),
            Err(PushFault::NoMemory) => Err(LimitFault::NoMemory),
        }
    }

    /// Adds a pattern at the end.
    ///
    /// # Errors
    ///
    /// `BadLength` where the song has 208; out of memory. The song is as before.
    pub fn add_pattern(&mut self, pattern: Pattern) -> Result<(), LimitFault>
        ensures ok { OnOk result (self.new ≡
            record self.old { patterns = self.old.patterns ++ pattern ∷ [] }) }
        ensures bad_length { IsErrOf result LimitFault.BadLength ↔
            (length self.old.patterns ≡ MOST_PATTERNS) }
        ensures no_other { IfErr result (λ fault. (fault ≡ LimitFault.BadLength) ⊎
            (fault ≡ LimitFault.NoMemory)) }
        ensures err { OnErr result (self.new ≡ self.old) }
    {
        match self.patterns.push(pattern) {
            Ok(()) => Ok(()),
            Err(PushFault::Full) => Err(LimitFault::BadLength),
            Err(PushFault::NoMemory) => Err(LimitFault::NoMemory),
        }
    }

    /// Puts this table in place of the one of that name; all else stays.
    pub fn set_table(&mut self, name: TableName, table: Table)
        ensures { self.new ≡ with_table self.old name table }
    {
        match name {
            TableName::Wave => self.wave = table,
            TableName::Pulse => self.pulse = table,
            TableName::Filter => self.filter = table,
            TableName::Speed => self.speed = table,
        }
    }

    /// An equal song.
    ///
    /// # Errors
    ///
    /// Out of memory.
    pub fn copy(&self, alloc: Global) -> Result<Song, NoMemory>
        ensures { IfOk result (λ copy. copy ≡ self.now) }
    {
        Ok(Song {
            name: self.name,
            author: self.author,
            copyright: self.copyright,
            subtunes: copy_subtunes(alloc, &self.subtunes)?,
            instruments: self.instruments.copy(alloc)?,
            wave: self.wave.copy(alloc)?,
            pulse: self.pulse.copy(alloc)?,
            filter: self.filter.copy(alloc)?,
            speed: self.speed.copy(alloc)?,
            patterns: copy_patterns(alloc, &self.patterns)?,
        })
    }
}

/// A list of equal subtunes.
fn copy_subtunes(alloc: Global, subtunes: &SubtuneList) -> Result<SubtuneList, NoMemory>
    ensures { IfOk result (λ copy. copy ≡ subtunes.now) }
{
    let stored = subtunes.as_slice();
    let mut copies = Vec::new(alloc);
    for subtune in stored {
        copies.push(subtune.copy(alloc)?)?;
    }
    Ok(Bounded::from_vec(copies))
}

/// A list of equal patterns.
fn copy_patterns(alloc: Global, patterns: &PatternList) -> Result<PatternList, NoMemory>
    ensures { IfOk result (λ copy. copy ≡ patterns.now) }
{
    let stored = patterns.as_slice();
    let mut copies = Vec::new(alloc);
    for pattern in stored {
        copies.push(pattern.copy(alloc)?)?;
    }
    Ok(Bounded::from_vec(copies))
}
