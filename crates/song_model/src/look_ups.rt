//! What a song has under a number.

ghost use Rattle.std.specs.Prelude.{◌≡◌, ◌↔◌, ◌<◌, ◌≤◌, length, IsNone, IfSome};
ghost use Rattle.std.specs.Option.{option_copied};
ghost use Rattle.song_model.specs.LookUp.{IsNumbered, zero_instrument, instrument_at, table_of, table_row, speed_row};
ghost use Rattle.song_model.specs.LookUp.{pattern_at, playable_subtunes, playable_subtune};

use crate::{Instrument, Pattern, Song, Subtune, Table, TableName, TableRow};

impl Song {
    /// Instrument `n`, counted from 1; all zero where none is stored.
    #[tactic(auto, unfolding(crate::specs::LookUp::instrument_at))]
    pub fn instrument(&self, n: u8) -> Instrument
        ensures { result ≡ instrument_at self.now n }
    {
        match self.instruments.numbered(n) {
            Some(instrument) => *instrument,
            None => zero_instrument(),
        }
    }

    /// Row `n` of the speed table, counted from 1; (0, 0) where none is stored.
    #[tactic(auto, unfolding(crate::specs::LookUp::table_row))]
    pub fn speed(&self, n: u8) -> TableRow
        ensures { result ≡ speed_row self.now n }
    {
        match self.speed.numbered(n) {
            Some(row) => *row,
            None => TableRow { left: 0, right: 0 },
        }
    }

    /// Row `n` of a table, counted from 1; none at 0 or past the last.
    #[tactic(auto, unfolding(crate::specs::LookUp::table_row))]
    pub fn row(&self, name: TableName, n: u8) -> Option<TableRow>
        ensures none { IsNone result ↔ ¬ IsNumbered (table_of self.now name) n }
        ensures some { IfSome result (λ row. row ≡ table_row self.now name n) }
    {
        match self.table(name).numbered(n) {
            Some(row) => Some(*row),
            None => None,
        }
    }

    /// Row `n` of a table, counted from 1; (0, 0) where none is stored.
    #[tactic(auto, unfolding(crate::specs::LookUp::table_row))]
    pub fn row_or_zero(&self, name: TableName, n: u8) -> TableRow
        ensures { result ≡ table_row self.now name n }
    {
        match self.table(name).numbered(n) {
            Some(row) => *row,
            None => TableRow { left: 0, right: 0 },
        }
    }

    /// The table of this name.
    pub fn table(&self, name: TableName) -> &Table
        ensures { result.now ≡ table_of self.now name }
    {
        match name {
            TableName::Wave => &self.wave,
            TableName::Pulse => &self.pulse,
            TableName::Filter => &self.filter,
            TableName::Speed => &self.speed,
        }
    }

    /// Pattern `n`, counted from 0; none past the last.
    #[tactic(auto, unfolding(crate::specs::LookUp::pattern_at))]
    pub fn pattern(&self, n: u8) -> Option<&Pattern>
        ensures none { IsNone result ↔ length self.now.patterns ≤ n }
        ensures some { IfSome result (λ pattern. pattern.now ≡ pattern_at self.now n) }
    {
        self.patterns.as_slice().get(usize::from(n))
    }

    /// How many subtunes are playable, that is, have no empty orderlist: 0 to 32.
    pub fn playable_count(&self) -> u8
        ensures { result ≡ length (playable_subtunes self.now) }
    {
        let stored = self.subtunes.as_slice();
        let mut count = 0;
        for subtune in stored {
            if subtune.is_playable() {
                count += 1;
            }
        }
        count
    }

    /// Playable subtune `k`, counted from 0; none past the last.
    #[tactic(auto, unfolding(crate::specs::LookUp::playable_subtune))]
    pub fn playable(&self, k: u8) -> Option<&Subtune>
        ensures subtune { option_copied result ≡ playable_subtune self.now k }
        ensures none { IsNone result ↔ length (playable_subtunes self.now) ≤ k }
    {
        let stored = self.subtunes.as_slice();
        let mut left = k;
        for subtune in stored {
            if subtune.is_playable() {
                if left == 0 {
                    return Some(subtune);
                }
                left -= 1;
            }
        }
        None
    }
}

/// The instrument that is found where none is stored.
fn zero_instrument() -> Instrument
    ensures { result ≡ zero_instrument }
{
    Instrument {
        ad: 0,
        sr: 0,
        wave: 0,
        pulse: 0,
        filter: 0,
        vibrato: 0,
        vibrato_delay: 0,
        gate_timer: 0,
        first_wave: 0,
        name: [0; 16],
    }
}
