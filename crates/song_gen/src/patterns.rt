//! The patterns of a generated song.

ghost use Rattle.std.specs.Prelude.{◌≡◌, IfOk, OnOk};
ghost use Rattle.song_model.specs.PatternLimits.{IsRow};
ghost use Rattle.song_gen.specs.GeneratedSong.{row_from, behind_row, behind_rows, pattern_from, patterns_from};

use crate::draws::Draws;
use base::NoMemory;
use song_model::{Bounded, Pattern, PatternList, Row};
use std::alloc::Global;

/// How many patterns there are.
const PATTERNS: u8 = 100;

/// How many rows each of them has.
const ROWS: u8 = 32;

/// A row without an instrument and a command.
fn plain_row(note: u8) -> Row
    ensures { result ≡ record { note = note; instrument = 0; command = 0; param = 0 } }
{
    Row {
        note,
        instrument: 0,
        command: 0,
        param: 0,
    }
}

/// A row: a rest, a note, a rest with a command, or keyoff.
#[tactic(auto, unfolding(crate::specs::GeneratedSong::row_from, crate::specs::GeneratedSong::behind_row, crate::specs::Draws::draw, crate::specs::Draws::after))]
fn draw_row(draws: &mut Draws) -> Row
    ensures row { result ≡ row_from draws.old.number }
    ensures behind { draws.new.number ≡ behind_row draws.old.number }
    ensures range { IsRow result }
{
    match draws.below(4) {
        0 => plain_row(0xbd),
        1 => {
            let note = 0x78 + draws.below(48);
            let instrument = 1 + draws.below(4);
            Row {
                note,
                instrument,
                command: 0,
                param: 0,
            }
        }
        2 => {
            let command = 1 + draws.below(4);
            let param = 1 + draws.below(3);
            Row {
                note: 0xbd,
                instrument: 0,
                command,
                param,
            }
        }
        _ => plain_row(0xbe),
    }
}

/// A pattern.
fn draw_pattern(alloc: Global, draws: &mut Draws) -> Result<Pattern, NoMemory>
    ensures pattern { IfOk result (λ pattern. pattern ≡ pattern_from draws.old.number) }
    ensures behind { OnOk result (draws.new.number ≡ behind_rows draws.old.number 32) }
{
    let mut rows = Vec::new(alloc);
    for _row in 0..ROWS {
        rows.push(draw_row(draws))?;
    }
    Ok(Pattern::from_vec(rows))
}

/// All patterns.
pub(crate) fn draw_patterns(alloc: Global, draws: &mut Draws) -> Result<PatternList, NoMemory>
    ensures patterns { IfOk result (λ list. list ≡ patterns_from draws.old.number) }
    ensures behind { OnOk result (draws.new.number ≡ behind_rows draws.old.number 3200) }
{
    let mut list = Vec::new(alloc);
    for _pattern in 0..PATTERNS {
        list.push(draw_pattern(alloc, draws)?)?;
    }
    Ok(Bounded::from_vec(list))
}
