//! The instruments of a generated song.

ghost use Rattle.std.specs.Prelude.{◌≡◌, ◌≤◌, IfOk, OnOk};
ghost use Rattle.song_gen.specs.GeneratedSong.{instrument_from, instruments_from};
ghost use Rattle.song_gen.specs.Draws.{after};

use crate::draws::Draws;
use base::NoMemory;
use song_model::{Bounded, Instrument, InstrumentList};
use std::alloc::Global;

/// How many instruments there are.
const INSTRUMENTS: u8 = 4;

/// Instrument `number`, with what is drawn.
#[tactic(auto, unfolding(crate::specs::Draws::draw, crate::specs::Draws::after))]
fn draw_instrument(draws: &mut Draws, number: u8) -> Instrument
    requires first { 1 ≤ number }
    requires last { number ≤ INSTRUMENTS }
    ensures instrument { result ≡ instrument_from draws.old.number number }
    ensures behind { draws.new.number ≡ after draws.old.number 3 }
{
    let ad = draws.below(256);
    let sr = draws.below(256);
    let vibrato_delay = draws.below(16);
    Instrument {
        ad,
        sr,
        wave: if number % 2 == 1 { 1 } else { 6 },
        pulse: 1,
        filter: if number == 1 { 1 } else { 0 },
        vibrato: number - 1,
        vibrato_delay,
        gate_timer: 2,
        first_wave: 0x09,
        name: [0; 16],
    }
}

/// All instruments.
pub(crate) fn draw_instruments(alloc: Global, draws: &mut Draws) -> Result<InstrumentList, NoMemory>
    ensures instruments { IfOk result (λ list. list ≡ instruments_from draws.old.number) }
    ensures behind { OnOk result (draws.new.number ≡ after draws.old.number 12) }
{
    let mut list = Vec::new(alloc);
    for index in 0..INSTRUMENTS {
        list.push(draw_instrument(draws, index + 1))?;
    }
    Ok(Bounded::from_vec(list))
}
