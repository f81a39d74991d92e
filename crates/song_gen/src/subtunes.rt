//! The subtunes of a generated song.

ghost use Rattle.std.specs.Prelude.{◌≡◌, IfOk, OnOk};
ghost use Rattle.song_gen.specs.GeneratedSong.{order_from, subtune_from, subtunes_from};
ghost use Rattle.song_gen.specs.Draws.{after};

use crate::draws::Draws;
use base::NoMemory;
use song_model::{Bounded, Order, OrderEntries, Subtune, SubtuneList};
use std::alloc::Global;

/// How many subtunes there are.
const SUBTUNES: u8 = 8;

/// How many patterns an orderlist plays.
const PLAYS: u8 = 48;

/// The patterns of an orderlist, behind its transpose.
fn draw_entries(alloc: Global, draws: &mut Draws) -> Result<OrderEntries, NoMemory>
    ensures entries { IfOk result (λ entries. entries ≡ (order_from draws.old.number).entries) }
    ensures behind { OnOk result (draws.new.number ≡ after draws.old.number 49) }
{
    let mut entries = Vec::new(alloc);
    entries.push(0xf0 + draws.below(8))?;
    for _play in 0..PLAYS {
        entries.push(draws.below(100))?;
    }
    Ok(OrderEntries::from_vec(entries))
}

/// An orderlist.
fn draw_order(alloc: Global, draws: &mut Draws) -> Result<Order, NoMemory>
    ensures order { IfOk result (λ order. order ≡ order_from draws.old.number) }
    ensures behind { OnOk result (draws.new.number ≡ after draws.old.number 50) }
{
    let entries = draw_entries(alloc, draws)?;
    let restart = draws.below(49);
    Ok(Order { entries, restart })
}

/// A subtune, channel by channel.
fn draw_subtune(alloc: Global, draws: &mut Draws) -> Result<Subtune, NoMemory>
    ensures subtune { IfOk result (λ subtune. subtune ≡ subtune_from draws.old.number) }
    ensures behind { OnOk result (draws.new.number ≡ after draws.old.number 150) }
{
    let one = draw_order(alloc, draws)?;
    let two = draw_order(alloc, draws)?;
    let three = draw_order(alloc, draws)?;
    Ok(Subtune { one, two, three })
}

/// All subtunes.
pub(crate) fn draw_subtunes(alloc: Global, draws: &mut Draws) -> Result<SubtuneList, NoMemory>
    ensures { IfOk result (λ list. list ≡ subtunes_from draws.old.number) }
{
    let mut list = Vec::new(alloc);
    for _subtune in 0..SUBTUNES {
        list.push(draw_subtune(alloc, draws)?)?;
    }
    Ok(Bounded::from_vec(list))
}
