//! The order of the instruments of a packed song.

ghost use Rattle.std.specs.Prelude.{◌≡◌, ◌<◌, ◌==◌, ◌&&◌, ◌++◌, IfOk, OnOk};
ghost use Rattle.song_model.specs.LookUp.{instrument_at};
ghost use Rattle.song_facts.specs.Hold.{hold_of, how_much};
ghost use Rattle.table_pack.specs.Marks.{is_marked};
ghost use Rattle.packing_rules.specs.Renumbering.{holders, instruments_in_order};
ghost use Rattle.song_pack.specs.Numbers.{sets_of};

use base::NoMemory;
use song_facts::Hold;
use song_model::Song;
use std::alloc::Global;
use usage::UsedParts;

/// The numbers of the used instruments, in the order in which they are packed. Each voice begins with instrument 1,
/// which stays the first. Behind it stand those that hold nothing before their notes, those that hold the envelope, and
/// those that hold the gate, each in ascending order.
///
/// # Errors
///
/// Out of memory.
#[tactic(auto, unfolding(packing_rules::specs::Renumbering::instruments_in_order))]
pub(crate) fn instruments_in_order(
    alloc: Global,
    song: &Song,
    usage: &UsedParts,
) -> Result<Vec<u8>, NoMemory>
    ensures { IfOk result (λ order. order.items ≡ instruments_in_order song.now (sets_of usage.now)) }
{
    let mut order = Vec::new(alloc);
    order.push(1)?;
    push_holders(&mut order, song, usage, Hold::Nothing)?;
    push_holders(&mut order, song, usage, Hold::Envelope)?;
    push_holders(&mut order, song, usage, Hold::Gate)?;
    Ok(order)
}

/// Adds the used instruments behind the first that hold this before their notes.
///
/// # Errors
///
/// Out of memory.
fn push_holders(
    order: &mut Vec<u8>,
    song: &Song,
    usage: &UsedParts,
    hold: Hold,
) -> Result<(), NoMemory>
    ensures { OnOk result
        (order.new.items ≡ order.old.items ++ holders song.now (sets_of usage.now) hold) }
{
    for index in 0..62u8 {
        let n = index + 2;
        if is_holder(song, usage, hold, n) {
            order.push(n)?;
        }
    }
    Ok(())
}

/// Whether an instrument is used and holds this before its notes.
fn is_holder(song: &Song, usage: &UsedParts, hold: Hold, n: u8) -> bool
    requires { n < 64 }
    ensures { result ≡ (is_marked usage.now.instruments n
        && (how_much (hold_of (instrument_at song.now n)) == how_much hold)) }
{
    usage.instruments[usize::from(n)]
        && Hold::of(song.instrument(n).gate_timer).how_much() == hold.how_much()
}
