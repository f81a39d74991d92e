//! Subtunes and their orderlists.

ghost use Rattle.std.specs.Prelude.{◌≡◌, ◌∷◌, ◌++◌, [], OnOk};
ghost use Rattle.song_script.specs.Statements.{Comment, text_of, each_from};
ghost use Rattle.song_script.specs.Parts.{channel_words, entry_said, restart_said, order_said, subtune_said};

use crate::digits::put_digits;
use crate::lines::put_line;
use base::{ByteList, NoMemory};
use song_model::{Order, OrderEntries, Subtune, SubtuneList};

/// Adds the entries of an orderlist.
///
/// # Errors
///
/// Out of memory.
fn put_entries(
    out: &mut ByteList,
    subtune: u8,
    channel: u8,
    entries: &OrderEntries,
) -> Result<(), NoMemory>
    ensures { OnOk result (out.new ≡
        out.old ++ text_of (each_from 0 (entry_said subtune channel) entries.now)) }
{
    let entries = entries.as_slice();
    for (place, entry) in entries.iter().enumerate() {
        put_line(
            out,
            b"order-insert",
            &[subtune, channel, place as u8, *entry],
        )?;
    }
    Ok(())
}

/// Adds where an orderlist goes on, unless that is its beginning.
///
/// # Errors
///
/// Out of memory.
fn put_restart(out: &mut ByteList, subtune: u8, channel: u8, restart: u8) -> Result<(), NoMemory>
    ensures { OnOk result (out.new ≡ out.old ++ text_of (restart_said subtune channel restart)) }
{
    if restart == 0 {
        return Ok(());
    }
    put_line(out, b"order-restart", &[subtune, channel, restart])
}

/// Adds the line over an orderlist.
///
/// # Errors
///
/// Out of memory.
fn put_title(out: &mut ByteList, subtune: u8, channel: u8) -> Result<(), NoMemory>
    ensures { OnOk result (out.new ≡
        out.old ++ text_of (Comment (channel_words subtune channel) ∷ [])) }
{
    out.extend(b"# subtune ")?;
    put_digits(out, subtune)?;
    out.extend(b" channel ")?;
    put_digits(out, channel)?;
    out.push(b'\n')
}

/// Adds an orderlist.
///
/// # Errors
///
/// Out of memory.
fn put_order(out: &mut ByteList, subtune: u8, channel: u8, order: &Order) -> Result<(), NoMemory>
    ensures { OnOk result (out.new ≡ out.old ++ text_of (order_said subtune channel order.now)) }
{
    put_title(out, subtune, channel)?;
    put_entries(out, subtune, channel, &order.entries)?;
    put_restart(out, subtune, channel, order.restart)
}

/// Adds the three orderlists of a subtune.
///
/// # Errors
///
/// Out of memory.
fn put_subtune(out: &mut ByteList, number: u8, subtune: &Subtune) -> Result<(), NoMemory>
    ensures { OnOk result (out.new ≡ out.old ++ text_of (subtune_said number subtune.now)) }
{
    put_order(out, number, 1, &subtune.one)?;
    put_order(out, number, 2, &subtune.two)?;
    put_order(out, number, 3, &subtune.three)
}

/// Adds all subtunes.
///
/// # Errors
///
/// Out of memory.
pub(crate) fn put_subtunes(out: &mut ByteList, subtunes: &SubtuneList) -> Result<(), NoMemory>
    ensures { OnOk result (out.new ≡ out.old ++ text_of (each_from 1 subtune_said subtunes.now)) }
{
    let subtunes = subtunes.as_slice();
    for (place, subtune) in subtunes.iter().enumerate() {
        put_subtune(out, place as u8 + 1, subtune)?;
    }
    Ok(())
}
