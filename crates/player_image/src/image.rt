//! From a packed song to its image.

ghost use Rattle.std.specs.Prelude.{◌≡◌, ◌+◌, ◌≤◌, None, length, IfOk};
ghost use Rattle.base.specs.Bytes.{AreBytes};
ghost use Rattle.play_model.specs.Speeds.{IsSpeed};
ghost use Rattle.asm6502.specs.Lines.{kept, size_of, data_size};
ghost use Rattle.asm6502.specs.Assembly.{assembled_bytes};
ghost use Rattle.asm6502.specs.Faults.{fault_of};
ghost use Rattle.song_lists.specs.ListLaws.{KeepsCounts};
ghost use Rattle.player_image.specs.Images.{IsListingOf, IsImageOf, image_size};

use crate::variables::{placed, start_variables};
use asm6502::{AsmFault, Listing, MOST_BYTES, MOST_LINES, PartSet, assemble};
use base::{ByteList, NoMemory};
use kept_lines::{asked_by, conditions, start_of};
use packed_form::PackedSong;
use play_model::Options;
use player_code::{code_listing, code_size};
use player_memory::conditions::NOTE_DEPENDENT;
use song_lists::{data_listing, first_orders};
use std::alloc::Global;
use variable_places::variable_places;

/// A packed song has at most 32 subtunes and at most 208 patterns, and a speed is from 1 to 4.
fn keep_limits(packed: &PackedSong, options: &Options)
    ensures counts { KeepsCounts packed.now }
    ensures speed { IsSpeed options.now.speed }
{
    let _subtunes = packed.subtunes.as_slice();
    let _patterns = packed.patterns.as_slice();
    let _calls = options.speed.calls();
}

/// The lines of an image: those of its code, and of its lists behind them.
fn image_listing(
    alloc: Global,
    packed: &PackedSong,
    origin: u16,
    zero_page: u8,
    options: &Options,
) -> Result<Listing, NoMemory>
    requires low { 2 ≤ zero_page }
    requires high { zero_page ≤ 254 }
    requires fits { origin + image_size packed.now options.now ≤ 0xD000 }
    ensures { IfOk result (IsListingOf packed.now options.now origin zero_page) }
{
    keep_limits(packed, options);
    let conditions = conditions(asked_by(packed), *options);
    let start = start_of(options);
    let dependent = conditions.hold(NOTE_DEPENDENT);
    let stand = variable_places(conditions);
    let first = origin + code_size(alloc, conditions, start, stand.count)?;
    let orders = first_orders(alloc, packed, first, dependent)?;
    let labelled = start_variables(options, orders);
    let variables = placed(alloc, &labelled, &stand.places, stand.count)?;
    let mut listing = code_listing(
        alloc,
        variables.as_slice(),
        &stand.places,
        zero_page,
        conditions,
        start,
    )?;
    let mut lists = data_listing(alloc, packed, first, dependent)?;
    listing.append(&mut lists)?;
    Ok(listing)
}

/// Bytes are below 256.
fn are_bytes(bytes: &[u8])
    ensures { AreBytes bytes.now }
{}

/// The bytes of a listing with which nothing is wrong.
fn assembled(alloc: Global, listing: &Listing, origin: u16) -> Result<ByteList, NoMemory>
    requires lines { length listing.now ≤ MOST_LINES }
    requires bytes { data_size listing.now ≤ MOST_BYTES }
    requires right { fault_of 0 origin listing.now ≡ None }
    ensures bytes { IfOk result (λ bytes. bytes ≡ assembled_bytes 0 origin listing.now) }
    ensures size { IfOk result (λ bytes. length bytes ≡ size_of (kept 0 listing.now)) }
    ensures are_bytes { IfOk result AreBytes }
{
    match assemble(alloc, listing, origin, PartSet(0)) {
        Ok(done) => {
            are_bytes(done.bytes.as_slice());
            Ok(done.bytes)
        }
        Err(AsmFault::NoMemory) => Err(NoMemory),
        Err(_) => unreachable!(),
    }
}

/// The image of a packed song, to stand at an address, from which it ends at or below `$D000`. Its
/// pointer is at two bytes of page 0, from 2 to 254.
///
/// # Errors
///
/// Out of memory.
pub fn image_of(
    alloc: Global,
    packed: &PackedSong,
    origin: u16,
    zero_page: u8,
    options: &Options,
) -> Result<ByteList, NoMemory>
    requires low { 2 ≤ zero_page }
    requires high { zero_page ≤ 254 }
    requires fits { origin + image_size packed.now options.now ≤ 0xD000 }
    ensures image { IfOk result (IsImageOf packed.now options.now origin zero_page) }
    ensures size { IfOk result (λ bytes. length bytes ≡ image_size packed.now options.now) }
    ensures are_bytes { IfOk result AreBytes }
{
    keep_limits(packed, options);
    let listing = image_listing(alloc, packed, origin, zero_page, options)?;
    assembled(alloc, &listing, origin)
}
