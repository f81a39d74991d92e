//! The lines of the code.

ghost use Rattle.std.specs.Prelude.{◌≡◌, ◌<◌, ◌≤◌, ◌++◌, ◌∷◌, [], length, slice_index, OnOk, IfOk};
ghost use Rattle.scope_lines.specs.Readings.{holds_in};
ghost use Rattle.scope_calls.specs.Entrances.{entrance_lines};
ghost use Rattle.player_memory.specs.declared.labels.TheConstants.{FIRST_CLEARED};
ghost use Rattle.player_text.specs.Texts.{filter_lines, voice_lines, init_lines};
ghost use Rattle.player_code.specs.CodeLines.{jump_to, name, byte_line, names_at, variable_lines, jump_lines};
ghost use Rattle.player_code.specs.CodeLines.{front_lines, play_entrance, init_entrance, middle_lines, code_lines};

use crate::labels::{INIT_CODE, PLAY_CODE};
use asm6502::{Item, Line, Listing, Operand};
use base::{ByteList, NoMemory};
use cpu6502::{Mnemonic, Mode};
use player_memory::labels::FIRST_CLEARED;
use player_text::texts::{self, Start};
use scope_calls::{Setup, push_entrance};
use scope_lines::{Conditions, Line as Text};
use std::alloc::Global;

/// In the part that is always kept.
const ALWAYS: u8 = 255;

/// A jump to a label.
fn jump_to(label: u16) -> Line
    ensures { result ≡ jump_to label }
{
    Line {
        part: ALWAYS,
        item: Item::Code(Mnemonic::Jmp, Mode::Absolute, Operand::Label(label, 0)),
    }
}

/// A name of the place behind it.
fn name(label: u16) -> Line
    ensures { result ≡ name label }
{
    Line {
        part: ALWAYS,
        item: Item::Label(label),
    }
}

/// A byte as it is.
fn byte_line(alloc: Global, byte: u8) -> Result<Line, NoMemory>
    ensures { IfOk result (λ line. line ≡ byte_line byte) }
{
    let bytes = ByteList::from_slice(alloc, &[byte])?;
    Ok(Line {
        part: ALWAYS,
        item: Item::Bytes(bytes),
    })
}

/// The two jumps.
fn push_jumps(listing: &mut Listing) -> Result<(), NoMemory>
    ensures { OnOk result (listing.new ≡ listing.old ++ jump_lines) }
{
    listing.push(jump_to(INIT_CODE))?;
    listing.push(jump_to(PLAY_CODE))
}

/// The names of all labels of variables that have this place.
fn push_names(listing: &mut Listing, places: &[u8; 113], place: u8) -> Result<(), NoMemory>
    ensures { OnOk result (listing.new ≡ listing.old ++ names_at (slice_index places.now) place) }
{
    for (label, label_place) in places.iter().enumerate() {
        if *label_place == place {
            listing.push(name(label as u16))?;
        }
    }
    Ok(())
}

/// The variables, each behind the names of its labels.
fn push_variables(
    alloc: Global,
    listing: &mut Listing,
    variables: &[u8],
    places: &[u8; 113],
) -> Result<(), NoMemory>
    requires { length variables.now ≤ 113 }
    ensures { OnOk result (listing.new ≡ listing.old ++ variable_lines (slice_index places.now) 0 variables.now) }
{
    for (place, byte) in variables.iter().enumerate() {
        push_names(listing, places, place as u8)?;
        listing.push(byte_line(alloc, *byte)?)?;
    }
    Ok(())
}

/// What stands in front of the code that plays a frame.
fn front(alloc: Global, variables: &[u8], places: &[u8; 113]) -> Result<Listing, NoMemory>
    requires { length variables.now ≤ 113 }
    ensures { IfOk result (λ listing. listing ≡ front_lines (slice_index places.now) variables.now) }
{
    let mut listing = Listing::new(alloc);
    push_jumps(&mut listing)?;
    push_variables(alloc, &mut listing, variables, places)?;
    listing.push(name(PLAY_CODE))?;
    Ok(listing)
}

/// The code that plays a frame, appended: these are the lines of its blocks.
fn push_frame(
    alloc: Global,
    listing: &mut Listing,
    zero_page: u8,
    conditions: Conditions,
    filter: &[Text],
    voice: &[Text],
) -> Result<(), NoMemory>
    requires filter { filter.now ≡ filter_lines }
    requires voice { voice.now ≡ voice_lines }
    ensures { OnOk result (listing.new
        ≡ listing.old ++ entrance_lines (play_entrance zero_page (holds_in conditions.0))) }
{
    let setup = Setup {
        label: PLAY_CODE,
        numbered: false,
        pointer: zero_page,
        conditions,
    };
    push_entrance(alloc, listing, setup, filter, Some(voice))
}

/// The code that plays a frame, appended.
fn push_play(
    alloc: Global,
    listing: &mut Listing,
    zero_page: u8,
    conditions: Conditions,
) -> Result<(), NoMemory>
    ensures { OnOk result (listing.new
        ≡ listing.old ++ entrance_lines (play_entrance zero_page (holds_in conditions.0))) }
{
    let filter = texts::filter(alloc)?;
    let voice = texts::voice(alloc)?;
    push_frame(
        alloc,
        listing,
        zero_page,
        conditions,
        filter.as_slice(),
        voice.as_slice(),
    )
}

/// The code that begins a subtune with these numbers, appended: these are the lines of its block.
fn push_subtune(
    alloc: Global,
    listing: &mut Listing,
    zero_page: u8,
    conditions: Conditions,
    start: Start,
    cleared: u8,
    init: &[Text],
) -> Result<(), NoMemory>
    requires { init.now ≡ init_lines start cleared }
    ensures { OnOk result (listing.new
        ≡ listing.old ++ entrance_lines (init_entrance zero_page (holds_in conditions.0) start cleared)) }
{
    let (_start, _cleared) = (start, cleared);
    let setup = Setup {
        label: INIT_CODE,
        numbered: true,
        pointer: zero_page,
        conditions,
    };
    push_entrance(alloc, listing, setup, init, None)
}

/// The code that begins a subtune, appended.
fn push_init(
    alloc: Global,
    listing: &mut Listing,
    zero_page: u8,
    conditions: Conditions,
    start: Start,
    cleared: u8,
) -> Result<(), NoMemory>
    requires { 1 ≤ cleared }
    ensures { OnOk result (listing.new
        ≡ listing.old ++ entrance_lines (init_entrance zero_page (holds_in conditions.0) start cleared)) }
{
    let init = texts::init(alloc, start, cleared)?;
    push_subtune(
        alloc,
        listing,
        zero_page,
        conditions,
        start,
        cleared,
        init.as_slice(),
    )
}

/// The lines of an image in front of its lists: two jumps, the variables with the bytes that they begin with, 22 to
/// 113, behind the names of those of the 113 labels that have their place, and the code, of which those lines are kept
/// whose conditions hold. The first 21 variables aren't cleared when a subtune begins. The pointer is at two bytes of
/// page 0, from 2 to 254.
///
/// # Errors
///
/// Out of memory.
pub fn code_listing(
    alloc: Global,
    variables: &[u8],
    places: &[u8; 113],
    zero_page: u8,
    conditions: Conditions,
    start: Start,
) -> Result<Listing, NoMemory>
    requires some { FIRST_CLEARED < length variables.now }
    requires most { length variables.now ≤ 113 }
    ensures { IfOk result (λ listing. listing
        ≡ code_lines (slice_index places.now) variables.now zero_page (holds_in conditions.0) start) }
{
    let mut listing = front(alloc, variables, places)?;
    push_play(alloc, &mut listing, zero_page, conditions)?;
    listing.push(name(INIT_CODE))?;
    push_init(
        alloc,
        &mut listing,
        zero_page,
        conditions,
        start,
        variables.len() as u8 - FIRST_CLEARED as u8,
    )?;
    Ok(listing)
}
