//! The part of each byte of an image's code.

ghost use Rattle.std.specs.Prelude.{◌≡◌, ◌++◌, ◌≤◌, true, length, replicate, IfOk, OnOk};
ghost use Rattle.scopes.specs.Trees.{tree_of};
ghost use Rattle.scope_lines.specs.Readings.{holds_in, is_block};
ghost use Rattle.player_text.specs.Texts.{filter_lines, voice_lines};
ghost use Rattle.variable_places.specs.Places.{variable_count};
ghost use Rattle.image_parts.specs.CodeParts.{always, parts_around, code_parts};

use base::{ByteList, NoMemory};
use kept_lines::{conditions, start_of};
use play_model::Options;
use player_memory::labels::FIRST_CLEARED;
use player_text::texts;
use scope_lines::{Conditions, Line};
use scope_parts::push_parts;
use std::alloc::Global;
use variable_places::variable_places;

/// The part that every image has.
pub const ALWAYS: u8 = 255;

/// The bytes of the code in front of its blocks, but for the variables: two jumps and `CLD`.
const FRONT: u16 = 7;

/// Those of the calls of the voices, behind the filter.
const CALLS: u16 = 12;

/// Those between the voices and the beginning of a subtune: `RTS` and `CLD`.
const BETWEEN: u16 = 2;

/// Those behind it: `RTS`.
const BACK: u16 = 1;

/// Appends bytes that every image has.
fn push_always(list: &mut ByteList, count: u16) -> Result<(), NoMemory>
    ensures { OnOk result (list.new ≡ list.old ++ replicate count always) }
{
    for _ in 0..count {
        list.push(ALWAYS)?;
    }
    Ok(())
}

/// The parts of the code that has so many variables, and whose blocks have these lines.
fn parts_around(
    alloc: Global,
    conditions: Conditions,
    variables: u8,
    filter: &[Line],
    voice: &[Line],
    init: &[Line],
) -> Result<ByteList, NoMemory>
    requires variables { variables ≡ variable_count (holds_in conditions.0) }
    requires filter { filter.now ≡ filter_lines }
    requires voice { voice.now ≡ voice_lines }
    requires init { is_block init.now ≡ true }
    requires room { length init.now ≤ 20000 }
    ensures { IfOk result (λ list. list ≡ parts_around (holds_in conditions.0) (tree_of init.now)) }
{
    let mut list = ByteList::new(alloc);
    push_always(&mut list, FRONT + u16::from(variables))?;
    push_parts(&mut list, filter, conditions, ALWAYS)?;
    push_always(&mut list, CALLS)?;
    push_parts(&mut list, voice, conditions, ALWAYS)?;
    push_always(&mut list, BETWEEN)?;
    push_parts(&mut list, init, conditions, ALWAYS)?;
    push_always(&mut list, BACK)?;
    Ok(list)
}

/// The part of each byte of an image's code, in order, for what a song asks for and for options: a condition, 0 to 60,
/// or 255.
///
/// # Errors
///
/// Out of memory.
pub fn code_parts(alloc: Global, asked: Conditions, options: &Options) -> Result<ByteList, NoMemory>
    ensures { IfOk result (λ list. list ≡ code_parts asked.0 options.now) }
{
    let filter = texts::filter(alloc)?;
    let voice = texts::voice(alloc)?;
    let conditions = conditions(asked, *options);
    let variables = variable_places(conditions).count;
    let cleared = variables - FIRST_CLEARED as u8;
    let init = texts::init(alloc, start_of(options), cleared)?;
    parts_around(
        alloc,
        conditions,
        variables,
        filter.as_slice(),
        voice.as_slice(),
        init.as_slice(),
    )
}
