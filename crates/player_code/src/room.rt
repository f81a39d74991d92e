//! How many bytes the code takes.

ghost use Rattle.std.specs.Prelude.{◌≡◌, ◌<◌, IfOk};
ghost use Rattle.scope_lines.specs.Readings.{holds_in};
ghost use Rattle.player_memory.specs.declared.labels.TheConstants.{FIRST_CLEARED};
ghost use Rattle.player_text.specs.Texts.{filter_lines, voice_lines, init_lines};
ghost use Rattle.player_code.specs.CodeLines.{cleared_of};
ghost use Rattle.player_code.specs.CodeLaws.{code_takes};

use base::NoMemory;
use player_memory::labels::FIRST_CLEARED;
use player_text::texts::{self, Start};
use scope_lines::{Conditions, Line as Text, size_of};
use std::alloc::Global;

/// The bytes around the variables and the blocks: two jumps, and the instructions of both entrances.
const AROUND: u16 = 22;

/// The bytes of the code whose variables take so many, and whose blocks have these lines.
fn around(
    conditions: Conditions,
    start: Start,
    variables: u8,
    filter: &[Text],
    voice: &[Text],
    init: &[Text],
) -> u16
    requires filter { filter.now ≡ filter_lines }
    requires voice { voice.now ≡ voice_lines }
    requires init { init.now ≡ init_lines start (cleared_of variables) }
    ensures { result ≡ code_takes (holds_in conditions.0) start variables }
{
    let _start = start;
    AROUND
        + u16::from(variables)
        + size_of(filter, conditions)
        + size_of(voice, conditions)
        + size_of(init, conditions)
}

/// How many bytes the code takes of which those lines are kept whose conditions hold, where its variables take so many,
/// 22 to 113, whatever they begin with and wherever they and the pointer are.
///
/// # Errors
///
/// Out of memory.
pub fn code_size(
    alloc: Global,
    conditions: Conditions,
    start: Start,
    variables: u8,
) -> Result<u16, NoMemory>
    requires { FIRST_CLEARED < variables }
    ensures { IfOk result (λ bytes. bytes ≡ code_takes (holds_in conditions.0) start variables) }
{
    let filter = texts::filter(alloc)?;
    let voice = texts::voice(alloc)?;
    let init = texts::init(alloc, start, variables - FIRST_CLEARED as u8)?;
    Ok(around(
        conditions,
        start,
        variables,
        filter.as_slice(),
        voice.as_slice(),
        init.as_slice(),
    ))
}
