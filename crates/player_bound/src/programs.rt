//! The program of an image: its blocks, and what their numbers rest on.

ghost use Rattle.std.specs.Prelude.{◌≡◌, IfOk};
ghost use Rattle.player_bound.specs.Programs.{blocks_of, program_blocks, AreBlocks};

use base::{Items, NoMemory};
use cycle_bound::{Kept, Line};
use kept_lines::{asked_by, conditions, start_of};
use packed_form::PackedSong;
use play_model::Options;
use player_memory::labels::FIRST_CLEARED;
use player_text::texts;
use std::alloc::Global;
use variable_places::variable_places;

/// The blocks of an image's two entrances, and what their numbers rest on.
#[derive(Drop)]
pub struct Program {
    /// What begins a subtune.
    pub init: Items<Line>,
    /// What a frame does before its voices.
    pub filter: Items<Line>,
    /// What it does for each voice.
    pub voice: Items<Line>,
    /// Which lines are kept, and how many turns a walk along an orderlist has.
    pub kept: Kept,
}

/// The program of a packed song's images with these options.
///
/// # Errors
///
/// Out of memory.
pub fn program_of(
    alloc: Global,
    packed: &PackedSong,
    options: &Options,
) -> Result<Program, NoMemory>
    ensures blocks { IfOk result (λ program. blocks_of program ≡ program_blocks packed.now options.now) }
    ensures are { IfOk result AreBlocks }
{
    let conditions = conditions(asked_by(packed), *options);
    let count = variable_places(conditions).count;
    Ok(Program {
        init: texts::init(alloc, start_of(options), count - FIRST_CLEARED as u8)?,
        filter: texts::filter(alloc)?,
        voice: texts::voice(alloc)?,
        kept: Kept {
            conditions,
            open_turns: packed.walk_count(),
        },
    })
}
