//! What each part of a player costs that is kept and has code.

ghost use Rattle.std.specs.Prelude.{◌≡◌, ◌++◌, ◌<◌, All, IfOk, OnOk};
ghost use Rattle.std.specs.Option.{option_to_list};
ghost use Rattle.usage.specs.Parts.{AreUsedParts};
ghost use Rattle.kept_lines.specs.Asked.{asked};
ghost use Rattle.image_parts.specs.CodeParts.{code_parts};
ghost use Rattle.song_costs.specs.Kept.{AreKeptParts};

use play_model::Options;
use song_costs::{PARTS, PartCost, part_cost};
use song_model::{NoMemory, Song};
use std::alloc::Global;
use usage::UsedParts;

/// What the parts cost that are kept of a player of a song, in their order. The bytes of the player's code have these
/// parts.
///
/// # Errors
///
/// Out of memory.
pub fn part_costs(
    alloc: Global,
    song: &Song,
    parts: &UsedParts,
    options: &Options,
    code: &[u8],
) -> Result<Vec<PartCost>, NoMemory>
    requires parts { AreUsedParts song.now parts.now }
    requires code { code.now ≡ code_parts (asked parts.now.features.0 parts.now.facts)
        options.now }
    ensures kept { IfOk result (λ told.
        AreKeptParts song.now (asked parts.now.features.0 parts.now.facts) options.now told.items) }
    ensures named { IfOk result (λ told. All (λ cost. cost.part < PARTS) told.items) }
{
    let mut told = Vec::new(alloc);
    for part in 0..PARTS {
        add_cost(&mut told, part_cost(song, parts, options, code, part))?;
    }
    Ok(told)
}

/// Adds what a part costs, if it costs anything.
///
/// # Errors
///
/// Out of memory.
fn add_cost(told: &mut Vec<PartCost>, cost: Option<PartCost>) -> Result<(), NoMemory>
    ensures { OnOk result (told.new.items ≡ told.old.items ++ option_to_list cost) }
{
    if let Some(cost) = cost {
        told.push(cost)?;
    }
    Ok(())
}
