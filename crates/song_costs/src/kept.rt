//! The parts of the player that are kept, and why.

ghost use Rattle.std.specs.Prelude.{◌≡◌, ◌<◌, ◌↔◌, Some, IsSome, IfSome, true};
ghost use Rattle.usage.specs.Parts.{AreUsedParts};
ghost use Rattle.kept_lines.specs.Asked.{asked};
ghost use Rattle.kept_lines.specs.KeptLines.{keeps};
ghost use Rattle.image_parts.specs.CodeParts.{code_parts};
ghost use Rattle.song_costs.specs.declared.kept.PartCost.{PartCost as AnyCost};
ghost use Rattle.song_costs.specs.Kept.{IsCause, is_told, IsPartCost};

use image_parts::part_length;
use play_model::Options;
use player_memory::conditions::{SKIP_EFFECTS, SKIP_FIRST, SKIP_PULSE, TIMED};
use song_model::Song;
use song_places::{Place, part_place};
use usage::UsedParts;

/// How many parts there are beside the one that every image has: those of the features, behind them those of the
/// options and what several features have in common, then those of the song's facts, and what several facts or features
/// have in common.
pub const PARTS: u8 = 61;

/// The names of the parts, each at its number, as musicians say them.
pub const PART_NAMES: [&str; PARTS as usize] = [
    "transpose",
    "repeat",
    "portamento up",
    "portamento down",
    "tone portamento",
    "tie note",
    "vibrato",
    "instrument vibrato",
    "note-dependent speed",
    "set attack/decay",
    "set sustain/release",
    "set waveform",
    "set wave pointer",
    "pulse table",
    "set pulse pointer",
    "filter table",
    "set filter pointer",
    "filter control",
    "filter cutoff",
    "master volume",
    "funk tempo",
    "set tempo",
    "wave table",
    "wave commands",
    "skip effects",
    "skip pulse",
    "play by timer",
    "skip between patterns",
    "vibrato swing",
    "slide high byte up",
    "slide high byte down",
    "slide low byte up",
    "slide low byte down",
    "note reached",
    "tone portamento in rows",
    "running row commands",
    "one-off row commands",
    "gate mask as first wave",
    "legato instruments",
    "no hard restart",
    "wave table delay",
    "keyoff/keyon",
    "vibrato of instruments",
    "vibrato delay",
    "pulse of instruments",
    "filter of instruments",
    "tempo of one voice",
    "tempo of all voices",
    "funk tempo turns",
    "funk tempo choice",
    "different gate timers",
    "different first waves",
    "several subtunes",
    "second voice",
    "third voice",
    "first holds more",
    "row commands",
    "special wave rows",
    "held gate or envelope",
    "running effects",
    "filter registers",
];

/// Why a part of the player is kept.
#[derive(Clone, Copy, Debug, PartialEq, Eq)]
pub enum Cause {
    /// The first place of the song that needs the part: for a feature that keeps it, or a fact.
    InSong(Place),
    /// The option that leaves steps of a frame out.
    SkipOption,
    /// A speed above 1.
    SpeedOption,
}

/// What a part of the player costs.
#[derive(Clone, Copy, Debug, PartialEq, Eq)]
pub struct PartCost {
    /// The part, 0 to 60.
    pub part: u8,
    /// Its bytes, from 1 on.
    pub bytes: u32,
    /// Why it is kept.
    pub cause: Cause,
}

/// Why a part is kept, if it is.
fn cause_of(song: &Song, parts: &UsedParts, options: &Options, part: u8) -> Option<Cause>
    requires parts { AreUsedParts song.now parts.now }
    requires part { part < PARTS }
    ensures cause { IfSome result (IsCause song.now part) }
    ensures kept { IsSome result ↔
        (keeps (asked parts.now.features.0 parts.now.facts) options.now part ≡ true) }
{
    let (is_on, cause) = match part {
        SKIP_EFFECTS => (options.skip_effects, Cause::SkipOption),
        SKIP_PULSE => (options.skip_pulse, Cause::SkipOption),
        SKIP_FIRST => (options.skip_first, Cause::SkipOption),
        TIMED => (options.speed.calls() > 1, Cause::SpeedOption),
        _ => return Some(Cause::InSong(part_place(song, parts, part)?)),
    };
    if is_on { Some(cause) } else { None }
}

/// What a part of the player costs for a song, with what it uses, and for options: its bytes and the reason why it is
/// kept, exactly where it is kept and has bytes. The bytes of the player's code have these parts
/// (`image_parts::code_parts`).
pub fn part_cost(
    song: &Song,
    parts: &UsedParts,
    options: &Options,
    code: &[u8],
    part: u8,
) -> Option<PartCost>
    requires parts { AreUsedParts song.now parts.now }
    requires code { code.now ≡ code_parts (asked parts.now.features.0 parts.now.facts) options.now }
    requires part { part < PARTS }
    ensures exact { (cost : AnyCost) → (result ≡ Some cost) ↔
        ((cost.part ≡ part)
        × IsPartCost song.now (asked parts.now.features.0 parts.now.facts) options.now cost) }
    ensures told { IsSome result ↔
        (is_told (asked parts.now.features.0 parts.now.facts) options.now part ≡ true) }
{
    let bytes = part_length(code, part);
    if bytes == 0 {
        return None;
    }
    let cause = cause_of(song, parts, options, part)?;
    Some(PartCost { part, bytes, cause })
}
