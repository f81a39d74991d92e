//! What a song makes use of.

ghost use Rattle.std.specs.Prelude.{◌≡◌, ◌↔◌, IfOk, IfErr, IsOk, IsErrOf, OnOk, take};
ghost use Rattle.play_model.specs.declared.unplayable.Unplayable.{Unplayable as Refusal};
ghost use Rattle.play_model.specs.Playable.{Fails, IsFirst, IsPlayable, IsRefusedFor};
ghost use Rattle.usage.specs.Search.{IsNowhere, OrderFails};
ghost use Rattle.usage.specs.Found.{IsFoundOf, ProgramFails};
ghost use Rattle.usage.specs.Cases.{NameEachCase};
ghost use Rattle.usage.specs.Parts.{AreUsedParts};

use crate::found::Found;
use crate::marks::ByteMarks;
use crate::orders::{OrderRule, check_orders};
use crate::programs::RowNumbers;
use play_model::Unplayable;
use song_facts::Facts;
use song_model::{FeatureBits, Song};

/// The marks of rows up to 255.
fn row_marks(reached: &RowNumbers) -> ByteMarks
    ensures { result ≡ take 256 reached.now }
{
    let mut marks = [false; 256];
    marks.copy_from_slice(&reached[..256]);
    marks
}

/// What a song uses: a mark for each number that is used, over its playable subtunes. Where numbers count from 1, mark
/// 0 is never set.
#[derive(Drop)]
pub struct UsedParts {
    /// The patterns that orderlists name, counted from 0.
    pub patterns: [bool; 208],
    /// Instrument 1, and those that rows of used patterns name, counted from 1; stored or not.
    pub instruments: [bool; 64],
    /// The rows of the wave table that programs come to, counted from 1.
    pub wave: [bool; 256],
    /// The same of the pulse table.
    pub pulse: [bool; 256],
    /// The same of the filter table.
    pub filter: [bool; 256],
    /// The rows of the speed table that pointers name, counted from 1; stored or not.
    pub speed: [bool; 256],
    /// The rows of the wave table that pointers name: programs begin there.
    pub wave_pointers: [bool; 256],
    /// The same of the pulse table.
    pub pulse_pointers: [bool; 256],
    /// The same of the filter table.
    pub filter_pointers: [bool; 256],
    /// What a player of the song has to be able to do.
    pub features: FeatureBits,
    /// What its rows, instruments and wave programs have.
    pub facts: Facts,
}

/// Looks whether the orderlists keep their rules.
///
/// # Errors
///
/// No subtune can be played; else the first place that breaks a rule.
#[tactic(auto, using(crate::proofs::Refusals::names_are_first, crate::proofs::Refusals::end_is_first))]
fn check_all_orders(song: &Song) -> Result<(), Unplayable>
    ensures found { IfErr result (IsFirst (OrderFails song.now)) }
    ensures none { OnOk result (IsNowhere (OrderFails song.now)) }
{
    if song.playable_count() == 0 {
        return Err(Unplayable::NoSubtune);
    }
    check_orders(song, OrderRule::NamesStored)?;
    check_orders(song, OrderRule::NeverEnds)
}

/// The used parts, as they are found.
fn parts_of(song: &Song, found: &Found) -> UsedParts
    requires found { IsFoundOf song.now found.now }
    requires none { IsNowhere (ProgramFails song.now) }
    ensures { AreUsedParts song.now result }
{
    let mut patterns = [false; 208];
    patterns.copy_from_slice(&found.bytes[..208]);
    let wave = row_marks(&found.wave.reached);
    let facts = found.facts(song, &wave);
    UsedParts {
        patterns,
        instruments: found.rows.instruments,
        wave,
        pulse: row_marks(&found.pulse.reached),
        filter: row_marks(&found.filter.reached),
        speed: found.speed,
        wave_pointers: found.wave.pointers,
        pulse_pointers: found.pulse.pointers,
        filter_pointers: found.filter.pointers,
        features: found.features(song),
        facts,
    }
}

/// What a song uses, or the first rule that it breaks.
#[tactic(auto, using(crate::proofs::Refusals::order_is_first, crate::proofs::Refusals::program_is_first, crate::proofs::Refusals::none_is_playable))]
fn looked_at(song: &Song) -> Result<UsedParts, Unplayable>
    ensures found { IfErr result (IsFirst (Fails song.now)) }
    ensures none { OnOk result (IsPlayable song.now) }
    ensures parts { IfOk result (AreUsedParts song.now) }
{
    check_all_orders(song)?;
    let found = Found::of(song);
    found.check(song)?;
    Ok(parts_of(song, &found))
}

/// What a song uses, where it can be played by the rules of [`Unplayable`], with its features and facts. The features
/// name each case that a frame of a playable subtune takes, with any options, so that a player may leave out the
/// others. It takes no memory, and its work is linear in the song.
///
/// # Errors
///
/// The first rule that the song breaks so that it can't be played, with the least place where it breaks it: the
/// orderlists are looked at before the tables.
pub fn usage(song: &Song) -> Result<UsedParts, Unplayable>
    ensures parts { IfOk result (AreUsedParts song.now) }
    ensures cases { IfOk result (λ parts. NameEachCase song.now parts.features.0) }
    ensures playable { IsOk result ↔ IsPlayable song.now }
    ensures refused { (refusal : Refusal) → IsErrOf result refusal ↔ IsRefusedFor song.now refusal }
{
    looked_at(song)
}
