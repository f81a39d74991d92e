//! Two songs in one.

ghost use Rattle.std.specs.Prelude.{◌≡◌, ◌⊎◌, IfOk, IfErr, IsErrOf, OnOk};
ghost use Rattle.song_model.specs.Limits.{KeepsLimits};
ghost use Rattle.play_model.specs.Playable.{IsPlayable};
ghost use Rattle.usage.specs.Parts.{AreUsedParts};
ghost use Rattle.song_join.specs.declared.faults.JoinFault.{JoinFault as Refusal};
ghost use Rattle.song_join.specs.Joined.{joined};
ghost use Rattle.song_join.specs.JoinLaws.{IsWholeJoin};
ghost use Rattle.song_join.specs.Limits.{AreWithin};
ghost use Rattle.song_join.specs.Refusals.{CanBeJoined, IsRefusedFor};

use crate::JoinFault;
use crate::limits::check_limits;
use crate::loose::{check_instruments, check_speeds};
use crate::openings::check_openings;
use crate::parts::{joined_instruments, joined_patterns, joined_subtunes, joined_table};
use crate::timers::check_timers;
use song_model::{NoMemory, Song, TableName};
use std::alloc::Global;
use usage::{UsedParts, usage};

/// What a song uses that can be played.
fn used_parts(song: &Song) -> UsedParts
    requires { IsPlayable song.now }
    ensures { AreUsedParts song.now result }
{
    match usage(song) {
        Ok(parts) => parts,
        Err(_) => unreachable!(),
    }
}

/// Looks whether two songs can be joined.
///
/// # Errors
///
/// The first reason why they can't.
#[tactic(auto, using(crate::proofs::OneRefusal::timer_refused, crate::proofs::OneRefusal::unnamed_refused))]
fn check(first: &Song, second: &Song) -> Result<(), JoinFault>
    requires first_plays { IsPlayable first.now }
    requires second_plays { IsPlayable second.now }
    ensures found { IfErr result (IsRefusedFor first.now second.now) }
    ensures none { OnOk result (CanBeJoined first.now second.now) }
{
    check_limits(first, second)?;
    let first_parts = used_parts(first);
    let second_parts = used_parts(second);
    check_instruments(first, second, &first_parts, &second_parts)?;
    check_speeds(first, second, &first_parts, &second_parts)?;
    check_timers(first, second)?;
    check_openings(second)
}

/// The joined song.
///
/// # Errors
///
/// Out of memory.
#[tactic(auto, unfolding(crate::specs::Joined::joined))]
fn joined(alloc: Global, first: &Song, second: &Song) -> Result<Song, NoMemory>
    requires within { AreWithin first.now second.now }
    requires playable { IsPlayable second.now }
    ensures { IfOk result (λ song. song ≡ joined first.now second.now) }
{
    Ok(Song {
        name: first.name,
        author: first.author,
        copyright: first.copyright,
        subtunes: joined_subtunes(alloc, first, second)?,
        instruments: joined_instruments(alloc, first, second)?,
        wave: joined_table(alloc, first, second, TableName::Wave)?,
        pulse: joined_table(alloc, first, second, TableName::Pulse)?,
        filter: joined_table(alloc, first, second, TableName::Filter)?,
        speed: joined_table(alloc, first, second, TableName::Speed)?,
        patterns: joined_patterns(alloc, first, second)?,
    })
}

/// Two songs in one: the first song, and behind it what the second one has, under new numbers, with its subtunes that can
/// be played alone. The texts are the first song's. Both songs can be played. Linear in both.
///
/// # Errors
///
/// The first reason by which they can't be joined, in the order of [`JoinFault`]'s variants, each at its least place; out
/// of memory.
#[tactic(auto, using(crate::proofs::OneRefusal::one_reason, crate::proofs::OneRefusal::none_refused))]
pub fn join(alloc: Global, first: &Song, second: &Song) -> Result<Song, JoinFault>
    requires first_plays { IsPlayable first.now }
    requires second_plays { IsPlayable second.now }
    ensures joined { IfOk result (λ song. song ≡ joined first.now second.now) }
    ensures whole { IfOk result (λ song. KeepsLimits first.now → KeepsLimits second.now →
        IsWholeJoin song first.now second.now) }
    ensures can_be_joined { OnOk result (CanBeJoined first.now second.now) }
    ensures refused { (fault : Refusal) → IsRefusedFor first.now second.now fault →
        IsErrOf result fault }
    ensures no_other { IfErr result (λ fault. IsRefusedFor first.now second.now fault ⊎ (fault ≡
        JoinFault.NoMemory)) }
{
    check(first, second)?;
    match joined(alloc, first, second) {
        Ok(song) => Ok(song),
        Err(NoMemory) => Err(JoinFault::NoMemory),
    }
}
