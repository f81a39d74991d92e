//! The least numbers that the rules admit.

ghost use Rattle.std.specs.Prelude.{◌≡◌, ◌<◌, ◌^◌, ◌++◌, true, reverse, OnOk, IfOk};
ghost use Rattle.std.specs.Option.{option_copied, option_map};
ghost use Rattle.scopes.specs.Trees.{opened, led, tree_of};
ghost use Rattle.scope_lines.specs.Readings.{first_of, are_open, is_block};
ghost use Rattle.scope_calls.specs.Written.{is_voice};
ghost use Rattle.cycle_bound.specs.Rules.{entry, behind_first};
ghost use Rattle.cycle_bound.specs.Least.{least, least_of, least_voice, least_all, Fit};
ghost use Rattle.cycle_bound.specs.EntranceRules.{voice_most};
ghost use Rattle.cycle_bound.specs.Lines.{ends_of, kept_setting};
ghost use Rattle.cycle_bound.specs.Private.{line_tree, has_number};

use crate::lines::{CALLING, Ends, Kept, chosen, count, extent, line_asked, loop_asked};
use base::{Items, NoMemory};
use scope_lines::Line;
use std::alloc::Global;

/// Numbers of lines, in order.
pub type Numbers = Items<u64>;

/// Pushes the least numbers of the lines in a line, the last one first, and answers the line's own.
#[cycle(least)]
fn push_inner(
    numbers: &mut Numbers,
    line: &Line,
    rest: &[Line],
    kept: Kept,
    ends: &Ends<'_>,
    next: u64,
) -> Result<u64, NoMemory>
    requires is_open { are_open (led line.now (opened rest.now)) ≡ true }
    requires number { has_number line.now ≡ true }
    requires fit { Fit (least (kept_setting kept) (ends_of ends.now) next (line_tree line.now rest.now)) }
    ensures numbers { OnOk result (numbers.new ≡ numbers.old ++ reverse
        (behind_first (least (kept_setting kept) (ends_of ends.now) next (line_tree line.now rest.now)))) }
    ensures own { IfOk result (λ number.
        number ≡ entry (least (kept_setting kept) (ends_of ends.now) next (line_tree line.now rest.now)) 0) }
{
    match *line {
        Line::Scope(name) => {
            let inside = Ends::Inside(name, next, &*ends);
            push_least(&mut *numbers, rest, kept, &inside, next)
        }
        Line::Loop(times) => {
            let turn = push_least(&mut *numbers, rest, kept, &Ends::Nowhere, 0)?;
            Ok(loop_asked(times, rest, kept, &*ends, next, turn) as u64)
        }
        Line::When(condition) => {
            let inner = push_least(&mut *numbers, rest, kept, &*ends, next)?;
            Ok(chosen(kept.conditions.hold(condition), inner, next))
        }
        Line::Choose(condition) => {
            let other = push_least(&mut *numbers, count(rest).1, kept, &*ends, next)?;
            let this = push_least(&mut *numbers, rest, kept, &*ends, next)?;
            Ok(chosen(kept.conditions.hold(condition), this, other))
        }
        _ => Ok(line_asked(line, &*ends, next) as u64),
    }
}

/// Pushes the least numbers of the lines up to the end of what is open, the last one first. It answers the first of them, or
/// what follows where there is none.
#[cycle(least)]
fn push_least(
    numbers: &mut Numbers,
    lines: &[Line],
    kept: Kept,
    ends: &Ends<'_>,
    follows: u64,
) -> Result<u64, NoMemory>
    requires is_open { are_open (opened lines.now) ≡ true }
    requires fit { Fit (least (kept_setting kept) (ends_of ends.now) follows (first_of (opened lines.now))) }
    ensures numbers { OnOk result (numbers.new
        ≡ numbers.old ++ reverse (least (kept_setting kept) (ends_of ends.now) follows (first_of (opened lines.now)))) }
    ensures first { IfOk result (λ number. number
        ≡ entry (least (kept_setting kept) (ends_of ends.now) follows (first_of (opened lines.now))) follows) }
{
    match lines.split_first() {
        None | Some((Line::End | Line::Or, _)) => Ok(follows),
        Some((line, rest)) => {
            let behind = extent(line, rest).1;
            let next = push_least(&mut *numbers, behind, kept, &*ends, follows)?;
            let number = push_inner(&mut *numbers, line, rest, kept, &*ends, next)?;
            numbers.push(number)?;
            Ok(number)
        }
    }
}

/// Pushes the least numbers of a block, the last one first, and answers the first of them.
fn push_block(numbers: &mut Numbers, lines: &[Line], kept: Kept) -> Result<u64, NoMemory>
    requires block { is_block lines.now ≡ true }
    requires fit { Fit (least_of (kept_setting kept) (tree_of lines.now)) }
    ensures numbers { OnOk result (numbers.new
        ≡ numbers.old ++ reverse (least_of (kept_setting kept) (tree_of lines.now))) }
    ensures first { IfOk result (λ number. number ≡ entry (least_of (kept_setting kept) (tree_of lines.now)) 0) }
{
    push_least(numbers, lines, kept, &Ends::Nowhere, 0)
}

/// Pushes those of the voices' block, if there is one, and answers what it takes for all voices, with the code that calls it.
fn push_voice(numbers: &mut Numbers, voice: Option<&[Line]>, kept: Kept) -> Result<u128, NoMemory>
    requires voice { is_voice (option_copied voice) ≡ true }
    requires fit { Fit (least_voice (kept_setting kept) (option_map tree_of (option_copied voice))) }
    ensures numbers { OnOk result (numbers.new
        ≡ numbers.old ++ reverse (least_voice (kept_setting kept) (option_map tree_of (option_copied voice.entry)))) }
    ensures most { IfOk result (λ most. most ≡ voice_most (option_map tree_of (option_copied voice.entry))
        (least_voice (kept_setting kept) (option_map tree_of (option_copied voice.entry)))) }
    ensures few { IfOk result (λ most. most < 2 ^ 70) }
{
    match voice {
        None => Ok(0),
        Some(block) => {
            let turn = push_block(numbers, block, kept)?;
            Ok(3 * u128::from(turn) + CALLING)
        }
    }
}

/// The least numbers that the rules admit: of a block that is done once, and of one that is done for each voice, if there is
/// one. The first number is that of a call.
///
/// # Errors
///
/// Out of memory.
pub fn make(
    alloc: Global,
    first: &[Line],
    voice: Option<&[Line]>,
    kept: Kept,
) -> Result<Numbers, NoMemory>
    requires first { is_block first.now ≡ true }
    requires voice { is_voice (option_copied voice) ≡ true }
    requires fit { Fit (least_all (kept_setting kept) (tree_of first.now) (option_map tree_of (option_copied voice))) }
    ensures { IfOk result (λ numbers. numbers
        ≡ least_all (kept_setting kept) (tree_of first.now) (option_map tree_of (option_copied voice.entry))) }
{
    let mut numbers = Numbers::new(alloc);
    let voices = push_voice(&mut numbers, voice, kept)?;
    let once = push_block(&mut numbers, first, kept)?;
    numbers.push((u128::from(once) + voices) as u64)?;
    let mut numbers = numbers.take();
    numbers.reverse();
    Ok(Numbers::from_vec(numbers))
}
