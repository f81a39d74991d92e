//! The check of numbers.

ghost use Rattle.std.specs.Prelude.{◌≡◌, ◌+◌, ◌<◌, ◌≤◌, ◌^◌, true, length};
ghost use Rattle.std.specs.Option.{option_copied, option_map};
ghost use Rattle.scopes.specs.Trees.{opened, led, tree_of};
ghost use Rattle.scope_lines.specs.Readings.{first_of, are_open, is_block};
ghost use Rattle.scope_calls.specs.Written.{is_voice};
ghost use Rattle.cycle_bound.specs.Rules.{entry, behind_first, nodes, asked, nowhere};
ghost use Rattle.cycle_bound.specs.EntranceRules.{voice_most, voice_asked, call_asked};
ghost use Rattle.cycle_bound.specs.Faults.{IsChecked, voice_nodes, call_nodes};
ghost use Rattle.cycle_bound.specs.Lines.{ends_of, kept_setting};
ghost use Rattle.cycle_bound.specs.Private.{line_tree, has_number, short_from};

use crate::lines::{CALLING, Ends, Kept, chosen, count, extent, line_asked, loop_asked};
use scope_lines::Line;

/// What is wrong with numbers.
#[derive(Clone, Copy, Debug, PartialEq, Eq)]
pub enum CertKind {
    /// They aren't as many as they must be.
    BadShape,
    /// One is less than its rule asks.
    TooSmall,
}

/// A fault of numbers.
#[derive(Clone, Copy, Debug, PartialEq, Eq)]
pub struct CertFault {
    /// The place of the first number that is missing, too much or too small, counted from 0.
    pub place: usize,
    /// What is wrong there.
    pub kind: CertKind,
}

/// The first of these numbers, or what follows where there is none.
fn first_number(numbers: &[u64], follows: u64) -> u64
    ensures { result ≡ entry numbers.now follows }
{
    match numbers.first() {
        Some(number) => *number,
        None => follows,
    }
}

/// Those behind the first.
fn behind_first(numbers: &[u64]) -> &[u64]
    ensures { result.now ≡ behind_first numbers.now }
{
    match numbers.split_first() {
        Some((_, behind)) => behind,
        None => numbers,
    }
}

/// What a line's number must reach, where these are its own and those of the lines in it.
fn own_asked(
    line: &Line,
    rest: &[Line],
    kept: Kept,
    ends: &Ends<'_>,
    next: u64,
    numbers: &[u64],
) -> u128
    requires is_open { are_open (led line.now (opened rest.now)) ≡ true }
    requires number { has_number line.now ≡ true }
    requires as_many { length numbers.now ≡ nodes (line_tree line.now rest.now) }
    ensures { result ≡ entry (asked (kept_setting kept) (ends_of ends.now) next
        (line_tree line.now rest.now) numbers.now) 0 }
{
    let inner = behind_first(numbers);
    match *line {
        Line::Scope(_) => u128::from(first_number(inner, next)),
        Line::Loop(times) => loop_asked(times, rest, kept, &*ends, next, first_number(inner, 0)),
        Line::When(condition) => {
            let number = first_number(inner, next);
            u128::from(chosen(kept.conditions.hold(condition), number, next))
        }
        Line::Choose(condition) => {
            let (this, other) = inner.split_at(count(rest).0);
            let (this, other) = (first_number(this, next), first_number(other, next));
            u128::from(chosen(kept.conditions.hold(condition), this, other))
        }
        _ => line_asked(line, &*ends, next),
    }
}

/// The first place, counted from `place` on, at which the numbers of the lines in a line don't reach what is asked.
#[cycle(short)]
fn inner_short(
    line: &Line,
    rest: &[Line],
    kept: Kept,
    ends: &Ends<'_>,
    next: u64,
    numbers: &[u64],
    place: usize,
) -> Option<usize>
    requires is_open { are_open (led line.now (opened rest.now)) ≡ true }
    requires number { has_number line.now ≡ true }
    requires as_many { length numbers.now ≡ nodes (line_tree line.now rest.now) }
    requires room { place + length (behind_first numbers.now) < 2 ^ 64 }
    ensures { result ≡ short_from place (behind_first (asked (kept_setting kept) (ends_of ends.now) next
        (line_tree line.now rest.now) numbers.now)) (behind_first numbers.now) }
{
    let inner = behind_first(numbers);
    match *line {
        Line::Scope(name) => {
            let inside = Ends::Inside(name, next, &*ends);
            first_short(rest, kept, &inside, next, inner, place)
        }
        Line::Loop(_) => first_short(rest, kept, &Ends::Nowhere, 0, inner, place),
        Line::When(_) => first_short(rest, kept, &*ends, next, inner, place),
        Line::Choose(_) => {
            let (count, or) = count(rest);
            let (this, other) = inner.split_at(count);
            let short = first_short(rest, kept, &*ends, next, this, place);
            short.or(first_short(or, kept, &*ends, next, other, place + count))
        }
        _ => None,
    }
}

/// The first place, counted from `place` on, at which the numbers of a line and of those in it don't reach what is asked.
#[cycle(short)]
fn line_short(
    line: &Line,
    rest: &[Line],
    kept: Kept,
    ends: &Ends<'_>,
    next: u64,
    numbers: &[u64],
    place: usize,
) -> Option<usize>
    requires is_open { are_open (led line.now (opened rest.now)) ≡ true }
    requires number { has_number line.now ≡ true }
    requires as_many { length numbers.now ≡ nodes (line_tree line.now rest.now) }
    requires room { place + length numbers.now < 2 ^ 64 }
    ensures { result ≡ short_from place (asked (kept_setting kept) (ends_of ends.now) next
        (line_tree line.now rest.now) numbers.now) numbers.now }
{
    let number = numbers.first()?;
    if u128::from(*number) < own_asked(line, rest, kept, &*ends, next, numbers) {
        return Some(place);
    }
    inner_short(line, rest, kept, &*ends, next, numbers, place + 1)
}

/// The first place, counted from `place` on, at which the numbers of the lines up to the end of what is open don't reach what
/// is asked.
#[cycle(short)]
fn first_short(
    lines: &[Line],
    kept: Kept,
    ends: &Ends<'_>,
    follows: u64,
    numbers: &[u64],
    place: usize,
) -> Option<usize>
    requires is_open { are_open (opened lines.now) ≡ true }
    requires as_many { length numbers.now ≡ nodes (first_of (opened lines.now)) }
    requires room { place + length numbers.now < 2 ^ 64 }
    ensures { result ≡ short_from place (asked (kept_setting kept) (ends_of ends.now) follows
        (first_of (opened lines.now)) numbers.now) numbers.now }
{
    let mut left = lines;
    let mut left_numbers = numbers;
    let mut at = place;
    while let Some((line, rest)) = left.split_first() {
        if let Line::End | Line::Or = line {
            return None;
        }
        let (count, behind) = extent(line, rest);
        let (own, others) = left_numbers.split_at(count);
        let next = first_number(others, follows);
        if let Some(short) = line_short(line, rest, kept, &*ends, next, own, at) {
            return Some(short);
        }
        left = behind;
        left_numbers = others;
        at += count;
    }
    None
}

/// How many numbers a block's lines have.
fn block_count(lines: &[Line]) -> usize
    requires block { is_block lines.now ≡ true }
    ensures count { result ≡ nodes (tree_of lines.now) }
    ensures few { result ≤ length lines.now }
{
    count(lines).0
}

/// The first place, counted from `place` on, at which a block's numbers don't reach what is asked.
fn block_short(lines: &[Line], kept: Kept, numbers: &[u64], place: usize) -> Option<usize>
    requires block { is_block lines.now ≡ true }
    requires as_many { length numbers.now ≡ nodes (tree_of lines.now) }
    requires room { place + length numbers.now < 2 ^ 64 }
    ensures { result ≡ short_from place (asked (kept_setting kept) nowhere 0 (tree_of lines.now) numbers.now) numbers.now }
{
    first_short(lines, kept, &Ends::Nowhere, 0, numbers, place)
}

/// What the voices' block takes for all voices, with the code that calls it, by its numbers; 0 where there is none.
fn voices_most(voice: Option<&[Line]>, numbers: &[u64]) -> u128
    ensures most { result ≡ voice_most (option_map tree_of (option_copied voice.entry)) numbers.now }
    ensures few { result < 2 ^ 70 }
{
    match voice {
        None => 0,
        Some(_) => 3 * u128::from(first_number(numbers, 0)) + CALLING,
    }
}

/// How many numbers the voices' block has; 0 where there is none.
fn voices_count(voice: Option<&[Line]>) -> usize
    requires voice { is_voice (option_copied voice) ≡ true }
    ensures count { result ≡ voice_nodes (option_map tree_of (option_copied voice.entry)) }
    ensures few { result < 2 ^ 63 }
{
    match voice {
        None => 0,
        Some(block) => block_count(block),
    }
}

/// The first place, counted from `place` on, at which its numbers don't reach what is asked.
fn voices_short(voice: Option<&[Line]>, kept: Kept, numbers: &[u64], place: usize) -> Option<usize>
    requires voice { is_voice (option_copied voice) ≡ true }
    requires as_many { length numbers.now ≡ voice_nodes (option_map tree_of (option_copied voice)) }
    requires room { place + length numbers.now < 2 ^ 64 }
    ensures { result ≡ short_from place
        (voice_asked (kept_setting kept) (option_map tree_of (option_copied voice.entry)) numbers.now) numbers.now }
{
    match voice {
        None => None,
        Some(block) => block_short(block, kept, numbers, place),
    }
}

/// The first place at which the numbers of a call don't reach what is asked.
fn call_short(first: &[Line], voice: Option<&[Line]>, kept: Kept, numbers: &[u64]) -> Option<usize>
    requires first { is_block first.now ≡ true }
    requires voice { is_voice (option_copied voice) ≡ true }
    requires as_many { length numbers.now ≡ call_nodes (tree_of first.now) (option_map tree_of (option_copied voice)) }
    ensures { result ≡ short_from 0
        (call_asked (kept_setting kept) (tree_of first.now) (option_map tree_of (option_copied voice.entry)) numbers.now)
        numbers.now }
{
    let (number, inner) = numbers.split_first()?;
    let once = block_count(first);
    let (firsts, voices) = inner.split_at(once);
    if u128::from(*number) < u128::from(first_number(firsts, 0)) + voices_most(voice, voices) {
        return Some(0);
    }
    if let Some(short) = block_short(first, kept, firsts, 1) {
        return Some(short);
    }
    voices_short(voice, kept, voices, 1 + once)
}

/// How many numbers a call has: its own, and those of the lines of its blocks.
pub fn call_count(first: &[Line], voice: Option<&[Line]>) -> usize
    requires first { is_block first.now ≡ true }
    requires voice { is_voice (option_copied voice) ≡ true }
    ensures { result ≡ call_nodes (tree_of first.now) (option_map tree_of (option_copied voice.entry)) }
{
    1 + (block_count(first) + voices_count(voice))
}

/// The first of a call's numbers, where the rules admit them: of a block that is done once, and of one that is done for each
/// voice, if there is one.
///
/// # Errors
///
/// They aren't as many as they must be, or else one is too small: with the first place where that is so.
pub fn check(
    first: &[Line],
    voice: Option<&[Line]>,
    kept: Kept,
    numbers: &[u64],
) -> Result<u64, CertFault>
    requires first { is_block first.now ≡ true }
    requires voice { is_voice (option_copied voice) ≡ true }
    ensures { IsChecked (kept_setting kept) (tree_of first.now) (option_map tree_of (option_copied voice.entry)) numbers.now
        result }
{
    let count = call_count(first, voice);
    if numbers.len() != count {
        let kind = CertKind::BadShape;
        let place = if numbers.len() < count {
            numbers.len()
        } else {
            count
        };
        return Err(CertFault { place, kind });
    }
    if let Some(place) = call_short(first, voice, kept, numbers) {
        let kind = CertKind::TooSmall;
        return Err(CertFault { place, kind });
    }
    Ok(first_number(numbers, 0))
}
