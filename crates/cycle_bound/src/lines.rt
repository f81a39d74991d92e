//! What the rules ask of single lines, and how lines are counted.

ghost use Rattle.std.specs.Prelude.{◌≡◌, ◌+◌, ◌*◌, ◌≤◌, true, length, max, if◌then◌else◌};
ghost use Rattle.scopes.specs.Trees.{opened, led};
ghost use Rattle.scopes.specs.Meaning.{turns_in};
ghost use Rattle.scope_lines.specs.Readings.{first_of, behind_of, are_open, holds_in, is_simple};
ghost use Rattle.cycle_bound.specs.Rules.{alone_most, with_most, nodes, furthest};
ghost use Rattle.cycle_bound.specs.Lines.{line_asked, ends_of, kept_setting};
ghost use Rattle.cycle_bound.specs.Private.{line_tree, behind_tree, has_number};

use cpu6502::{Mnemonic, cycles_of, is_paged, is_read};
use scope_lines::{Conditions, Line, alone_mode, mode_of};
use scopes::{OPEN, Operand};

/// What numbers rest on: the lines of which conditions are kept, and how many turns an open loop has.
#[derive(Clone, Copy)]
pub struct Kept {
    /// The conditions.
    pub conditions: Conditions,
    /// The turns.
    pub open_turns: u8,
}

/// The cycles of a jump.
const JUMP: u128 = 3;
/// Those of a branch that is passed.
const PASSED: u128 = 2;
/// Those of a branch that is taken, into another page.
const TAKEN: u128 = 4;

/// Those of the code that calls the voices' block: three loads of X, two calls, and two returns.
pub const CALLING: u128 = 3 * 2 + 2 * 6 + 2 * 6;

/// The scopes around lines, the innermost first: their names, and the numbers behind their ends.
#[derive(Clone, Copy)]
pub enum Ends<'a> {
    /// None.
    Nowhere,
    /// A scope, and those around it.
    Inside(u8, u64, &'a Ends<'a>),
}

impl Ends<'_> {
    ghost use Rattle.std.specs.Prelude.{◌≡◌};
    ghost use Rattle.cycle_bound.specs.Lines.{ends_of};

    /// The number behind the end of the innermost scope with a name; 0 where there is none.
    pub fn number(&self, name: u8) -> u64
        ensures { result ≡ ends_of self.now name }
    {
        match self {
            Ends::Nowhere => 0,
            Ends::Inside(other, number, outer) => {
                if name == *other {
                    *number
                } else {
                    outer.number(name)
                }
            }
        }
    }
}

/// What an instruction without an operand takes.
fn alone_most(mnemonic: Mnemonic) -> u128
    ensures most { result ≡ alone_most mnemonic }
    ensures few { result ≤ 7 }
{
    u128::from(cycles_of(mnemonic, alone_mode(mnemonic)))
}

/// What an instruction with its operand takes at most: a read may find it in another page than without its index.
fn with_most(mnemonic: Mnemonic, operand: Operand) -> u128
    ensures most { result ≡ with_most mnemonic operand }
    ensures few { result ≤ 8 }
{
    let mode = mode_of(operand);
    let crossed = u128::from(is_paged(mode) && is_read(mnemonic));
    u128::from(cycles_of(mnemonic, mode)) + crossed
}

/// The greater of two numbers.
pub fn greater(one: u128, other: u128) -> u128
    ensures { result ≡ max one other }
{
    if one < other { other } else { one }
}

/// The greater of two numbers of lines.
pub fn further(one: u64, other: u64) -> u64
    ensures { result ≡ max one other }
{
    if one < other { other } else { one }
}

/// What the number of a line that opens nothing must reach at least, in front of a line with this number.
pub fn line_asked(line: &Line, ends: &Ends<'_>, behind: u64) -> u128
    ensures { result ≡ line_asked (ends_of ends.now) behind line.now }
{
    let behind = u128::from(behind);
    match *line {
        Line::Do(mnemonic) => alone_most(mnemonic) + behind,
        Line::With(mnemonic, operand) => with_most(mnemonic, operand) + behind,
        Line::Leave(name) => JUMP + u128::from(ends.number(name)),
        Line::LeaveIf(name, _) => {
            greater(PASSED + behind, TAKEN + u128::from(ends.number(name)))
        }
        Line::Again => JUMP,
        Line::AgainIf(_) => greater(PASSED + behind, TAKEN),
        _ => 0,
    }
}

/// How many turns a loop with this count has, where an open one has so many.
pub fn turns(count: u8, open_turns: u8) -> u128
    ensures turns { result ≡ turns_in open_turns count }
    ensures few { result ≤ 255 }
{
    u128::from(if count == OPEN { open_turns } else { count })
}

/// The first of two numbers, where it is kept, and else the other.
pub fn chosen(is_kept: bool, this: u64, other: u64) -> u64
    ensures { result ≡ (if is_kept then this else other) }
{
    if is_kept { this } else { other }
}

/// How many numbers a line and those in it have, and the lines behind.
#[cycle(count)]
pub fn extent<'a>(line: &Line, rest: &'a [Line]) -> (usize, &'a [Line])
    requires is_open { are_open (led line.now (opened rest.now)) ≡ true }
    requires number { has_number line.now ≡ true }
    ensures count { result.0 ≡ nodes (line_tree line.now rest.now) }
    ensures rest { first_of (opened result.1.now) ≡ behind_tree line.now rest.now }
    ensures behind { behind_of (opened result.1.now) ≡ behind_of (led line.now (opened rest.now)) }
    ensures is_open { are_open (opened result.1.now) ≡ true }
    ensures few { result.0 + length result.1.now ≤ 1 + length rest.now }
{
    match *line {
        Line::Scope(_) | Line::Loop(_) | Line::When(_) => {
            let (inner, behind) = count(rest);
            (1 + inner, behind)
        }
        Line::Choose(_) => {
            let (this, or) = count(rest);
            let (other, behind) = count(or);
            (1 + (this + other), behind)
        }
        _ => (1, rest),
    }
}

/// How many lines have a number up to the end of what is open, and the lines behind it.
#[cycle(count)]
pub fn count<'a>(lines: &'a [Line]) -> (usize, &'a [Line])
    requires is_open { are_open (opened lines.now) ≡ true }
    ensures count { result.0 ≡ nodes (first_of (opened lines.now)) }
    ensures behind { opened result.1.now ≡ behind_of (opened lines.now) }
    ensures few { result.0 + length result.1.now ≤ length lines.now }
{
    let mut left = lines;
    let mut sum = 0;
    while let Some((line, rest)) = left.split_first() {
        if let Line::End | Line::Or = line {
            return (sum, rest);
        }
        let (own, behind) = extent(line, rest);
        sum += own;
        left = behind;
    }
    (sum, left)
}

/// The greatest number at the end of a scope around that a line leaves, or a kept one in it, and the lines behind.
#[cycle(furthest)]
fn line_furthest<'a>(
    line: &Line,
    rest: &'a [Line],
    conditions: Conditions,
    ends: &Ends<'_>,
) -> (u64, &'a [Line])
    requires is_open { are_open (led line.now (opened rest.now)) ≡ true }
    requires number { has_number line.now ≡ true }
    ensures number { result.0
        ≡ furthest (holds_in conditions.0) (ends_of ends.now) (line_tree line.now rest.now) }
    ensures rest { first_of (opened result.1.now) ≡ behind_tree line.now rest.now }
    ensures behind { behind_of (opened result.1.now) ≡ behind_of (led line.now (opened rest.now)) }
    ensures is_open { are_open (opened result.1.now) ≡ true }
    ensures shorter { length result.1.now ≤ length rest.now }
{
    match *line {
        Line::Scope(name) => furthest(rest, conditions, &Ends::Inside(name, 0, &*ends)),
        Line::Loop(_) => furthest(rest, conditions, &*ends),
        Line::When(condition) => {
            let (inner, behind) = furthest(rest, conditions, &*ends);
            (chosen(conditions.hold(condition), inner, 0), behind)
        }
        Line::Choose(condition) => {
            let (this, or) = furthest(rest, conditions, &*ends);
            let (other, behind) = furthest(or, conditions, &*ends);
            (chosen(conditions.hold(condition), this, other), behind)
        }
        Line::Leave(name) | Line::LeaveIf(name, _) => (ends.number(name), rest),
        _ => (0, rest),
    }
}

/// The greatest number at the end of a scope around that kept lines leave, of the lines up to the end of what is open,
/// and the lines behind it.
#[cycle(furthest)]
pub fn furthest<'a>(lines: &'a [Line], conditions: Conditions, ends: &Ends<'_>) -> (u64, &'a [Line])
    requires is_open { are_open (opened lines.now) ≡ true }
    ensures number { result.0 ≡ furthest (holds_in conditions.0) (ends_of ends.now) (first_of (opened lines.now)) }
    ensures behind { opened result.1.now ≡ behind_of (opened lines.now) }
    ensures shorter { length result.1.now ≤ length lines.now }
{
    let mut left = lines;
    let mut far = 0;
    while let Some((line, rest)) = left.split_first() {
        if let Line::End | Line::Or = line {
            return (far, rest);
        }
        let (own, behind) = line_furthest(line, rest, conditions, &*ends);
        far = further(far, own);
        left = behind;
    }
    (far, left)
}

/// What the number of a loop must reach at least, in front of a line with this number, by that of a turn.
pub fn loop_asked(
    times: u8,
    inner: &[Line],
    kept: Kept,
    ends: &Ends<'_>,
    next: u64,
    turn: u64,
) -> u128
    requires is_open { are_open (opened inner.now) ≡ true }
    ensures { result ≡ turns_in kept.open_turns times * turn
        + max next (furthest (holds_in kept.conditions.0) (ends_of ends.now) (first_of (opened inner.now))) }
{
    let out = further(next, furthest(inner, kept.conditions, &*ends).0);
    turns(times, kept.open_turns) * u128::from(turn) + u128::from(out)
}
