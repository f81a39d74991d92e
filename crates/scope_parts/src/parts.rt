//! The parts of a block's bytes.

ghost use Rattle.std.specs.Prelude.{◌≡◌, ◌≤◌, ◌++◌, true, length, replicate, OnOk, IfOk};
ghost use Rattle.scopes.specs.Trees.{opened, tree_of};
ghost use Rattle.scope_lines.specs.Readings.{first_of, behind_of, are_open, holds_in, is_block};
ghost use Rattle.scope_parts.specs.Parts.{parts};

use base::{ByteList, NoMemory};
use scope_lines::{Conditions, Line, measure, own_size};

/// Appends bytes of one part.
fn push_bytes(list: &mut ByteList, part: u8, count: u16) -> Result<(), NoMemory>
    ensures { OnOk result (list.new ≡ list.old ++ replicate count part) }
{
    for _ in 0..count {
        list.push(part)?;
    }
    Ok(())
}

/// Appends the parts of the lines up to the end of what is open, and answers the lines behind it.
fn push_open<'a>(
    list: &mut ByteList,
    lines: &'a [Line],
    conditions: Conditions,
    around: u8,
) -> Result<&'a [Line], NoMemory>
    requires is_open { are_open (opened lines.now) ≡ true }
    requires room { length lines.now ≤ 20000 }
    ensures parts { OnOk result (list.new
        ≡ list.old ++ parts (holds_in conditions.0) around (first_of (opened lines.now))) }
    ensures behind { IfOk result (λ behind. opened behind.now ≡ behind_of (opened lines.now)) }
    ensures shorter { IfOk result (λ behind. length behind.now ≤ length lines.now) }
{
    let mut left = lines;
    while let Some((line, rest)) = left.split_first() {
        match *line {
            Line::End | Line::Or => return Ok(rest),
            Line::Scope(_) | Line::Loop(_) => {
                left = push_open(list, rest, conditions, around)?;
            }
            Line::When(condition) => {
                left = if conditions.hold(condition) {
                    push_open(list, rest, conditions, condition)?
                } else {
                    measure(rest, conditions).1
                };
            }
            Line::Choose(condition) => {
                left = if conditions.hold(condition) {
                    let or = push_open(list, rest, conditions, condition)?;
                    measure(or, conditions).1
                } else {
                    let or = measure(rest, conditions).1;
                    push_open(list, or, conditions, around)?
                };
            }
            _ => {
                push_bytes(list, around, own_size(line))?;
                left = rest;
            }
        }
    }
    Ok(left)
}

/// Appends the part of each byte of a block's lines, of which those are kept whose conditions hold: a condition, 0 to
/// 127, or the part in which the block stands.
///
/// # Errors
///
/// Out of memory; the list may have a beginning of them then.
pub fn push_parts(
    list: &mut ByteList,
    lines: &[Line],
    conditions: Conditions,
    around: u8,
) -> Result<(), NoMemory>
    requires block { is_block lines.now ≡ true }
    requires room { length lines.now ≤ 20000 }
    ensures { OnOk result (list.new ≡ list.old ++ parts (holds_in conditions.0) around (tree_of lines.now)) }
{
    push_open(list, lines, conditions, around)?;
    Ok(())
}
