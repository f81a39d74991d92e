//! The lines of a block.

ghost use Rattle.std.specs.Prelude.{◌≡◌, ◌+◌, ◌≤◌, ◌++◌, ◌*◌, true, length, OnOk, IfOk};
ghost use Rattle.cpu6502.specs.Opcodes.{length_of};
ghost use Rattle.scopes.specs.Trees.{opened, tree_of};
ghost use Rattle.scope_lines.specs.Sizes.{size};
ghost use Rattle.scope_lines.specs.Lines.{lines, block_lines};
ghost use Rattle.scope_lines.specs.Ends.{around_of};
ghost use Rattle.scope_lines.specs.Readings.{first_of, behind_of, are_open, holds_in, is_block};

use crate::instructions::{alone, branch_backwards, branch_forwards, jump, own_size, with};
use asm6502::Listing;
use base::NoMemory;
use scopes::Line;
use std::alloc::Global;

/// A set of conditions: bit n is that of condition n, 0 to 127.
#[derive(Clone, Copy, Debug, PartialEq, Eq)]
pub struct Conditions(pub u128);

impl Conditions {
    ghost use Rattle.std.specs.Prelude.{◌≡◌};
    ghost use Rattle.scope_lines.specs.Readings.{holds_in};

    /// Whether a condition is among them.
    pub fn hold(self, condition: u8) -> bool
        ensures { result ≡ holds_in self.0 condition }
    {
        condition < 128 && (self.0 >> u32::from(condition)) & 1 == 1
    }
}

/// The bytes of the lines up to the end of what is open, of which those are kept whose conditions hold, and the lines
/// behind it.
pub fn measure<'a>(lines: &'a [Line], conditions: Conditions) -> (u16, &'a [Line])
    requires is_open { are_open (opened lines.now) ≡ true }
    requires room { length lines.now ≤ 21800 }
    ensures size { result.0 ≡ size (holds_in conditions.0) (first_of (opened lines.now)) }
    ensures behind { opened result.1.now ≡ behind_of (opened lines.now) }
    ensures shorter { length result.1.now ≤ length lines.now }
    ensures most { result.0 + 3 * length result.1.now ≤ 3 * length lines.now }
{
    let mut left = lines;
    let mut size = 0;
    while let Some((line, rest)) = left.split_first() {
        match *line {
            Line::End | Line::Or => return (size, rest),
            Line::Scope(_) | Line::Loop(_) => {
                let (inner, behind) = measure(rest, conditions);
                size += inner;
                left = behind;
            }
            Line::When(condition) => {
                let (inner, behind) = measure(rest, conditions);
                if conditions.hold(condition) {
                    size += inner;
                }
                left = behind;
            }
            Line::Choose(condition) => {
                let (this, or) = measure(rest, conditions);
                let (other, behind) = measure(or, conditions);
                size += if conditions.hold(condition) {
                    this
                } else {
                    other
                };
                left = behind;
            }
            _ => {
                size += own_size(line);
                left = rest;
            }
        }
    }
    (size, left)
}

/// The scopes around lines, the innermost first: their names, and how many bytes behind the block's label they end.
#[derive(Clone, Copy)]
enum Scopes<'a> {
    /// None.
    Outside,
    /// A scope, and those around it.
    Inside(u8, u16, &'a Scopes<'a>),
}

impl Scopes<'_> {
    ghost use Rattle.std.specs.Prelude.{◌≡◌};
    ghost use Rattle.scope_lines.specs.Ends.{ends_of};

    /// Where the innermost scope with a name ends; 0 where there is none.
    fn end(&self, name: u8) -> u16
        ensures { result ≡ ends_of self.now name }
    {
        match self {
            Scopes::Outside => 0,
            Scopes::Inside(other, end, outer) => {
                if name == *other {
                    *end
                } else {
                    outer.end(name)
                }
            }
        }
    }
}

/// What all lines of a block are lowered with.
#[derive(Clone, Copy)]
pub struct Place {
    /// The label from which the block's places are counted.
    pub label: u16,
    /// How many bytes behind it the block begins.
    pub first: u16,
    /// The place of the pointer's low byte in page 0, 0 to 254.
    pub pointer: u8,
    /// The conditions that hold.
    pub conditions: Conditions,
}

/// Lines that have been lowered, and how many bytes behind the block's label the next one stands.
#[derive(Drop)]
struct Lowered {
    lines: Listing,
    place: u16,
}

impl Lowered {
    ghost use Rattle.std.specs.Prelude.{◌≡◌, ◌+◌, ◌*◌, ◌≤◌, ◌++◌, true, length, OnOk, IfOk};
    ghost use Rattle.scopes.specs.Trees.{opened};
    ghost use Rattle.scope_lines.specs.Sizes.{size, own_size};
    ghost use Rattle.scope_lines.specs.Lines.{lines};
    ghost use Rattle.scope_lines.specs.Ends.{around_of};
    ghost use Rattle.scope_lines.specs.Readings.{first_of, behind_of, are_open, holds_in, simple, is_simple};

    /// Appends a line that opens nothing.
    fn push(
        &mut self,
        line: &Line,
        around: Place,
        scopes: &Scopes<'_>,
        head: u16,
    ) -> Result<(), NoMemory>
        requires is_simple { is_simple line.now ≡ true }
        requires room { self.old.place + 3 ≤ 65535 }
        requires head { head + 254 ≤ 65535 }
        ensures lines { OnOk result (self.new.lines
            ≡ self.old.lines ++ lines (around_of around scopes.now head) self.old.place (simple line.now)) }
        ensures place { OnOk result (self.new.place ≡ self.old.place + own_size line.now) }
    {
        let place = self.place;
        self.place += own_size(line);
        match *line {
            Line::Do(mnemonic) => self.lines.push(alone(mnemonic)),
            Line::With(mnemonic, operand) => self
                .lines
                .push(with(mnemonic, operand, around.pointer)),
            Line::Leave(name) => self.lines.push(jump(around.label, scopes.end(name))),
            Line::LeaveIf(name, test) => self
                .lines
                .push(branch_forwards(test, place, scopes.end(name))),
            Line::Again => self.lines.push(jump(around.label, head)),
            Line::AgainIf(test) => self.lines.push(branch_backwards(test, place, head)),
            _ => Ok(()),
        }
    }

    /// Lowers the lines up to the end of what is open, and answers those behind it.
    fn body<'a>(
        &mut self,
        text: &'a [Line],
        around: Place,
        scopes: &Scopes<'_>,
        head: u16,
    ) -> Result<&'a [Line], NoMemory>
        requires is_open { are_open (opened text.now) ≡ true }
        requires room { self.old.place + 3 * length text.now ≤ 65000 }
        requires head { head ≤ 65000 }
        ensures lines { OnOk result (self.new.lines
            ≡ self.old.lines ++ lines (around_of around scopes.now head) self.old.place (first_of (opened text.now))) }
        ensures place { OnOk result (self.new.place
            ≡ self.old.place + size (holds_in around.conditions.0) (first_of (opened text.now))) }
        ensures behind { IfOk result (λ behind. opened behind.now ≡ behind_of (opened text.now)) }
        ensures shorter { IfOk result (λ behind. length behind.now ≤ length text.now) }
        ensures most { IfOk result (λ behind. self.new.place + 3 * length behind.now
            ≤ self.old.place + 3 * length text.now) }
    {
        let mut left = text;
        while let Some((line, rest)) = left.split_first() {
            match *line {
                Line::End | Line::Or => return Ok(rest),
                Line::Scope(name) => {
                    let end = self.place + measure(rest, around.conditions).0;
                    let inside = Scopes::Inside(name, end, &*scopes);
                    left = self.body(rest, around, &inside, head)?;
                }
                Line::Loop(_) => {
                    let here = self.place;
                    left = self.body(rest, around, &*scopes, here)?;
                }
                Line::When(condition) => {
                    left = if around.conditions.hold(condition) {
                        self.body(rest, around, &*scopes, head)?
                    } else {
                        measure(rest, around.conditions).1
                    };
                }
                Line::Choose(condition) => {
                    left = if around.conditions.hold(condition) {
                        let or = self.body(rest, around, &*scopes, head)?;
                        measure(or, around.conditions).1
                    } else {
                        let or = measure(rest, around.conditions).1;
                        self.body(or, around, &*scopes, head)?
                    };
                }
                _ => {
                    self.push(line, around, &*scopes, head)?;
                    left = rest;
                }
            }
        }
        Ok(left)
    }
}

/// The bytes of a block's lines, of which those are kept whose conditions hold.
pub fn size_of(lines: &[Line], conditions: Conditions) -> u16
    requires block { is_block lines.now ≡ true }
    requires room { length lines.now ≤ 20000 }
    ensures size { result ≡ size (holds_in conditions.0) (tree_of lines.now) }
    ensures most { result ≤ 3 * length lines.now }
{
    measure(lines, conditions).0
}

/// The lines of the assembler for those of a block, of which those are kept whose conditions hold.
///
/// # Errors
///
/// Out of memory.
pub fn lower(alloc: Global, lines: &[Line], around: Place) -> Result<Listing, NoMemory>
    requires block { is_block lines.now ≡ true }
    requires room { around.first + 3 * length lines.now ≤ 65000 }
    ensures { IfOk result (λ listing. listing ≡ block_lines around.label around.pointer
        (holds_in around.conditions.0) around.first (tree_of lines.now)) }
{
    let mut lowered = Lowered {
        lines: Listing::new(alloc),
        place: around.first,
    };
    lowered.body(lines, around, &Scopes::Outside, 0)?;
    Ok(lowered.lines)
}
