//! Whether lines are a block: in good form, with instructions that a block may have, and with branches that reach.

ghost use Rattle.std.specs.Prelude.{◌≡◌, ◌+◌, ◌^◌, ◌<◌, ◌≤◌, ◌∷◌, true, false, length, IfSome};
ghost use Rattle.std.specs.Option.{option_map};
ghost use Rattle.scopes.specs.Trees.{opened};
ghost use Rattle.scopes.specs.Plain.{is_plain};
ghost use Rattle.scope_lines.specs.Instructions.{alone_mode, is_spelled};
ghost use Rattle.scope_lines.specs.Reach.{has_lines, is_operand, is_within};
ghost use Rattle.scope_lines.specs.Sizes.{most};
ghost use Rattle.scope_lines.specs.Readings.{first_of, behind_of, are_open, is_block, simple};
ghost use Rattle.block_cases.specs.Firsts.{first_tree, is_end};
ghost use Rattle.block_cases.specs.Reaches.{reach_of};

use crate::form::are_whole;
use crate::sizes::{extent, is_end, mode_of, most_of};
use cpu6502::{Mnemonic, Mode, opcode};
use scopes::{Line, Operand};

/// How far the ends of the scopes around lines are, from the end of the lines.
#[derive(Clone, Copy)]
enum Ends<'a> {
    /// There are none.
    Outside,
    /// So many bytes further than from behind what follows.
    Before(u16, &'a Ends<'a>),
    /// A scope that ends there, with its name, and those around it.
    Inside(u8, &'a Ends<'a>),
}

impl Ends<'_> {
    ghost use Rattle.std.specs.Prelude.{◌≡◌};
    ghost use Rattle.std.specs.Option.{is_some};
    ghost use Rattle.scope_lines.specs.Reach.{is_within};
    ghost use Rattle.block_cases.specs.Reaches.{end_of};

    /// Whether there is a scope with this name.
    fn has(&self, name: u8) -> bool
        ensures { result ≡ is_some (end_of self.now name) }
    {
        match self {
            Ends::Outside => false,
            Ends::Before(_, outer) => outer.has(name),
            Ends::Inside(other, outer) => name == *other || outer.has(name),
        }
    }

    /// Whether there is one whose end is at most so many bytes away.
    fn are_within(&self, bytes: u16, name: u8) -> bool
        ensures { result ≡ is_within bytes (end_of self.now name) }
    {
        match self {
            Ends::Outside => false,
            Ends::Before(more, outer) => *more <= bytes && outer.are_within(bytes - *more, name),
            Ends::Inside(other, outer) => name == *other || outer.are_within(bytes, name),
        }
    }
}

/// What is around lines: how far the ends of the scopes are, and how many bytes behind the beginning of the loop the
/// lines begin, if there is one.
#[derive(Clone, Copy)]
struct Around<'a> {
    ends: Ends<'a>,
    head: Option<u16>,
}

/// The addressing mode of an instruction without an operand.
fn alone_mode(mnemonic: Mnemonic) -> Mode
    ensures { result ≡ alone_mode mnemonic }
{
    match mnemonic {
        Mnemonic::Asl | Mnemonic::Lsr | Mnemonic::Rol | Mnemonic::Ror => Mode::Accumulator,
        _ => Mode::Implied,
    }
}

/// Whether an instruction works on bytes, A, X, Y and the flags alone.
fn is_plain(mnemonic: Mnemonic) -> bool
    ensures { result ≡ is_plain mnemonic }
{
    matches!(
        mnemonic,
        Mnemonic::Adc
            | Mnemonic::And
            | Mnemonic::Asl
            | Mnemonic::Bit
            | Mnemonic::Clc
            | Mnemonic::Clv
            | Mnemonic::Cmp
            | Mnemonic::Cpx
            | Mnemonic::Cpy
            | Mnemonic::Dec
            | Mnemonic::Dex
            | Mnemonic::Dey
            | Mnemonic::Eor
            | Mnemonic::Inc
            | Mnemonic::Inx
            | Mnemonic::Iny
            | Mnemonic::Lda
            | Mnemonic::Ldx
            | Mnemonic::Ldy
            | Mnemonic::Lsr
            | Mnemonic::Nop
            | Mnemonic::Ora
            | Mnemonic::Rol
            | Mnemonic::Ror
            | Mnemonic::Sbc
            | Mnemonic::Sec
            | Mnemonic::Sta
            | Mnemonic::Stx
            | Mnemonic::Sty
            | Mnemonic::Tax
            | Mnemonic::Tay
            | Mnemonic::Txa
            | Mnemonic::Tya
    )
}

/// Whether a block may have an instruction in this mode.
fn is_spelled(mnemonic: Mnemonic, mode: Mode) -> bool
    ensures { result ≡ is_spelled mnemonic mode }
{
    is_plain(mnemonic) && opcode(mnemonic, mode).is_some()
}

/// Whether the SID has the register that an operand names.
fn is_operand(operand: Operand) -> bool
    ensures { result ≡ is_operand operand }
{
    match operand {
        Operand::Register(register) => register <= 24,
        Operand::OwnRegister(register) => register <= 6,
        _ => true,
    }
}

/// Whether a place is at most 126 bytes behind the beginning of the loop.
fn is_near(head: Option<u16>) -> bool
    ensures { result ≡ is_within 126 head }
{
    match head {
        Some(far) => far <= 126,
        None => false,
    }
}

/// Whether a line that opens nothing may stand there.
fn is_fit(line: &Line, around: Around<'_>) -> bool
    ensures { result ≡ has_lines (reach_of around.entry) (simple line.now) }
{
    match *line {
        Line::Do(mnemonic) => is_spelled(mnemonic, alone_mode(mnemonic)),
        Line::With(mnemonic, operand) => {
            is_spelled(mnemonic, mode_of(operand)) && is_operand(operand)
        }
        Line::Leave(name) => around.ends.has(name),
        Line::LeaveIf(name, _) => around.ends.are_within(127, name),
        Line::Again => around.head.is_some(),
        Line::AgainIf(_) => is_near(around.head),
        _ => true,
    }
}

/// Whether a line may stand there with those in it, which begin behind it and take at most so many bytes with it.
#[cycle(reach)]
fn reaches(line: &Line, rest: &[Line], size: u16, around: Around<'_>) -> bool
    requires is_begun { is_end line.now ≡ false }
    requires is_open { are_open (opened (line.now ∷ rest.now)) ≡ true }
    requires room { length rest.now ≤ 20000 }
    requires size { size ≡ most (first_tree line.now (opened rest.now)) }
    requires few { size ≤ 65000 }
    requires near { IfSome around.head (λ far. far + size ≤ 65000) }
    ensures { result ≡ has_lines (reach_of around.entry) (first_tree line.now (opened rest.now)) }
{
    match *line {
        Line::Scope(name) => all_reach(
            rest,
            size,
            Around {
                ends: Ends::Inside(name, &around.ends),
                ..around
            },
        ),
        Line::Loop(_) => all_reach(
            rest,
            size,
            Around {
                head: Some(0),
                ..around
            },
        ),
        Line::When(_) => all_reach(rest, size, around),
        Line::Choose(_) => {
            let (this, or) = most_of(rest);
            let (other, _) = most_of(or);
            all_reach(rest, this, around) && all_reach(or, other, around)
        }
        _ => is_fit(line, around),
    }
}

/// Whether the lines up to the end of what is open may stand there, which take at most so many bytes.
#[cycle(reach)]
fn all_reach(lines: &[Line], size: u16, around: Around<'_>) -> bool
    requires is_open { are_open (opened lines.now) ≡ true }
    requires room { length lines.now ≤ 20000 }
    requires size { size ≡ most (first_of (opened lines.now)) }
    requires few { size ≤ 65000 }
    requires near { IfSome around.head (λ far. far + size ≤ 65000) }
    ensures { result ≡ has_lines (reach_of around.entry) (first_of (opened lines.now)) }
{
    let mut left = lines;
    let mut more = size;
    let mut head = around.head;
    while let Some((line, rest)) = left.split_first() {
        if is_end(line) {
            return true;
        }
        let (size, behind) = extent(line, rest);
        more -= size;
        let ends = Ends::Before(more, &around.ends);
        if !reaches(line, rest, size, Around { ends, head }) {
            return false;
        }
        head = further(head, size);
        left = behind;
    }
    true
}

/// So many bytes further behind the beginning of the loop.
fn further(head: Option<u16>, bytes: u16) -> Option<u16>
    requires { IfSome head (λ far. far + bytes < 2 ^ 16) }
    ensures { result ≡ option_map (λ far. far + bytes) head }
{
    match head {
        Some(far) => Some(far + bytes),
        None => None,
    }
}

/// Whether lines are a block, of which there are at most 20,000.
pub fn is_block(lines: &[Line]) -> bool
    requires { length lines.now ≤ 20000 }
    ensures { result ≡ is_block lines.now }
{
    if !are_whole(lines) {
        return false;
    }
    let (most, _) = most_of(lines);
    let around = Around {
        ends: Ends::Outside,
        head: None,
    };
    all_reach(lines, most, around)
}
