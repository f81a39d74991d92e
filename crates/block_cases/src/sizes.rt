//! How many bytes the lines of a block take at most.

ghost use Rattle.std.specs.Prelude.{◌≡◌, ◌+◌, ◌*◌, ◌≤◌, ◌∷◌, true, false, length};
ghost use Rattle.scopes.specs.Trees.{opened};
ghost use Rattle.scope_lines.specs.Instructions.{mode_of};
ghost use Rattle.scope_lines.specs.Sizes.{most};
ghost use Rattle.scope_lines.specs.Readings.{first_of, behind_of, are_open};
ghost use Rattle.block_cases.specs.Firsts.{first_tree, behind_first, is_end};

use cpu6502::Mode;
use scope_lines::own_size;
use scopes::{Line, Operand};

/// The addressing mode of an operand.
pub fn mode_of(operand: Operand) -> Mode
    ensures { result ≡ mode_of operand }
{
    match operand {
        Operand::Number(_) => Mode::Immediate,
        Operand::Var(_) | Operand::Register(_) | Operand::Timer(_) => Mode::Absolute,
        Operand::Own(_) | Operand::OwnRegister(_) => Mode::AbsoluteX,
        Operand::Entry(_) => Mode::AbsoluteY,
        Operand::Pointed => Mode::IndirectY,
        Operand::Pointer(_) => Mode::ZeroPage,
    }
}

/// Whether a line closes something.
pub fn is_end(line: &Line) -> bool
    ensures { result ≡ is_end line.now }
{
    matches!(line, Line::End | Line::Or)
}

/// The most bytes that a line takes with those in it, which begin behind it, whichever conditions hold; and the lines
/// behind all these. It is none that closes something.
#[cycle(sizes)]
pub fn extent<'a>(line: &Line, rest: &'a [Line]) -> (u16, &'a [Line])
    requires is_begun { is_end line.now ≡ false }
    requires is_open { are_open (opened (line.now ∷ rest.now)) ≡ true }
    requires room { length rest.now ≤ 20000 }
    ensures size { result.0 ≡ most (first_tree line.now (opened rest.now)) }
    ensures behind { opened result.1.now ≡ behind_first line.now (opened rest.now) }
    ensures shorter { length result.1.now ≤ length rest.now }
    ensures few { result.0 + 3 * length result.1.now ≤ 3 * length rest.now + 3 }
{
    match line {
        Line::Scope(_) | Line::Loop(_) | Line::When(_) => most_of(rest),
        Line::Choose(_) => {
            let (this, or) = most_of(rest);
            let (other, behind) = most_of(or);
            (this.max(other), behind)
        }
        _ => (own_size(line), rest),
    }
}

/// The most bytes of the lines up to the end of what is open, whichever conditions hold; and the lines behind it.
#[cycle(sizes)]
pub fn most_of(lines: &[Line]) -> (u16, &[Line])
    requires is_open { are_open (opened lines.now) ≡ true }
    requires room { length lines.now ≤ 20000 }
    ensures size { result.0 ≡ most (first_of (opened lines.now)) }
    ensures behind { opened result.1.now ≡ behind_of (opened lines.now) }
    ensures shorter { length result.1.now ≤ length lines.now }
    ensures few { result.0 + 3 * length result.1.now ≤ 3 * length lines.now }
{
    let mut left = lines;
    let mut most = 0;
    while let Some((line, rest)) = left.split_first() {
        if is_end(line) {
            return (most, rest);
        }
        let (size, behind) = extent(line, rest);
        most += size;
        left = behind;
    }
    (most, left)
}
