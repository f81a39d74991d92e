//! The instructions that stand for lines.

ghost use Rattle.std.specs.Prelude.{◌≡◌, ◌+◌, ◌≤◌};
ghost use Rattle.asm6502.specs.declared.lines.Operand.TheVariants.{Nothing};
ghost use Rattle.scopes.specs.Desk.{half_place};
ghost use Rattle.scope_lines.specs.Instructions.{code, mode_of, argument_of, alone_mode, branch_of, branch, jump};
ghost use Rattle.scope_lines.specs.Sizes.{own_size};
ghost use Rattle.scope_lines.specs.Lines.{forwards, backwards};

use asm6502::{Item, Operand as Argument};
use cpu6502::{Mnemonic, Mode};
use scopes::{Flag, Half, Line, Operand, Test};

/// The addressing mode of an operand.
pub fn mode_of(operand: Operand) -> Mode
    ensures { result ≡ mode_of operand }
{
    match operand {
        Operand::Number(_) => Mode::Immediate,
        Operand::Var(_) | Operand::Register(_) | Operand::Timer(_) => Mode::Absolute,
        Operand::Own(_) | Operand::OwnRegister(_) => Mode::AbsoluteX,
        Operand::Entry(_) => Mode::AbsoluteY,
        Operand::Pointed => Mode::IndirectY,
        Operand::Pointer(_) => Mode::ZeroPage,
    }
}

/// The bytes of a line that opens nothing.
pub fn own_size(line: &Line) -> u16
    ensures { result ≡ own_size line.now }
{
    match line {
        Line::Do(_) => 1,
        Line::With(_, operand) => u16::from(mode_of(*operand).length()),
        Line::Leave(_) | Line::Again => 3,
        Line::LeaveIf(_, _) | Line::AgainIf(_) => 2,
        _ => 0,
    }
}

/// The addressing mode of an instruction without an operand: a shift works on A.
pub fn alone_mode(mnemonic: Mnemonic) -> Mode
    ensures { result ≡ alone_mode mnemonic }
{
    match mnemonic {
        Mnemonic::Asl | Mnemonic::Lsr | Mnemonic::Rol | Mnemonic::Ror => Mode::Accumulator,
        _ => Mode::Implied,
    }
}

/// The place of one of two bytes.
fn half_place(place: u16, half: Half) -> u16
    requires { place + 1 ≤ 65535 }
    ensures { result ≡ half_place place half }
{
    match half {
        Half::Low => place,
        Half::High => place + 1,
    }
}

/// What stands behind the opcode.
fn argument_of(pointer: u8, operand: Operand) -> Argument
    ensures { result ≡ argument_of pointer operand }
{
    match operand {
        Operand::Number(number) => Argument::Number(u16::from(number)),
        Operand::Var(label) | Operand::Own(label) | Operand::Entry(label) => Argument::Label(
            label, 0,
        ),
        Operand::Pointed => Argument::Number(u16::from(pointer)),
        Operand::Pointer(of) => Argument::Number(half_place(u16::from(pointer), of)),
        Operand::Register(register) | Operand::OwnRegister(register) => {
            Argument::Number(0xD400 + u16::from(register))
        }
        Operand::Timer(of) => Argument::Number(half_place(0xDC04, of)),
    }
}

/// A line of the assembler, in the part that is always kept.
fn code(mnemonic: Mnemonic, mode: Mode, argument: Argument) -> asm6502::Line
    ensures { result ≡ code mnemonic mode argument }
{
    asm6502::Line {
        part: 255,
        item: Item::Code(mnemonic, mode, argument),
    }
}

/// An instruction without an operand.
pub(crate) fn alone(mnemonic: Mnemonic) -> asm6502::Line
    ensures { result ≡ code mnemonic (alone_mode mnemonic) Nothing }
{
    code(mnemonic, alone_mode(mnemonic), Argument::Nothing)
}

/// An instruction with its operand.
pub(crate) fn with(mnemonic: Mnemonic, operand: Operand, pointer: u8) -> asm6502::Line
    ensures { result ≡ code mnemonic (mode_of operand) (argument_of pointer operand) }
{
    code(mnemonic, mode_of(operand), argument_of(pointer, operand))
}

/// The branch of a test.
fn branch_of(test: Test) -> Mnemonic
    ensures { result ≡ branch_of test }
{
    match test {
        Test::On(Flag::Zero) => Mnemonic::Beq,
        Test::Off(Flag::Zero) => Mnemonic::Bne,
        Test::On(Flag::Minus) => Mnemonic::Bmi,
        Test::Off(Flag::Minus) => Mnemonic::Bpl,
        Test::On(Flag::Carry) => Mnemonic::Bcs,
        Test::Off(Flag::Carry) => Mnemonic::Bcc,
    }
}

/// A branch from a place to a later one.
pub(crate) fn branch_forwards(test: Test, place: u16, label: u16) -> asm6502::Line
    requires { place + 2 ≤ 65535 }
    ensures { result ≡ branch test (forwards place label) }
{
    let displacement = label.saturating_sub(place + 2);
    code(
        branch_of(test),
        Mode::Relative,
        Argument::Number(displacement),
    )
}

/// A branch from a place to an earlier one.
pub(crate) fn branch_backwards(test: Test, place: u16, label: u16) -> asm6502::Line
    requires { label + 254 ≤ 65535 }
    ensures { result ≡ branch test (backwards place label) }
{
    let displacement = (254 + label).saturating_sub(place);
    code(
        branch_of(test),
        Mode::Relative,
        Argument::Number(displacement),
    )
}

/// A jump to a place so many bytes behind a label.
pub(crate) fn jump(label: u16, offset: u16) -> asm6502::Line
    ensures { result ≡ jump label offset }
{
    code(
        Mnemonic::Jmp,
        Mode::Absolute,
        Argument::Label(label, offset),
    )
}
