//! The lines of a text at which something is wrong with its statements.

ghost use Rattle.std.specs.Prelude.{◌≡◌, ◌<◌, ◌≤◌, ◌+◌, length, Some, IsSome};
ghost use Rattle.asm6502.specs.Faults.{fault_of};
ghost use Rattle.asm_text.specs.Laying.{listing_at};
ghost use Rattle.asm_text.specs.Faults.{names, fault_in};
ghost use Rattle.asm_text.specs.declared.refusing.Sought.TheVariants.{FarNumber};
ghost use Rattle.asm_text.specs.Searching.{uses, passes_end, finds, is_far_number, line_found, first_far, AreRight};

use crate::faults::{TextFault, TextKind};
use crate::laying::{MOST_STATEMENTS, branch_byte, is_relative};
use crate::statements::{Operand, Statement, Written};
use asm6502::AsmFault;
use cpu6502::MEMORY_SIZE;

/// A statement that is looked for.
#[derive(Clone, Copy, Debug)]
pub(crate) enum Sought {
    /// The second that names a label.
    SecondNaming(u16),
    /// One whose operand is a label.
    Use(u16),
    /// One whose bytes pass the end of memory.
    PastEnd,
    /// A branch to a number that it doesn't reach.
    FarNumber,
}

impl Sought {
    ghost use Rattle.std.specs.Prelude.{◌≡◌};
    ghost use Rattle.asm_text.specs.Searching.{label_sought};

    /// The label that is looked for; any where none is.
    fn label(self) -> u16
        ensures { result ≡ label_sought self }
    {
        match self {
            Sought::SecondNaming(label) | Sought::Use(label) => label,
            Sought::PastEnd | Sought::FarNumber => 0,
        }
    }
}

/// What the statements before one have given.
#[derive(Clone, Copy, Debug)]
pub(crate) struct Seen {
    /// The bytes that they take.
    size: u32,
    /// Whether one of them names the label that is looked for.
    is_named: bool,
}

/// Whether a statement names a label.
fn names(label: u16, statement: Statement) -> bool
    ensures { result ≡ names label statement }
{
    match statement {
        Statement::Label(other) => other == label,
        Statement::Byte(_) | Statement::Code(_, _, _) => false,
    }
}

impl Seen {
    ghost use Rattle.std.specs.Prelude.{◌≡◌, ◌≤◌, ◌+◌, ◌||◌};
    ghost use Rattle.asm_text.specs.Statements.{size};
    ghost use Rattle.asm_text.specs.Faults.{names};

    /// What they have given with one statement more.
    fn and(self, label: u16, statement: Statement) -> Seen
        requires { self.size ≤ 1000000 }
        ensures size { result.size ≡ self.size + size statement }
        ensures is_named { result.is_named ≡ (self.is_named || names label statement) }
    {
        Seen {
            size: self.size + u32::from(statement.size()),
            is_named: self.is_named || names(label, statement),
        }
    }
}

/// Whether the operand of a statement is a label.
fn uses(label: u16, statement: Statement) -> bool
    ensures { result ≡ uses label statement }
{
    match statement {
        Statement::Code(_, _, Operand::Label(other)) => other == label,
        _ => false,
    }
}

/// Whether a statement at pc has bytes that pass the end of memory.
fn passes_end(pc: u32, statement: Statement) -> bool
    requires { pc ≤ 1000000 }
    ensures { result ≡ passes_end pc statement }
{
    let size = u32::from(statement.size());
    pc + size > MEMORY_SIZE as u32 && size > 0
}

/// Whether a statement at pc is a branch to a number that it doesn't reach.
fn is_far_number(pc: u32, statement: Statement) -> bool
    requires { pc ≤ 1000000 }
    ensures { result ≡ is_far_number pc statement }
{
    match statement {
        Statement::Code(_, mode, Operand::Number(number)) => {
            is_relative(mode) && branch_byte(pc, number).is_none()
        }
        _ => false,
    }
}

impl Sought {
    ghost use Rattle.std.specs.Prelude.{ℕ, List, ◌≡◌, ◌≤◌, ◌+◌, ◌∷◌, ◌++◌, []};
    ghost use Rattle.asm_text.specs.declared.statements.Written.{Written};
    ghost use Rattle.asm_text.specs.Laying.{size_of};
    ghost use Rattle.asm_text.specs.Faults.{is_named};
    ghost use Rattle.asm_text.specs.Searching.{label_sought, finds};

    /// Whether a statement is it, where those before it have given this.
    fn finds(self, origin: u16, seen: Seen, statement: Statement) -> bool
        requires { origin + seen.size ≤ 1000000 }
        ensures { (front : List Written) → seen.size ≡ size_of front →
            seen.is_named ≡ is_named front (label_sought self) →
            result ≡ finds self origin front statement }
    {
        let pc = u32::from(origin) + seen.size;
        match self {
            Sought::SecondNaming(label) => seen.is_named && names(label, statement),
            Sought::Use(label) => uses(label, statement),
            Sought::PastEnd => passes_end(pc, statement),
            Sought::FarNumber => is_far_number(pc, statement),
        }
    }
}

/// The line of the first statement that is looked for; `None` where there is none.
fn line_of(sought: Sought, origin: u16, script: &[Written]) -> Option<u32>
    requires { length script.now ≤ MOST_STATEMENTS }
    ensures { result ≡ line_found (finds sought origin) script.now }
{
    let label = sought.label();
    let mut seen = Seen {
        size: 0,
        is_named: false,
    };
    for written in script {
        if sought.finds(origin, seen, written.statement) {
            return Some(written.line);
        }
        seen = seen.and(label, written.statement);
    }
    None
}

/// The fault of a text for the fault of the listing that its statements name.
pub(crate) fn told(origin: u16, script: &[Written], fault: AsmFault) -> TextFault
    requires few { length script.now ≤ MOST_STATEMENTS }
    requires right { AreRight script.now }
    requires fault { fault_of 0 origin (listing_at origin script.now) ≡ Some fault }
    ensures { fault_in origin script.now ≡ Some result }
{
    match fault {
        AsmFault::DoubleLabel { label } => fault_at(
            TextKind::DoubleLabel,
            line_of(Sought::SecondNaming(label), origin, script),
        ),
        AsmFault::UnknownLabel { label } => fault_at(
            TextKind::UnknownLabel,
            line_of(Sought::Use(label), origin, script),
        ),
        AsmFault::PastEnd { .. } => fault_at(
            TextKind::PastEnd,
            line_of(Sought::PastEnd, origin, script),
        ),
        AsmFault::BranchTooFar { line } => {
            fault_at(TextKind::BranchTooFar, first_far(origin, script, line))
        }
        AsmFault::BadLine { .. } | AsmFault::NoMemory => unreachable!(),
    }
}

/// The fault of this kind at a line that was found.
fn fault_at(kind: TextKind, line: Option<u32>) -> TextFault
    requires { IsSome line }
    ensures line { Some result.line ≡ line }
    ensures kind { result.kind ≡ kind }
{
    match line {
        Some(line) => TextFault { line, kind },
        None => unreachable!(),
    }
}

/// The line of the first branch that doesn't reach its target, where this is the place of the first that doesn't reach
/// its label.
fn first_far(origin: u16, script: &[Written], place: u32) -> Option<u32>
    requires few { length script.now ≤ MOST_STATEMENTS }
    requires inside { place < length script.now }
    ensures { result ≡ first_far origin script.now place }
{
    let place = place as usize;
    match line_of(Sought::FarNumber, origin, &script[..place]) {
        Some(line) => Some(line),
        None => Some(script[place].line),
    }
}

/// The line of the first branch that doesn't reach its number; `None` where there is none.
pub(crate) fn far_number(origin: u16, script: &[Written]) -> Option<u32>
    requires { length script.now ≤ MOST_STATEMENTS }
    ensures { result ≡ line_found (finds FarNumber origin) script.now }
{
    line_of(Sought::FarNumber, origin, script)
}
