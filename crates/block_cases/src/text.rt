//! The lines of a block, as they are written.

use crate::instructions::MNEMONICS;
use crate::words::Reader;
use case_text::look_up;
use scopes::{Flag, Half, Line, Mnemonic, OVER, Operand, Test};
use std::alloc::{AllocError, Global};

/// What a line begins with that is no instruction.
#[derive(Clone, Copy)]
enum Word {
    Scope,
    Leave,
    Jump,
    Turns,
    Again,
    When,
    Choose,
    Or,
    Never,
    End,
}

/// The words, as they are written.
const WORDS: [(&[u8], Word); 10] = [
    (b"scope", Word::Scope),
    (b"leave", Word::Leave),
    (b"jump", Word::Jump),
    (b"turns", Word::Turns),
    (b"again", Word::Again),
    (b"when", Word::When),
    (b"choose", Word::Choose),
    (b"or", Word::Or),
    (b"never", Word::Never),
    (b"end", Word::End),
];

/// An operand of each kind, with no matter which number or label.
const OPERANDS: [(&[u8], Operand); 9] = [
    (b"Number", Operand::Number(0)),
    (b"Var", Operand::Var(0)),
    (b"Own", Operand::Own(0)),
    (b"Entry", Operand::Entry(0)),
    (b"Pointed", Operand::Pointed),
    (b"Pointer", Operand::Pointer(Half::Low)),
    (b"Register", Operand::Register(0)),
    (b"OwnRegister", Operand::OwnRegister(0)),
    (b"Timer", Operand::Timer(Half::Low)),
];

/// The bytes of two, as they are written.
const HALVES: [(&[u8], Half); 2] = [(b"Low", Half::Low), (b"High", Half::High)];

/// The flags, as they are written.
const FLAGS: [(&[u8], Flag); 3] = [
    (b"Zero", Flag::Zero),
    (b"Minus", Flag::Minus),
    (b"Carry", Flag::Carry),
];

/// What is written as one line.
#[derive(Clone, Copy)]
enum Written {
    Line(Line),
    /// A leave of a scope by a jump under a test, which stands for four lines.
    Jump(u8, Test),
}

/// The test that is met where another isn't.
fn opposite(test: Test) -> Test {
    match test {
        Test::On(flag) => Test::Off(flag),
        Test::Off(flag) => Test::On(flag),
    }
}

impl Written {
    /// Adds the lines that it stands for.
    fn add_to(self, lines: &mut Vec<Line>) -> Result<(), AllocError> {
        match self {
            Written::Line(line) => lines.push(line)?,
            Written::Jump(name, test) => {
                lines.push(Line::Scope(OVER))?;
                lines.push(Line::LeaveIf(OVER, opposite(test)))?;
                lines.push(Line::Leave(name))?;
                lines.push(Line::End)?;
            }
        }
        Ok(())
    }
}

impl Reader<'_> {
    /// Reads a test, if there is one.
    fn test(&mut self) -> Option<Test> {
        if self.takes(b"on") {
            return Some(Test::On(self.one_of(&FLAGS, Flag::Zero)));
        }
        if self.takes(b"off") {
            return Some(Test::Off(self.one_of(&FLAGS, Flag::Zero)));
        }
        None
    }

    /// Reads an operand, if there is one.
    fn operand(&mut self) -> Option<Operand> {
        let kind = look_up(&OPERANDS, self.peek()?)?;
        self.pass();
        Some(match kind {
            Operand::Number(_) => Operand::Number(self.byte()),
            Operand::Var(_) => Operand::Var(self.short()),
            Operand::Own(_) => Operand::Own(self.short()),
            Operand::Entry(_) => Operand::Entry(self.short()),
            Operand::Pointed => Operand::Pointed,
            Operand::Pointer(_) => Operand::Pointer(self.one_of(&HALVES, Half::Low)),
            Operand::Register(_) => Operand::Register(self.byte()),
            Operand::OwnRegister(_) => Operand::OwnRegister(self.byte()),
            Operand::Timer(_) => Operand::Timer(self.one_of(&HALVES, Half::Low)),
        })
    }

    /// Reads an instruction.
    fn instruction_line(&mut self) -> Line {
        let mnemonic = self.one_of(&MNEMONICS, Mnemonic::Nop);
        match self.operand() {
            Some(operand) => Line::With(mnemonic, operand),
            None => Line::Do(mnemonic),
        }
    }

    /// Reads a leave of a scope.
    fn leave(&mut self) -> Line {
        let name = self.byte();
        match self.test() {
            Some(test) => Line::LeaveIf(name, test),
            None => Line::Leave(name),
        }
    }

    /// Reads what a next turn begins under.
    fn again(&mut self) -> Line {
        match self.test() {
            Some(test) => Line::AgainIf(test),
            None => Line::Again,
        }
    }

    /// Reads a leave of a scope by a jump.
    fn jump(&mut self) -> Written {
        let name = self.byte();
        let test = self.test();
        Written::Jump(name, self.known(test, Test::On(Flag::Zero)))
    }

    /// Reads what is written as one line.
    fn written(&mut self) -> Written {
        let word = match self.peek() {
            Some(word) => look_up(&WORDS, word),
            None => None,
        };
        let Some(word) = word else {
            return Written::Line(self.instruction_line());
        };
        self.pass();
        Written::Line(match word {
            Word::Jump => return self.jump(),
            Word::Scope => Line::Scope(self.byte()),
            Word::Leave => self.leave(),
            Word::Turns => Line::Loop(self.byte()),
            Word::Again => self.again(),
            Word::When => Line::When(self.byte()),
            Word::Choose => Line::Choose(self.byte()),
            Word::Or => Line::Or,
            Word::Never => Line::Never,
            Word::End => Line::End,
        })
    }

    /// Reads what is written as one line, as often as it stands, and adds it.
    fn add_lines(&mut self, lines: &mut Vec<Line>) {
        let written = self.written();
        for _ in 0..self.times() {
            if written.add_to(lines).is_err() {
                self.is_poor = true;
                break;
            }
        }
    }

    /// Reads the lines of a block, with commas between them, up to the end.
    pub fn lines(&mut self, alloc: Global) -> Vec<Line> {
        let mut lines = Vec::new(alloc);
        for _ in 0..self.left() {
            if lines.is_empty() && self.peek().is_none() {
                break;
            }
            self.add_lines(&mut lines);
            if !self.takes(b",") {
                break;
            }
        }
        lines
    }
}
