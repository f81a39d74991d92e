//! What is printed of cases.

use crate::bench::Bench;
use crate::runs::Program;
use case_text::{Tally, Wrong, first_word, look_up};
use std::rt::Files;

/// How a case is to end.
#[derive(Clone, Copy, PartialEq, Eq)]
enum End {
    /// Each line is met.
    Agrees,
    /// What some line says doesn't come.
    Differs,
    /// Some line spells nothing.
    Misspelled,
}

/// How a case is to end, by its first word.
const ENDS: [(&[u8], End); 3] = [
    (b"case", End::Agrees),
    (b"denial", End::Differs),
    (b"misspelling", End::Misspelled),
];

/// A case that is gone through.
#[derive(Clone, Copy)]
struct Case<'a> {
    name: &'a str,
    /// How it is to end.
    wanted: End,
    /// How it has gone up to here.
    end: End,
}

/// A file of cases that is gone through.
#[derive(Drop)]
struct Reading<'a, R, P> {
    rt: &'a R,
    /// The program that the cases run.
    program: &'a P,
    /// The file's name.
    file: &'a str,
    /// How many of its lines were gone through.
    number: usize,
    bench: Bench,
    /// The case; none before the first one.
    case: Option<Case<'a>>,
}

impl<'a, R: Files + Print, P: Program> Reading<'a, R, P> {
    /// Prints a line of the file that isn't met, or a case that ends otherwise than it is to.
    fn tell(&self, name: &str, wrong: Wrong) -> Result<(), Wrong> {
        let file = self.file;
        let number = self.number;
        match println!(self.rt; "{file}:{number}: {name}: {wrong:?}") {
            Ok(()) => Ok(()),
            Err(_) => Err(Wrong::Differs("can't be printed")),
        }
    }

    /// Notes that the line isn't met, and tells it where the case wants another end.
    fn differ(&mut self, wrong: Wrong) -> Result<(), Wrong> {
        let Some(case) = &mut self.case else {
            return self.tell("before the first case", wrong);
        };
        case.end = match wrong {
            Wrong::BadLine => End::Misspelled,
            _ => End::Differs,
        };
        if case.wanted == case.end {
            return Ok(());
        }
        let name = case.name;
        self.tell(name, wrong)
    }

    /// Ends what is said in the case, if it is gone through up to here.
    fn close(&mut self) -> Result<(), Wrong> {
        if !self.is_open() {
            return Ok(());
        }
        match self.bench.end_case() {
            Ok(()) => Ok(()),
            Err(wrong) => self.differ(wrong),
        }
    }

    /// Ends the case, if there is one, and counts it.
    fn end_case(&mut self, tally: &mut Tally) -> Result<(), Wrong> {
        self.close()?;
        let Some(Case { name, wanted, end }) = self.case else {
            return Ok(());
        };
        tally.count(end == wanted);
        if end == End::Agrees && wanted != End::Agrees {
            return self.tell(name, Wrong::Differs("agrees"));
        }
        Ok(())
    }

    /// Whether there is a case of which each line has been met up to here.
    fn is_open(&self) -> bool {
        match self.case {
            Some(case) => case.end == End::Agrees,
            None => false,
        }
    }

    /// Begins a case.
    fn begin_case(&mut self, name: &'a str, wanted: End) -> Result<(), Wrong> {
        self.case = Some(Case {
            name,
            wanted,
            end: End::Agrees,
        });
        self.bench.begin_case()
    }

    /// Takes a line, if the case is gone through up to here, or there is none yet.
    fn met(&mut self, word: &str, rest: &str) -> Result<(), Wrong> {
        if self.is_open() {
            self.bench.take(self.rt, self.program, word, rest)
        } else if self.case.is_none() {
            self.bench.take_file(word, rest)
        } else {
            Ok(())
        }
    }

    /// Goes on after a line: a case that differs is left at its first such line.
    fn go_on(&mut self, met: Result<(), Wrong>, tally: &mut Tally) -> Result<(), Wrong> {
        match met {
            Err(Wrong::NoMemory) | Ok(()) => met,
            Err(wrong) => {
                if self.case.is_none() {
                    tally.count(false);
                }
                self.differ(wrong)
            }
        }
    }

    /// Takes a line.
    fn take(&mut self, line: &'a str, tally: &mut Tally) -> Result<(), Wrong> {
        self.number = self.number.saturating_add(1);
        let (word, rest) = first_word(line.trim());
        if let Some(wanted) = look_up(&ENDS, word.as_bytes()) {
            self.end_case(tally)?;
            return self.begin_case(rest, wanted);
        }
        if word.is_empty() || word.starts_with('#') {
            return Ok(());
        }
        let met = self.met(word, rest);
        self.go_on(met, tally)
    }
}

/// Goes through a file of cases, and counts them.
pub fn go_through<'a, R: Files + Print + AllocGlobal, P: Program>(
    rt: &'a R,
    program: &'a P,
    file: &'a str,
    text: &'a str,
    tally: &mut Tally,
) -> Result<(), Wrong> {
    let mut reading = Reading {
        rt,
        program,
        file,
        number: 0,
        bench: Bench::new(rt.alloc()),
        case: None,
    };
    for line in text.lines() {
        reading.take(line, tally)?;
    }
    reading.end_case(tally)
}
