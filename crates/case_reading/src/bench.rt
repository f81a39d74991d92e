//! What a case works on: its files, what fails, its runs and their answers.

use crate::after::is_as_said;
use crate::answer::{Answer, Said};
use crate::desk::Desk;
use crate::devices::Devices;
use crate::lines::{Deed, Held, Line, Question, line_of};
use crate::machine::Loaded;
use crate::patterns::{pack, unpack};
use crate::readers::{read_psid, read_script, read_song};
use crate::runs::{Program, run};
use crate::steps::count;
use case_text::{Wrong, first_word, holds, words_of};
use std::alloc::Global;
use std::rt::Files;

/// What a case works on.
#[derive(Drop)]
pub struct Bench {
    alloc: Global,
    /// The files that were put before the first case, from that case on.
    common: Option<Desk>,
    desk: Desk,
    devices: Devices,
    machine: Option<Loaded>,
    /// What the last run answered, up to the line that changes something after it.
    answer: Option<Answer>,
    /// The texts of the case's runs.
    texts: Vec<Vec<u8>>,
}

impl Bench {
    /// No files and no runs.
    pub fn new(alloc: Global) -> Bench {
        Bench {
            alloc,
            common: None,
            desk: Desk::new(alloc),
            devices: Devices::whole(alloc),
            machine: None,
            answer: None,
            texts: Vec::new(alloc),
        }
    }

    /// The files that were put before the first case.
    fn take_common(&mut self) -> Result<Desk, Wrong> {
        match self.common.take() {
            Some(common) => Ok(common),
            None => self.desk.copy(),
        }
    }

    /// Begins a case with the files that were put before the first one.
    pub fn begin_case(&mut self) -> Result<(), Wrong> {
        let common = self.take_common()?;
        let desk = common.copy()?;
        *self = Bench::new(self.alloc);
        self.desk = desk;
        self.common = Some(common);
        Ok(())
    }

    /// Ends what is said of the last run, all of which has to have been named.
    fn settle(&mut self) -> Result<(), Wrong> {
        match self.answer.take() {
            Some(answer) => answer.end(),
            None => Ok(()),
        }
    }

    /// Ends a case: it has a run, all that its last run answered has been named, and nothing is said to fail after it.
    pub fn end_case(&mut self) -> Result<(), Wrong> {
        self.settle()?;
        holds(!self.texts.is_empty(), "no run")?;
        holds(self.devices.is_whole(), "no run after what fails")
    }

    /// Takes a line before the first case, which puts or changes a file.
    pub fn take_file(&mut self, word: &str, rest: &str) -> Result<(), Wrong> {
        match line_of(word) {
            Some(Line::Does(Deed::Put(put))) => self.desk.take(put, rest),
            _ => Err(Wrong::BadLine),
        }
    }

    /// Takes a line of a case.
    pub fn take<R: Files, P: Program>(
        &mut self,
        rt: &R,
        program: &P,
        word: &str,
        rest: &str,
    ) -> Result<(), Wrong> {
        match line_of(word) {
            Some(Line::Said(said)) => self.take_said(said, rest),
            Some(Line::Stands(fact)) => {
                let (name, rest) = first_word(rest);
                let is_so = is_as_said(self.alloc, &self.desk, fact, name, rest);
                self.take_fact(name, is_so)
            }
            Some(Line::Held(held)) => self.take_held(held, rest),
            Some(Line::Does(deed)) => {
                self.settle()?;
                self.does(rt, program, deed, rest)
            }
            None => Err(Wrong::BadLine),
        }
    }

    /// Takes a line that says what must come of the status or the text of the last run.
    fn take_said(&mut self, said: Said, rest: &str) -> Result<(), Wrong> {
        match &mut self.answer {
            Some(answer) => answer.take(self.alloc, said, rest, &self.texts),
            None => Err(Wrong::BadLine),
        }
    }

    /// Takes a line that says what must stand in a file: whether it does.
    fn take_fact(&mut self, name: &str, is_so: Result<bool, Wrong>) -> Result<(), Wrong> {
        match &mut self.answer {
            Some(answer) => {
                answer.name_file(name);
                holds(is_so?, "another file")
            }
            None => Err(Wrong::BadLine),
        }
    }

    /// Takes a line that says what must stand in the machine.
    fn take_held(&mut self, held: Held, rest: &str) -> Result<(), Wrong> {
        let Some(machine) = &self.machine else {
            return Err(Wrong::BadLine);
        };
        let is_so = match held {
            Held::Memory => machine.holds(self.alloc, &self.desk, rest),
            Held::Stores => machine.has_stores(rest),
        };
        holds(is_so?, "another byte in the machine")
    }

    /// Takes a line that changes something.
    fn does<R: Files, P: Program>(
        &mut self,
        rt: &R,
        program: &P,
        deed: Deed,
        rest: &str,
    ) -> Result<(), Wrong> {
        match deed {
            Deed::Put(put) => self.desk.take(put, rest),
            Deed::Fail(failure) => self.devices.take(self.alloc, failure, rest),
            Deed::Run => {
                let answer = self.run(rt, program, rest);
                self.answered(answer)
            }
            Deed::Ask(question) => {
                let answer = self.asked(question, rest);
                self.answered(answer)
            }
            Deed::Load => self.load(rest),
            Deed::Poke => self.poke(rest),
        }
    }

    /// The answer of the program to these words.
    fn run<R: Files, P: Program>(
        &mut self,
        rt: &R,
        program: &P,
        rest: &str,
    ) -> Result<Answer, Wrong> {
        let words = words_of(self.alloc, rest)?;
        self.machine = None;
        let alloc = self.alloc;
        let answer = run(rt, program, alloc, &words, &mut self.desk, &self.devices)?;
        let is_due = answer.tells_failure() || !self.devices.fail();
        holds(is_due, "nothing failed")?;
        self.devices = Devices::whole(self.alloc);
        Ok(answer)
    }

    /// What comes of a line that asks something else than the program.
    fn asked(&mut self, question: Question, rest: &str) -> Result<Answer, Wrong> {
        let alloc = self.alloc;
        let desk = &self.desk;
        match question {
            Question::Count => count(alloc, desk, rest),
            Question::Pack => pack(alloc, desk, rest),
            Question::Unpack => unpack(alloc, desk, rest),
            Question::Song => read_song(alloc, desk, rest),
            Question::Psid => read_psid(alloc, desk, rest),
            Question::Script => read_script(alloc, desk, rest),
            Question::Calls => self.machine()?.calls(alloc, rest),
            Question::Plays => self.machine()?.plays(alloc, rest),
        }
    }

    /// Notes what came of a run.
    fn answered(&mut self, answer: Result<Answer, Wrong>) -> Result<(), Wrong> {
        let answer = answer?;
        let text = answer.text().to_vec(self.alloc)?;
        self.answer = Some(answer);
        self.texts.push(text)?;
        Ok(())
    }

    /// The loaded machine.
    fn machine(&mut self) -> Result<&mut Loaded, Wrong> {
        match &mut self.machine {
            Some(machine) => Ok(machine),
            None => Err(Wrong::BadLine),
        }
    }

    /// Loads an image into a machine.
    fn load(&mut self, rest: &str) -> Result<(), Wrong> {
        self.machine = Some(Loaded::load(self.alloc, &self.desk, rest)?);
        Ok(())
    }

    /// Writes bytes into the machine's memory.
    fn poke(&mut self, rest: &str) -> Result<(), Wrong> {
        match &mut self.machine {
            Some(machine) => machine.poke(self.alloc, &self.desk, rest),
            None => Err(Wrong::BadLine),
        }
    }
}
