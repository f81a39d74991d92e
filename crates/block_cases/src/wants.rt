//! What cases of blocks and of entrances want.

use crate::bench::Bench;
use crate::difference::{Difference, same, same_byte};
use crate::setup::registers;
use crate::words::{Reader, once};
use case_text::look_up;
use cpu6502::Cpu;
use std::alloc::Global;

/// Bytes that are wanted, from a label on or from a place on.
#[derive(Drop)]
struct Bytes {
    is_label: bool,
    at: u16,
    bytes: Vec<u8>,
}

/// What a case wants.
#[derive(Drop)]
pub struct Wants {
    /// Registers and flags behind what is run.
    after: Option<Cpu>,
    /// That the lines are no block.
    no_block: Option<()>,
    places: Vec<Bytes>,
    steps: Option<u32>,
    size: Option<u32>,
    code: Option<Vec<u8>>,
}

/// What a line wants.
#[derive(Clone, Copy)]
enum Wish {
    After,
    NoBlock,
    Label,
    At,
    Steps,
    Size,
    Code,
}

/// What a line wants, by its first word.
const WISHES: [(&[u8], Wish); 7] = [
    (b"after", Wish::After),
    (b"isn't-a-block", Wish::NoBlock),
    (b"label", Wish::Label),
    (b"at", Wish::At),
    (b"steps", Wish::Steps),
    (b"size", Wish::Size),
    (b"code", Wish::Code),
];

impl Wants {
    /// Nothing is wanted yet.
    pub fn new(alloc: Global) -> Wants {
        Wants {
            after: None,
            no_block: None,
            places: Vec::new(alloc),
            steps: None,
            size: None,
            code: None,
        }
    }

    /// Reads what a line wants.
    ///
    /// # Errors
    ///
    /// The line isn't of the notation; or out of memory.
    pub fn read(
        &mut self,
        alloc: Global,
        head: &[u8],
        reader: &mut Reader<'_>,
    ) -> Result<(), Difference> {
        match look_up(&WISHES, head) {
            Some(Wish::After) => once(&mut self.after, registers(reader)),
            Some(Wish::NoBlock) => once(&mut self.no_block, ()),
            Some(Wish::Label) => self.read_bytes(alloc, true, reader),
            Some(Wish::At) => self.read_bytes(alloc, false, reader),
            Some(Wish::Steps) => once(&mut self.steps, reader.number()),
            Some(Wish::Size) => once(&mut self.size, reader.number()),
            Some(Wish::Code) => once(&mut self.code, reader.bytes(alloc)),
            None => Err(Difference::Unread),
        }
    }

    /// Reads bytes that are wanted.
    fn read_bytes(
        &mut self,
        alloc: Global,
        is_label: bool,
        reader: &mut Reader<'_>,
    ) -> Result<(), Difference> {
        let at = reader.short();
        let bytes = reader.some_bytes(alloc);
        self.places.push(Bytes {
            is_label,
            at,
            bytes,
        })?;
        Ok(())
    }

    /// Whether something is wanted of what lines do.
    fn want_run(&self) -> bool {
        self.after.is_some()
            || self.steps.is_some()
            || self.size.is_some()
            || self.code.is_some()
            || !self.places.is_empty()
    }

    /// Sees that it is wanted that lines are no block, and nothing of what they do.
    ///
    /// # Errors
    ///
    /// It isn't.
    pub fn check_no_block(&self) -> Result<(), Difference> {
        match self.no_block {
            Some(()) if self.want_run() => Err(Difference::Unread),
            Some(()) => Ok(()),
            None => Err(Difference::NoBlock),
        }
    }

    /// The registers and flags that are wanted behind lines that are a block.
    ///
    /// # Errors
    ///
    /// They are wanted to be none, or nothing is wanted.
    pub fn after(&self) -> Result<Cpu, Difference> {
        match (self.after, self.no_block) {
            (Some(after), None) => Ok(after),
            (None, Some(())) => Err(Difference::Done),
            (Some(_), Some(())) => Err(Difference::Unread),
            (None, None) => Err(Difference::WantsNothing),
        }
    }

    /// Sees that the code has the size and the bytes that are wanted.
    ///
    /// # Errors
    ///
    /// It hasn't.
    pub fn check_code(&self, bytes: &[u8], size: u32) -> Result<(), Difference> {
        same("the size", size, self.size.unwrap_or(size))?;
        let Some(code) = &self.code else {
            return Ok(());
        };
        same("the size", size, code.len().min(0xffff_ffff) as u32)?;
        for (found, wanted) in bytes.iter().zip(code) {
            same_byte("a byte of the code", *found, *wanted)?;
        }
        Ok(())
    }

    /// Sees that so many steps are wanted.
    ///
    /// # Errors
    ///
    /// They aren't.
    pub fn check_steps(&self, steps: u32) -> Result<(), Difference> {
        same("instructions", steps, self.steps.unwrap_or(steps))
    }

    /// Wants the bytes, where label 0 would be at a place.
    pub fn put_into(&self, bench: &mut Bench, base: u16) {
        for bytes in &self.places {
            let at = if bytes.is_label {
                base.wrapping_add(bytes.at)
            } else {
                bytes.at
            };
            bench.want(at, &bytes.bytes);
        }
    }
}
