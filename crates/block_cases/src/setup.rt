//! How cases of blocks and of entrances begin.

use crate::bench::IDLE;
use crate::difference::Difference;
use crate::wants::Wants;
use crate::words::{Reader, once};
use asm6502::{Item, Line as Code, Listing};
use base::{ByteList, NoMemory};
use case_text::look_up;
use cpu6502::Cpu;
use scope_lines::{Conditions, Line};
use std::alloc::Global;

/// How a case begins. What it doesn't give is that of the case before.
#[derive(Drop)]
pub struct Setup {
    /// Where the code stands, once at each.
    pub origins: Vec<u16>,
    /// The place of the pointer's low byte in page 0.
    pub pointer: u8,
    /// The conditions that hold.
    pub conditions: Conditions,
    /// Registers and flags.
    pub begin: Cpu,
    /// The label of the first byte behind the code.
    pub first: u16,
    /// The bytes there.
    pub bytes: Vec<u8>,
    /// The block, or the one that an entrance does once.
    pub block: Option<Vec<Line>>,
}

/// What an entrance has beside its block.
#[derive(Drop)]
pub struct Entrance {
    /// Whether its calls come with a number in A.
    pub numbered: Option<()>,
    /// The block that is done for each voice.
    pub voices: Option<Vec<Line>>,
}

/// What a line gives of how a case begins.
#[derive(Drop)]
enum Given {
    Origins(Vec<u16>),
    Pointer(u8),
    Holds(Conditions),
    Begin(Cpu),
    Bytes(u16, Vec<u8>),
    Block(Vec<Line>),
}

/// What a line gives, by its first word.
#[derive(Clone, Copy)]
enum Head {
    Origin,
    Pointer,
    Holds,
    Begin,
    Bytes,
    Block,
}

/// What a line gives, by its first word.
const HEADS: [(&[u8], Head); 6] = [
    (b"origin", Head::Origin),
    (b"pointer", Head::Pointer),
    (b"holds", Head::Holds),
    (b"begin", Head::Begin),
    (b"bytes", Head::Bytes),
    (b"block", Head::Block),
];

/// Reads addresses up to the end.
fn origins(alloc: Global, reader: &mut Reader<'_>) -> Vec<u16> {
    let mut origins = Vec::new(alloc);
    for _ in 0..reader.left() {
        if reader.peek().is_none() {
            break;
        }
        if origins.push(reader.short()).is_err() {
            reader.is_poor = true;
        }
    }
    origins
}

/// Reads a condition, 0 to 127.
fn condition(reader: &mut Reader<'_>) -> u128 {
    let number = u32::from(reader.byte());
    if number < 128 {
        1 << number
    } else {
        reader.is_unread = true;
        0
    }
}

/// Reads conditions up to the end.
fn conditions(reader: &mut Reader<'_>) -> Conditions {
    let mut set = 0;
    for _ in 0..reader.left() {
        if reader.peek().is_none() {
            break;
        }
        set |= condition(reader);
    }
    Conditions(set)
}

/// Reads A, X, Y and flags.
pub fn registers(reader: &mut Reader<'_>) -> Cpu {
    let a = reader.byte();
    let x = reader.byte();
    let y = reader.byte();
    reader.flags(Cpu { a, x, y, ..IDLE })
}

/// Reads a line of a case of a block.
///
/// # Errors
///
/// The line isn't of the notation; or out of memory.
pub fn read_line(
    alloc: Global,
    head: &[u8],
    setup: &mut Setup,
    wants: &mut Wants,
    reader: &mut Reader<'_>,
) -> Result<(), Difference> {
    let Some(known) = look_up(&HEADS, head) else {
        return wants.read(alloc, head, reader);
    };
    let given = match known {
        Head::Origin => Given::Origins(origins(alloc, reader)),
        Head::Pointer => Given::Pointer(reader.byte()),
        Head::Holds => Given::Holds(conditions(reader)),
        Head::Begin => Given::Begin(registers(reader)),
        Head::Bytes => Given::Bytes(reader.short(), reader.bytes(alloc)),
        Head::Block => Given::Block(reader.lines(alloc)),
    };
    reader.end()?;
    setup.take(given);
    Ok(())
}

impl Setup {
    /// Nothing is given yet.
    pub fn new(alloc: Global) -> Setup {
        Setup {
            origins: Vec::new(alloc),
            pointer: 0,
            conditions: Conditions(0),
            begin: IDLE,
            first: 0,
            bytes: Vec::new(alloc),
            block: None,
        }
    }

    /// Takes what a line gives.
    fn take(&mut self, given: Given) {
        match given {
            Given::Origins(origins) => self.origins = origins,
            Given::Pointer(pointer) => self.pointer = pointer,
            Given::Holds(conditions) => self.conditions = conditions,
            Given::Begin(cpu) => self.begin = cpu,
            Given::Bytes(first, bytes) => {
                self.first = first;
                self.bytes = bytes;
            }
            Given::Block(block) => self.block = Some(block),
        }
    }

    /// Adds the bytes behind the code, with their labels.
    ///
    /// # Errors
    ///
    /// Out of memory.
    pub fn push_bytes(&self, alloc: Global, listing: &mut Listing) -> Result<(), NoMemory> {
        let mut label = self.first;
        for byte in &self.bytes {
            listing.push(Code {
                part: 255,
                item: Item::Label(label),
            })?;
            listing.push(Code {
                part: 255,
                item: Item::Bytes(ByteList::from_slice(alloc, &[*byte])?),
            })?;
            label = label.wrapping_add(1);
        }
        Ok(())
    }
}

impl Entrance {
    /// Its calls come with no number, and it has no voices.
    pub fn new() -> Entrance {
        Entrance {
            numbered: None,
            voices: None,
        }
    }

    /// Reads a line of a case of an entrance.
    ///
    /// # Errors
    ///
    /// The line isn't of the notation; or out of memory.
    pub fn read_line(
        &mut self,
        alloc: Global,
        head: &[u8],
        setup: &mut Setup,
        wants: &mut Wants,
        reader: &mut Reader<'_>,
    ) -> Result<(), Difference> {
        match head {
            b"numbered" => once(&mut self.numbered, ()),
            b"voices" => once(&mut self.voices, reader.lines(alloc)),
            _ => read_line(alloc, head, setup, wants, reader),
        }
    }
}
