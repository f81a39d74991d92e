//! An image in a machine of its own, and its calls.

use crate::after::some_bytes;
use crate::answer::Answer;
use case_text::{Names, Wrong, bytes_of, first_word, number_of};
use cpu6502::{Cpu, Machine, Memory, WriteLog};
use std::alloc::Global;

/// Registers that a player must not count on, the decimal flag among them.
const ANY: Cpu = Cpu {
    a: 0x81,
    x: 0x7e,
    y: 0x3c,
    sp: 0x01,
    pc: 0xbeef,
    n: true,
    v: true,
    d: true,
    i: false,
    z: true,
    c: true,
};

/// The steps that a call may take.
const BUDGET: u32 = 200_000;

/// The number that play is called with.
const PLAY_NUMBER: u8 = 0x99;

/// The bytes of a PSID file before its image's address.
const PSID_HEADER: usize = 0x7c;

/// The SID's first register.
const SID: u16 = 0xd400;

/// The status where a call doesn't return.
const STOPPED: u8 = 13;

/// A machine with an image.
#[derive(Drop)]
pub struct Loaded {
    machine: Machine,
    /// Where the image's init stands; its play stands three bytes behind.
    init: u16,
    log: WriteLog,
}

/// A decimal number of 8 bits.
pub fn byte_of(text: &str) -> Result<u8, Wrong> {
    match u8::try_from(number_of(text)?) {
        Ok(byte) => Ok(byte),
        Err(_) => Err(Wrong::BadLine),
    }
}

/// A hexadecimal address of four digits.
fn address_of(text: &str) -> Result<u16, Wrong> {
    match u16::from_str_radix(text, 16) {
        Ok(address) => Ok(address),
        Err(_) => Err(Wrong::BadLine),
    }
}

/// The one byte that a text spells.
fn fill_of<N: Names>(alloc: Global, names: &N, text: &str) -> Result<u8, Wrong> {
    let bytes = bytes_of(alloc, names, text)?;
    match bytes.as_slice() {
        [fill] => Ok(*fill),
        _ => Err(Wrong::BadLine),
    }
}

/// The address of the image in a raw or PSID file, and its bytes.
fn image_of(file: &[u8]) -> Option<(u16, &[u8])> {
    let raw = if file.starts_with(b"PSID") {
        file.get(PSID_HEADER..)?
    } else {
        file
    };
    let low = *raw.first()?;
    let high = *raw.get(1)?;
    Some((u16::from_le_bytes([low, high]), raw.get(2..)?))
}

/// Writes bytes from a place on.
fn write_all(memory: &mut Memory, first: u16, bytes: &[u8]) {
    let mut place = first;
    for byte in bytes {
        memory.write(place, *byte);
        place = place.wrapping_add(1);
    }
}

impl Loaded {
    /// A machine of bytes that are all the same but for the image of a file.
    pub fn load<N: Names>(alloc: Global, names: &N, rest: &str) -> Result<Loaded, Wrong> {
        let (name, fill) = first_word(rest);
        let file = names.named(name).ok_or(Wrong::BadLine)?;
        let fill = fill_of(alloc, names, fill)?;
        let (init, image) = image_of(file).ok_or(Wrong::BadLine)?;
        let Ok(mut memory) = Memory::filled(alloc, fill) else {
            return Err(Wrong::NoMemory);
        };
        write_all(&mut memory, init, image);
        Ok(Loaded {
            machine: Machine { cpu: ANY, memory },
            init,
            log: WriteLog::new(),
        })
    }

    /// Calls an entry; answers whether it returns.
    fn call(&mut self, entry: u16, number: u8) -> bool {
        self.machine.cpu = ANY;
        let called = self.machine.call(entry, number, BUDGET, &mut self.log);
        called.is_ok()
    }

    /// Adds the line of registers of a call.
    fn add_line(&self, alloc: Global, call: u32, text: &mut Vec<u8>) -> Result<(), Wrong> {
        text.extend_from_slice(format!(in alloc; "{call:06} ")?.as_bytes())?;
        for register in 0..25 {
            let byte = self.machine.memory.read(SID + register);
            text.extend_from_slice(format!(in alloc; "{byte:02x}")?.as_bytes())?;
        }
        text.push(b'\n')?;
        Ok(())
    }

    /// Calls play so often, and adds its lines; answers whether each call returns.
    fn play(&mut self, alloc: Global, count: u32, text: &mut Vec<u8>) -> Result<bool, Wrong> {
        let play = self.init.wrapping_add(3);
        let mut call = 0u32;
        for _ in 0..count {
            call = call.saturating_add(1);
            if !self.call(play, PLAY_NUMBER) {
                return Ok(false);
            }
            self.add_line(alloc, call, text)?;
        }
        Ok(true)
    }

    /// Init with a number, and then so many plays.
    pub fn calls(&mut self, alloc: Global, rest: &str) -> Result<Answer, Wrong> {
        let (number, count) = first_word(rest);
        let number = byte_of(number)?;
        let count = number_of(count)?;
        let mut text = Vec::new(alloc);
        if !self.call(self.init, number) {
            return Answer::new(alloc, STOPPED, &[]);
        }
        self.add_line(alloc, 0, &mut text)?;
        let returns = self.play(alloc, count, &mut text)?;
        Answer::new(alloc, if returns { 0 } else { STOPPED }, &text)
    }

    /// So many plays.
    pub fn plays(&mut self, alloc: Global, rest: &str) -> Result<Answer, Wrong> {
        let count = number_of(rest)?;
        let mut text = Vec::new(alloc);
        let returns = self.play(alloc, count, &mut text)?;
        Answer::new(alloc, if returns { 0 } else { STOPPED }, &text)
    }

    /// Writes bytes into the memory.
    pub fn poke<N: Names>(&mut self, alloc: Global, names: &N, rest: &str) -> Result<(), Wrong> {
        let (address, rest) = first_word(rest);
        let bytes = bytes_of(alloc, names, rest)?;
        write_all(&mut self.machine.memory, address_of(address)?, &bytes);
        Ok(())
    }

    /// Whether the memory holds bytes from an address on.
    pub fn holds<N: Names>(&self, alloc: Global, names: &N, rest: &str) -> Result<bool, Wrong> {
        let (address, rest) = first_word(rest);
        let mut place = address_of(address)?;
        for byte in some_bytes(alloc, names, rest)? {
            if self.machine.memory.read(place) != byte {
                return Ok(false);
            }
            place = place.wrapping_add(1);
        }
        Ok(true)
    }

    /// Whether the last call's log keeps so many stores in the SID's registers, and so many are beyond.
    pub fn has_stores(&self, rest: &str) -> Result<bool, Wrong> {
        let (kept, beyond) = first_word(rest);
        let is_kept = self.log.writes.as_slice().len() == number_of(kept)? as usize;
        Ok(is_kept && self.log.beyond == number_of(beyond)?)
    }
}
