//! A machine, and the memory that is wanted behind what it does.

ghost use Rattle.std.specs.Prelude.{◌≡◌, OnOk};

use crate::difference::{Difference, same, same_byte};
use crate::words::Reader;
use base::NoMemory;
use cpu6502::{Cpu, Machine, Memory};
use std::alloc::Global;

/// A machine, and the memory that is wanted. Both memories hold at each place the low byte of the place times 7, with
/// the bits of the high one turned, but where a case says otherwise.
#[derive(Drop)]
pub struct Bench {
    pub machine: Machine,
    wanted: Memory,
    /// Whether a case speaks of a page, by the high byte of its places.
    touched: [bool; 256],
}

/// The registers before any are given.
pub const IDLE: Cpu = Cpu {
    a: 0,
    x: 0,
    y: 0,
    sp: 0xf0,
    pc: 0,
    n: false,
    v: false,
    d: false,
    i: false,
    z: false,
    c: false,
};

/// What a place holds where no case says otherwise.
fn byte_at(place: u16) -> u8 {
    let [low, high] = place.to_le_bytes();
    low.wrapping_mul(7) ^ high
}

/// Whether each case is held against a page: the first two, and those of the SID and of the timers.
fn is_watched(page: u8) -> bool {
    matches!(page, 0 | 1 | 0xd4 | 0xdc)
}

/// Puts bytes from a place on.
fn put(memory: &mut Memory, at: u16, bytes: &[u8]) {
    let mut place = at;
    for byte in bytes {
        memory.write(place, *byte);
        place = place.wrapping_add(1);
    }
}

impl Bench {
    /// A machine and a memory before the first case.
    ///
    /// # Errors
    ///
    /// Out of memory.
    pub fn new(alloc: Global) -> Result<Bench, NoMemory> {
        let mut bench = Bench {
            machine: Machine {
                cpu: IDLE,
                memory: Memory::filled(alloc, 0)?,
            },
            wanted: Memory::filled(alloc, 0)?,
            touched: [false; 256],
        };
        bench.renew();
        Ok(bench)
    }

    /// Makes a page of both memories what no case says otherwise.
    fn fill(&mut self, page: u8) {
        for low in 0..=255_u8 {
            let place = u16::from_le_bytes([low, page]);
            self.machine.memory.write(place, byte_at(place));
            self.wanted.write(place, byte_at(place));
        }
    }

    /// Makes all of both memories what no case says otherwise.
    pub fn renew(&mut self) {
        for page in 0..=255_u8 {
            self.fill(page);
        }
    }

    /// Begins a case.
    pub fn begin(&mut self) {
        self.machine.cpu = IDLE;
        for page in 0..=255_u8 {
            if self.touched[usize::from(page)] || is_watched(page) {
                self.fill(page);
                self.touched[usize::from(page)] = false;
            }
        }
    }

    /// Notes the pages in which so many bytes stand from a place on.
    fn touch(&mut self, at: u16, count: usize) {
        let mut place = at;
        for _ in 0..count {
            let [_, page] = place.to_le_bytes();
            self.touched[usize::from(page)] = true;
            place = place.wrapping_add(1);
        }
    }

    /// Puts bytes into memory, which are wanted there too.
    pub fn put(&mut self, at: u16, bytes: &[u8]) {
        put(&mut self.machine.memory, at, bytes);
        self.want(at, bytes);
    }

    /// Wants bytes in memory.
    pub fn want(&mut self, at: u16, bytes: &[u8]) {
        put(&mut self.wanted, at, bytes);
        self.touch(at, bytes.len());
    }

    /// Sees that a page is as it is wanted.
    fn compare_page(&self, page: u8) -> Result<(), Difference> {
        for low in 0..=255_u8 {
            let place = u16::from_le_bytes([low, page]);
            let (found, wanted) = (self.machine.memory.read(place), self.wanted.read(place));
            if found != wanted {
                return Err(Difference::Place(place, found, wanted));
            }
        }
        Ok(())
    }

    /// Sees that the pages of which the case speaks, and those that are watched, are as they are wanted.
    pub fn compare(&self) -> Result<(), Difference> {
        for page in 0..=255_u8 {
            if self.touched[usize::from(page)] || is_watched(page) {
                self.compare_page(page)?;
            }
        }
        Ok(())
    }

    /// Sees that no case has written where it doesn't speak of: all of memory is as it is wanted.
    pub fn compare_all(&self) -> Result<(), Difference> {
        for page in 0..=255_u8 {
            self.compare_page(page)?;
        }
        Ok(())
    }

    /// Steps up to a place, at most so often, and answers how often.
    pub fn step_to(&mut self, end: u16, budget: u32) -> Result<u32, Difference>
        ensures { OnOk result (self.new.machine.cpu.pc ≡ end) }
    {
        for steps in 0..budget {
            if self.machine.cpu.pc == end {
                return Ok(steps);
            }
            if let Err(stop) = self.machine.step() {
                return Err(Difference::Stopped(stop));
            }
        }
        Err(Difference::Endless)
    }
}

impl Reader<'_> {
    /// Reads the letters of the flags that are set, into registers.
    pub fn flags(&mut self, cpu: Cpu) -> Cpu {
        let mut after = cpu;
        for letter in self.word() {
            match letter {
                b'n' => after.n = true,
                b'v' => after.v = true,
                b'd' => after.d = true,
                b'i' => after.i = true,
                b'z' => after.z = true,
                b'c' => after.c = true,
                b'-' => {}
                _ => self.is_unread = true,
            }
        }
        after
    }
}

/// Sees that a flag is the one that is wanted.
fn same_flag(name: &'static str, found: bool, wanted: bool) -> Result<(), Difference> {
    same_byte(name, u8::from(found), u8::from(wanted))
}

/// Sees that all flags are those that are wanted.
fn same_flags(found: Cpu, wanted: Cpu) -> Result<(), Difference> {
    same_flag("the flag n", found.n, wanted.n)?;
    same_flag("the flag v", found.v, wanted.v)?;
    same_flag("the flag d", found.d, wanted.d)?;
    same_flag("the flag i", found.i, wanted.i)?;
    same_flag("the flag z", found.z, wanted.z)?;
    same_flag("the flag c", found.c, wanted.c)
}

/// Sees that all registers and flags are those that are wanted.
pub fn same_registers(found: Cpu, wanted: Cpu) -> Result<(), Difference> {
    same_byte("A", found.a, wanted.a)?;
    same_byte("X", found.x, wanted.x)?;
    same_byte("Y", found.y, wanted.y)?;
    same_byte("the stack pointer", found.sp, wanted.sp)?;
    same(
        "the program counter",
        u32::from(found.pc),
        u32::from(wanted.pc),
    )?;
    same_flags(found, wanted)
}
