//! A song that is spelled part by part.

use case_text::Wrong;
use std::alloc::Global;

/// The parts of a song's file, its texts left out.
#[derive(Drop)]
pub struct Parts {
    /// Each part, in the format's order: the number of subtunes, and three orderlists for each; the nine bytes of each
    /// instrument, its name left out; the left and the right side of each row of the four tables; the number of
    /// patterns, and each of them with its end row.
    parts: Vec<Vec<u8>>,
}

/// The orderlists of one subtune that plays pattern 0.
const ORDERS: [u8; 13] = [1, 2, 0, 0xff, 0, 2, 0, 0xff, 0, 2, 0, 0xff, 0];

/// One pattern of one rest.
const PATTERNS: [u8; 10] = [1, 2, 0xbd, 0, 0, 0, 0xff, 0, 0, 0];

/// The number of items as the format has it; as many as a byte holds where they are more, so that the file is refused.
fn count(items: usize) -> u8 {
    u8::try_from(items).unwrap_or(255)
}

/// Adds instruments, with names of zeros.
fn add_instruments(file: &mut Vec<u8>, bytes: &[u8]) -> Result<(), Wrong> {
    file.push(count(bytes.len() / 9))?;
    for (place, byte) in bytes.iter().enumerate() {
        file.push(*byte)?;
        if place % 9 == 8 {
            file.extend_from_slice(&[0; 16])?;
        }
    }
    Ok(())
}

/// Adds a table: its left sides and then its right sides.
fn add_table(file: &mut Vec<u8>, bytes: &[u8]) -> Result<(), Wrong> {
    file.push(count(bytes.len() / 2))?;
    add_side(file, bytes, 0)?;
    add_side(file, bytes, 1)
}

/// Adds one side of a table.
fn add_side(file: &mut Vec<u8>, bytes: &[u8], side: usize) -> Result<(), Wrong> {
    for (place, byte) in bytes.iter().enumerate() {
        if place % 2 == side {
            file.push(*byte)?;
        }
    }
    Ok(())
}

/// Adds the part that has this place.
fn add_part(file: &mut Vec<u8>, place: usize, bytes: &[u8]) -> Result<(), Wrong> {
    match place {
        1 => add_instruments(file, bytes),
        2..=5 => add_table(file, bytes),
        _ => Ok(file.extend_from_slice(bytes)?),
    }
}

impl Parts {
    /// One subtune of silence.
    pub fn silent(alloc: Global) -> Result<Parts, Wrong> {
        let mut parts = Vec::new(alloc);
        parts.push(ORDERS.to_vec(alloc)?)?;
        for _ in 0..5 {
            parts.push(Vec::new(alloc))?;
        }
        parts.push(PATTERNS.to_vec(alloc)?)?;
        Ok(Parts { parts })
    }

    /// The same parts again.
    pub fn copy(&self, alloc: Global) -> Result<Parts, Wrong> {
        let mut parts = Vec::new(alloc);
        for part in &self.parts {
            parts.push(part.clone()?)?;
        }
        Ok(Parts { parts })
    }

    /// Puts a part in place of the one that has its place.
    pub fn set(&mut self, place: usize, bytes: Vec<u8>) {
        if let Some(part) = self.parts.get_mut(place) {
            *part = bytes;
        }
    }

    /// The song's file, with texts of zeros.
    pub fn file(&self, alloc: Global) -> Result<Vec<u8>, Wrong> {
        let mut file = Vec::new(alloc);
        file.extend_from_slice(b"GTS5")?;
        file.resize(100, 0)?;
        for (place, part) in self.parts.iter().enumerate() {
            add_part(&mut file, place, part)?;
        }
        Ok(file)
    }
}
