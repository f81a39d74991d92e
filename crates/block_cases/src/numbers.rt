//! Hexadecimal numbers and bytes.

use crate::words::Reader;
use std::alloc::Global;

/// The value of a digit.
fn digit(byte: u8) -> Option<u8> {
    match byte {
        b'0'..=b'9' => Some(byte - b'0'),
        b'a'..=b'f' => Some(byte - b'a' + 10),
        _ => None,
    }
}

/// The byte of two digits.
fn byte_of(high: u8, low: u8) -> Option<u8> {
    Some(digit(high)?.wrapping_mul(16) | digit(low)?)
}

/// The number of at most eight digits.
fn number_in(word: &[u8]) -> Option<u32> {
    let mut number = 0_u32;
    for byte in word {
        let more = u32::from(digit(*byte)?);
        number = number.checked_mul(16)?.checked_add(more)?;
    }
    Some(number)
}

impl Reader<'_> {
    /// Reads a number.
    pub fn number(&mut self) -> u32 {
        let number = number_in(self.word());
        self.known(number, 0)
    }

    /// Reads a number of 16 bits.
    pub fn short(&mut self) -> u16 {
        let short = u16::try_from(self.number()).ok();
        self.known(short, 0)
    }

    /// Reads a number of 8 bits.
    pub fn byte(&mut self) -> u8 {
        let byte = u8::try_from(self.number()).ok();
        self.known(byte, 0)
    }

    /// Reads how often the word before stands: `*` and a number, or once.
    pub fn times(&mut self) -> u32 {
        if self.takes(b"*") {
            return self.number();
        }
        1
    }

    /// Reads all bytes up to the end, of which there is one at least.
    pub fn some_bytes(&mut self, alloc: Global) -> Vec<u8> {
        let bytes = self.bytes(alloc);
        if bytes.is_empty() {
            self.is_unread = true;
        }
        bytes
    }

    /// Reads all bytes up to the end.
    pub fn bytes(&mut self, alloc: Global) -> Vec<u8> {
        let mut bytes = Vec::new(alloc);
        for _ in 0..self.left() {
            if self.peek().is_none() {
                break;
            }
            let word = self.word();
            for _ in 0..self.times() {
                self.add_bytes(&mut bytes, word);
                if self.is_unread || self.is_poor {
                    break;
                }
            }
        }
        bytes
    }

    /// Adds the bytes of a word, of two digits each.
    fn add_bytes(&mut self, bytes: &mut Vec<u8>, word: &[u8]) {
        for pair in word.chunks(2) {
            let byte = match pair {
                [high, low] => byte_of(*high, *low),
                _ => None,
            };
            let byte = self.known(byte, 0);
            if bytes.push(byte).is_err() {
                self.is_poor = true;
            }
        }
    }
}
