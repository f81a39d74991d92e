//! The words of a file of cases.

use crate::difference::Difference;
use case_text::look_up;
use std::alloc::{AllocError, Global};

/// A word, or one of the marks `,` and `*`.
#[derive(Clone, Copy)]
pub struct Word<'a> {
    /// Its bytes.
    pub text: &'a [u8],
    /// The line that it is in, counted from 1.
    pub line: u32,
    /// Whether a line begins with it.
    pub is_head: bool,
}

/// Whether a byte is a mark.
fn is_mark(byte: u8) -> bool {
    matches!(byte, b',' | b'*')
}

/// Adds a word, if it has bytes.
fn push_word<'a>(
    words: &mut Vec<Word<'a>>,
    text: &'a [u8],
    line: u32,
    is_head: bool,
) -> Result<(), AllocError> {
    if !text.is_empty() {
        words.push(Word {
            text,
            line,
            is_head,
        })?;
    }
    Ok(())
}

/// Adds the words of a line with no comment.
fn push_words<'a>(
    words: &mut Vec<Word<'a>>,
    line: &'a [u8],
    number: u32,
) -> Result<(), AllocError> {
    let mut start = 0;
    for place in 0..line.len() {
        let byte = line[place];
        if byte == b' ' || is_mark(byte) {
            push_word(words, &line[place.min(start)..place], number, start == 0)?;
            start = place + 1;
        }
        if is_mark(byte) {
            push_word(words, &line[place..place + 1], number, false)?;
        }
    }
    let last = start.min(line.len());
    push_word(words, &line[last..], number, start == 0)
}

/// A line without the comment at its end.
fn without_comment(line: &[u8]) -> &[u8] {
    match line.iter().position(|byte| *byte == b'#') {
        Some(end) => &line[..end],
        None => line,
    }
}

/// The words of a text.
pub fn words_of(alloc: Global, text: &str) -> Result<Vec<Word<'_>>, AllocError> {
    let mut words = Vec::new(alloc);
    let mut number = 0_u32;
    for line in text.lines() {
        number = number.saturating_add(1);
        push_words(&mut words, without_comment(line.as_bytes()), number)?;
    }
    Ok(words)
}

/// Notes what a line gives, if no line has given it before.
///
/// # Errors
///
/// One has.
pub fn once<T: Drop>(given: &mut Option<T>, value: T) -> Result<(), Difference> {
    if given.is_some() {
        return Err(Difference::Unread);
    }
    *given = Some(value);
    Ok(())
}

/// A reader of words. It notes that a line isn't of the notation, and goes on with 0 or the like up to the line's end,
/// which tells it.
#[derive(Clone, Copy)]
pub struct Reader<'a> {
    words: &'a [Word<'a>],
    /// How many words were read.
    at: usize,
    /// The line of the word that was read last.
    pub line: u32,
    /// Whether the line isn't of the notation.
    pub is_unread: bool,
    /// Whether there was no memory for what it says.
    pub is_poor: bool,
}

impl<'a> Reader<'a> {
    /// A reader before the first of these words.
    pub fn new(words: &'a [Word<'a>]) -> Reader<'a> {
        Reader {
            words,
            at: 0,
            line: 0,
            is_unread: false,
            is_poor: false,
        }
    }

    /// How many words are left.
    pub fn left(&self) -> usize {
        self.words.len().saturating_sub(self.at)
    }

    /// A value that the line has to have, or another where it hasn't, which is noted.
    pub fn known<T: Copy>(&mut self, value: Option<T>, otherwise: T) -> T {
        match value {
            Some(value) => value,
            None => {
                self.is_unread = true;
                otherwise
            }
        }
    }

    /// Passes over the next word, if there is one.
    pub fn pass(&mut self) {
        if let Some(word) = self.words.get(self.at) {
            self.at = self.at.saturating_add(1);
            self.line = word.line;
        }
    }

    /// Goes on to the next word that begins a line, and reads it.
    pub fn head(&mut self) -> Option<&'a [u8]> {
        self.is_unread = false;
        self.is_poor = false;
        for _ in 0..self.left() {
            let word = *self.words.get(self.at)?;
            self.pass();
            if word.is_head {
                return Some(word.text);
            }
        }
        None
    }

    /// Passes over the rest of the line, but not over lines that go on with it.
    pub fn pass_line(&mut self) {
        for _ in 0..self.left() {
            match self.words.get(self.at) {
                Some(word) if !word.is_head && word.line == self.line => self.pass(),
                _ => break,
            }
        }
    }

    /// The next word, if it doesn't begin a line.
    pub fn peek(&self) -> Option<&'a [u8]> {
        match self.words.get(self.at) {
            Some(word) if !word.is_head => Some(word.text),
            _ => None,
        }
    }

    /// Reads the next word; an empty one where it begins a line or there is none, which is noted.
    pub fn word(&mut self) -> &'a [u8] {
        match self.peek() {
            Some(text) => {
                self.pass();
                text
            }
            None => {
                self.is_unread = true;
                &[]
            }
        }
    }

    /// Reads the next word, and answers what stands for it in a table; where nothing does, which is noted, another
    /// value.
    pub fn one_of<T: Copy>(&mut self, table: &[(&[u8], T)], otherwise: T) -> T {
        let value = look_up(table, self.word());
        self.known(value, otherwise)
    }

    /// Reads the next word if it is this one, and answers whether it is.
    pub fn takes(&mut self, word: &[u8]) -> bool {
        let is_next = self.peek() == Some(word);
        if is_next {
            self.pass();
        }
        is_next
    }

    /// Reads the next word, which has to be this one.
    pub fn mark(&mut self, word: &[u8]) {
        if !self.takes(word) {
            self.is_unread = true;
        }
    }

    /// Sees that the line was of the notation, and that no word is left in it and those that go on with it.
    ///
    /// # Errors
    ///
    /// It wasn't, or one is; or out of memory.
    pub fn end(&self) -> Result<(), Difference> {
        if self.is_poor {
            return Err(Difference::NoMemory);
        }
        if self.is_unread || self.peek().is_some() {
            return Err(Difference::Unread);
        }
        Ok(())
    }
}
