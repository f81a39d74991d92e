//! What a run answered, and what must come of it.

use case_text::{Wrong, first_word, has_sum, holds, number_of};
use std::alloc::Global;

/// A line of registers: six digits of the call's number and a space, 50 digits, and a line feed.
const LINE: usize = 58;

/// The digits of its registers.
const DIGITS: usize = 50;

/// What a line says of the status or the text of a run.
#[derive(Clone, Copy)]
pub enum Said {
    /// The status.
    Status,
    /// The next line.
    Text,
    /// The next bytes.
    Piece,
    /// Anything after that.
    Rest,
    /// Digits of the line of a call.
    Call,
    /// The whole text.
    Whole(Whole),
}

/// What a line says of the whole text.
#[derive(Clone, Copy)]
pub enum Whole {
    /// It is that of an earlier run.
    As,
    /// It is the first half of that.
    Half,
    /// Its sum.
    Sum,
    /// Its length.
    Length,
    /// How it ends.
    Ends,
}

/// What a run answered, and what has been named of it.
#[derive(Drop)]
pub struct Answer {
    status: u8,
    text: Vec<u8>,
    /// How many bytes of the text have been named.
    named: usize,
    /// Whether the status has been named.
    has_status: bool,
    /// The names of the files that the run changed and that no line has named.
    changes: Vec<String>,
}

impl Answer {
    /// What a run answered, of which nothing has been named.
    pub fn new(alloc: Global, status: u8, text: &[u8]) -> Result<Answer, Wrong> {
        Ok(Answer {
            status,
            text: text.to_vec(alloc)?,
            named: 0,
            has_status: false,
            changes: Vec::new(alloc),
        })
    }

    /// A line as the text of a run that ends with 0.
    pub fn line(alloc: Global, line: &str) -> Result<Answer, Wrong> {
        let text = format!(in alloc; "{line}\n")?;
        Answer::new(alloc, 0, text.as_bytes())
    }

    /// Whether a read or a write failed, or a put, or one of them found no memory.
    pub fn tells_failure(&self) -> bool {
        matches!(self.status, 4 | 9 | 10 | 14)
    }

    /// The text.
    pub fn text(&self) -> &[u8] {
        &self.text
    }

    /// Notes a file that the run changed.
    pub fn changed(&mut self, alloc: Global, name: &str) -> Result<(), Wrong> {
        self.changes.push(name.to_string(alloc)?)?;
        Ok(())
    }

    /// Notes that a line names a file.
    pub fn name_file(&mut self, name: &str) {
        self.changes.retain(|change| change.as_str() != name);
    }

    /// Ends what is said of the run: its status, its text and its files must have been named.
    pub fn end(&self) -> Result<(), Wrong> {
        holds(self.has_status, "no status is wanted")?;
        holds(self.named == self.text.len(), "there is more text")?;
        holds(self.changes.is_empty(), "another file was written")
    }

    /// Takes a line that says what must come of the status or the text. The texts are those of the case's runs.
    pub fn take(
        &mut self,
        alloc: Global,
        said: Said,
        rest: &str,
        texts: &[Vec<u8>],
    ) -> Result<(), Wrong> {
        match said {
            Said::Status => self.take_status(rest),
            Said::Text => self.take_line(rest),
            Said::Piece if rest.is_empty() => Err(Wrong::BadLine),
            Said::Piece => self.take_piece(rest.as_bytes()),
            Said::Rest => self.take_rest(),
            Said::Call => self.take_call(alloc, rest),
            Said::Whole(whole) => self.take_whole(alloc, whole, rest, texts),
        }
    }

    /// The status must be this one.
    fn take_status(&mut self, rest: &str) -> Result<(), Wrong> {
        self.has_status = true;
        holds(u32::from(self.status) == number_of(rest)?, "another status")
    }

    /// This line must come next.
    fn take_line(&mut self, line: &str) -> Result<(), Wrong> {
        self.take_piece(line.as_bytes())?;
        self.take_piece(b"\n")
    }

    /// These bytes must come next.
    fn take_piece(&mut self, piece: &[u8]) -> Result<(), Wrong> {
        let next = self.text.get(self.named..).unwrap_or(&[]);
        holds(next.starts_with(piece), "another text")?;
        self.named = self.named.saturating_add(piece.len());
        Ok(())
    }

    /// Anything may come.
    fn take_rest(&mut self) -> Result<(), Wrong> {
        self.named = self.text.len();
        Ok(())
    }

    /// The line of a call must have these digits, from a place on.
    fn take_call(&mut self, alloc: Global, rest: &str) -> Result<(), Wrong> {
        let (call, rest) = first_word(rest);
        let call = number_of(call)?;
        let (at, digits) = place_and_digits(rest)?;
        if digits.is_empty() || at.saturating_add(digits.len()) > DIGITS {
            return Err(Wrong::BadLine);
        }
        let number = format!(in alloc; "{call:06} ")?;
        let registers = self.registers(call as usize, number.as_bytes());
        let shown = registers.get(at..).unwrap_or(&[]);
        holds(shown.starts_with(digits.as_bytes()), "other registers")
    }

    /// What stands behind the number of a call in its line, and all after it; nothing where another number stands there.
    fn registers(&self, call: usize, number: &[u8]) -> &[u8] {
        let first = call.saturating_mul(LINE);
        let line = self.text.get(first..).unwrap_or(&[]);
        line.strip_prefix(number).unwrap_or(&[])
    }

    /// Takes a line that speaks of the whole text.
    fn take_whole(
        &mut self,
        alloc: Global,
        whole: Whole,
        rest: &str,
        texts: &[Vec<u8>],
    ) -> Result<(), Wrong> {
        let fact = match whole {
            Whole::As => self.is_as(rest, texts),
            Whole::Half => self.is_half(rest, texts),
            Whole::Sum => has_sum(alloc, &self.text, rest),
            Whole::Length => self.has_length(rest),
            Whole::Ends => self.ends_with(rest),
        };
        self.named = self.text.len();
        holds(fact?, "another text")
    }

    /// Whether the text is that of the earlier run that has this number.
    fn is_as(&self, number: &str, texts: &[Vec<u8>]) -> Result<bool, Wrong> {
        let other = text_of(texts, number)?;
        Ok(self.text.as_slice() == other)
    }

    /// Whether the text is the first half of it, rounded down.
    fn is_half(&self, number: &str, texts: &[Vec<u8>]) -> Result<bool, Wrong> {
        let other = text_of(texts, number)?;
        let half = other.get(..other.len() / 2).unwrap_or(&[]);
        Ok(self.text.as_slice() == half)
    }

    /// Whether the text has so many bytes.
    fn has_length(&self, length: &str) -> Result<bool, Wrong> {
        Ok(self.text.len() == number_of(length)? as usize)
    }

    /// Whether the text ends with this and a line feed.
    fn ends_with(&self, end: &str) -> Result<bool, Wrong> {
        if end.is_empty() {
            return Err(Wrong::BadLine);
        }
        match self.text.strip_suffix(b"\n") {
            Some(lines) => Ok(lines.ends_with(end.as_bytes())),
            None => Ok(false),
        }
    }
}

/// Digits, and the place that stands before them, or 0.
fn place_and_digits(text: &str) -> Result<(usize, &str), Wrong> {
    match text.split_once(' ') {
        Some((at, digits)) => Ok((number_of(at)? as usize, digits)),
        None => Ok((0, text)),
    }
}

/// The text of the earlier run of the case that has this number, from 1 on. The last of the texts is the run's own.
fn text_of<'a>(texts: &'a [Vec<u8>], number: &str) -> Result<&'a [u8], Wrong> {
    let number = number_of(number)? as usize;
    let place = number.checked_sub(1).ok_or(Wrong::BadLine)?;
    match texts.get(place) {
        Some(text) if number < texts.len() => Ok(text.as_slice()),
        _ => Err(Wrong::BadLine),
    }
}
