//! The lines that a run prints.

ghost use Rattle.std.specs.Prelude.{◌≡◌, ◌<◌, ◌≤◌, ◌+◌, ◌*◌, ◌++◌, [], length, All, IfOk};
ghost use Rattle.std.specs.Prelude.{OnOk, OnErr};
ghost use Rattle.hex.specs.Hex.{encode_lower};
ghost use Rattle.command_line.specs.Lines.{byte_digits, address_digits, feature_digits, sum_digits};
ghost use Rattle.command_line.specs.Words.{texts};

use crate::message::{Message, Piece};
use base::NoMemory;
use std::alloc::Global;
use std::marker::Model;

/// Room for what stands around a name, and for a line without a name, in bytes.
const ROOM_FOR_WORDS: usize = 128;

/// The digits of a call's number in a line of registers.
const CALL_DIGITS: usize = 6;

/// One line, in memory that is taken before the run begins and used again from line to line. Contracts see its bytes,
/// and for how many there is room: a line that fits needs no memory.
#[derive(Drop)]
pub struct Line {
    text: Vec<u8>,
}

impl Model for Line {
    ghost use Rattle.std.specs.Prelude.{vec_capacity};
    ghost use Rattle.command_line.specs.Room.{LineState};

    ghost Value = { LineState };

    ghost view = { λ line. record { text = line.text.items; room = vec_capacity line.text } };
}

impl Line {
    ghost use Rattle.command_line.specs.Message.{piece_text, line_of};
    ghost use Rattle.command_line.specs.RegisterText.{register_line, call_digits};
    ghost use Rattle.command_line.specs.Room.{HasRoom};

    /// An empty line with room for each line that these words can lead to.
    ///
    /// # Errors
    ///
    /// Out of memory.
    pub fn with_room(alloc: Global, words: &[String]) -> Result<Self, NoMemory>
        ensures text { IfOk result (λ line. line.text ≡ []) }
        ensures room { IfOk result (λ line. HasRoom (texts words.now) line.room) }
    {
        let Some(room) = longest(words).checked_add(ROOM_FOR_WORDS) else {
            return Err(NoMemory);
        };
        Ok(Line {
            text: Vec::with_capacity(alloc, room)?,
        })
    }

    /// The line's bytes, its line feed among them.
    pub fn as_slice(&self) -> &[u8]
        ensures { result.now ≡ self.now.text }
    {
        self.text.as_slice()
    }

    /// Makes the line that of a message.
    ///
    /// # Errors
    ///
    /// The line is longer than its room, and out of memory.
    pub fn tell(&mut self, message: &Message) -> Result<(), NoMemory>
        ensures told { OnOk result (self.new.text ≡ line_of message.now.pieces) }
        ensures full { OnErr result (self.old.room < length (line_of message.now.pieces)) }
    {
        self.text.clear();
        for piece in message.pieces() {
            self.add_piece(piece)?;
        }
        self.add(b"\n")
    }

    /// Makes the line that of a call: its number, and the SID's registers after it.
    ///
    /// # Errors
    ///
    /// The line is longer than its room, and out of memory.
    pub fn tell_registers(&mut self, call: u32, registers: &[u8; 25]) -> Result<(), NoMemory>
        ensures told { OnOk result (self.new.text ≡ register_line call registers.now) }
        ensures full { OnErr result (self.old.room < length (register_line call registers.now)) }
        ensures room { OnOk result (self.old.room ≤ self.new.room) }
    {
        let mut digits = [0; 50];
        encode(registers, &mut digits);
        self.set_call_digits(call)?;
        self.add(b" ")?;
        self.add(&digits)?;
        self.add(b"\n")
    }

    /// Appends a piece of a line.
    fn add_piece(&mut self, piece: &Piece) -> Result<(), NoMemory>
        ensures told { OnOk result (self.new.text ≡ self.old.text ++ piece_text piece.now) }
        ensures full { OnErr result (self.old.room < length (self.old.text ++
            piece_text piece.now)) }
        ensures room { OnOk result (self.old.room ≤ self.new.room) }
    {
        match piece {
            Piece::Words(words) => self.add(words.as_bytes()),
            Piece::Name(name) => self.add(name.as_bytes()),
            Piece::Number(number) => {
                let mut digits = itoa::Buffer::new();
                self.add(digits.format(*number).as_bytes())
            }
            Piece::Wide(number) => {
                let mut digits = itoa::Buffer::new();
                self.add(digits.format(*number).as_bytes())
            }
            Piece::Byte(byte) => {
                let digits = upper_byte(*byte);
                self.add(&digits)
            }
            Piece::Address(address) => {
                let digits = upper_digits(*address);
                self.add(&digits)
            }
            Piece::Features(bits) => {
                let digits = lower_digits(*bits);
                self.add(&digits)
            }
            Piece::Sum(sum) => {
                let digits = sum_digits(*sum);
                self.add(&digits)
            }
        }
    }

    /// Makes the line a number in six digits, with leading zeros.
    fn set_call_digits(&mut self, call: u32) -> Result<(), NoMemory>
        ensures told { OnOk result (self.new.text ≡ call_digits call) }
        ensures full { OnErr result (self.old.room < length (call_digits call)) }
        ensures room { OnOk result (self.old.room ≤ self.new.room) }
    {
        let mut buffer = itoa::Buffer::new();
        let digits = buffer.format(call).as_bytes();
        self.text.clear();
        self.text
            .resize(CALL_DIGITS.saturating_sub(digits.len()), b'0')?;
        self.add(digits)
    }

    /// Appends a text.
    fn add(&mut self, text: &[u8]) -> Result<(), NoMemory>
        ensures told { OnOk result (self.new.text ≡ self.old.text ++ text.now) }
        ensures full { OnErr result (self.old.room < length (self.old.text ++ text.now)) }
        ensures room { OnOk result (self.old.room ≤ self.new.room) }
    {
        self.text.extend_from_slice(text)?;
        Ok(())
    }
}

/// A count of bytes that none of these words exceeds: that of the longest.
fn longest(words: &[String]) -> usize
    ensures { All (λ word. length word ≤ result) (texts words.now) }
{
    let mut most = 0;
    for word in words {
        if most < word.len() {
            most = word.len();
        }
    }
    most
}

/// Writes bytes as hexadecimal digits in lower case, two for each.
fn encode(bytes: &[u8], digits: &mut [u8])
    requires { length digits.old ≡ 2 * length bytes.now }
    ensures { digits.new ≡ encode_lower bytes.now }
{
    if hex::encode_to_slice(bytes, digits).is_err() {
        unreachable!();
    }
}

/// A byte as two hexadecimal digits in upper case.
fn upper_byte(byte: u8) -> [u8; 2]
    ensures { result ≡ byte_digits byte }
{
    let mut digits = [0; 2];
    encode(&[byte], &mut digits);
    digits.make_ascii_uppercase();
    digits
}

/// An address as four hexadecimal digits in upper case.
fn upper_digits(address: u16) -> [u8; 4]
    ensures { result ≡ address_digits address }
{
    let [low, high] = address.to_le_bytes();
    let mut digits = [0; 4];
    encode(&[high, low], &mut digits);
    digits.make_ascii_uppercase();
    digits
}

/// The low 24 bits of a number as six hexadecimal digits in lower case.
fn lower_digits(bits: u32) -> [u8; 6]
    ensures { result ≡ feature_digits bits }
{
    let [low, middle, high, _] = bits.to_le_bytes();
    let mut digits = [0; 6];
    encode(&[high, middle, low], &mut digits);
    digits
}

/// A number as eight hexadecimal digits in lower case.
fn sum_digits(sum: u32) -> [u8; 8]
    ensures { result ≡ sum_digits sum }
{
    let [low, middle, high, top] = sum.to_le_bytes();
    let mut digits = [0; 8];
    encode(&[top, high, middle, low], &mut digits);
    digits
}
