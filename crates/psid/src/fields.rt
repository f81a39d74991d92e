//! The header's fields: where they stand, and how their words are spelled.

ghost use Rattle.std.specs.Prelude.{◌≡◌, ◌+◌, ◌≤◌, length};
ghost use Rattle.psid.specs.Words.{word_bytes, number_bytes, with_bytes, word_at, number_at, address_at, text_at};

use byteorder::{BigEndian, ByteOrder, LittleEndian};

/// The offsets of the header's fields, in bytes: words where nothing else is said.
pub mod offset {
    /// `PSID`.
    pub const MAGIC: usize = 0x00;
    /// 2 in every file that is read.
    pub const VERSION: usize = 0x04;
    /// Where the header ends.
    pub const DATA: usize = 0x06;
    /// The address of the image; 0 where it stands in front of the image.
    pub const LOAD: usize = 0x08;
    /// The address that starts a song; 0 means the image's address.
    pub const INIT: usize = 0x0A;
    /// The address that is called for each frame.
    pub const PLAY: usize = 0x0C;
    /// The number of songs.
    pub const SONGS: usize = 0x0E;
    /// The song that a player begins with, counted from 1.
    pub const START_SONG: usize = 0x10;
    /// A number of four bytes.
    pub const SPEED: usize = 0x12;
    /// A text of 32 bytes.
    pub const NAME: usize = 0x16;
    /// A text of 32 bytes.
    pub const AUTHOR: usize = 0x36;
    /// A text of 32 bytes.
    pub const RELEASED: usize = 0x56;
    /// Bits 0 and 1: data of a kind of its own.
    pub const FLAGS: usize = 0x76;
    /// The header's length. In front of it stand start page, page length and a reserved word, all 0.
    pub const END: usize = 0x7C;
}

/// What a file begins with.
pub const MAGIC: &[u8] = b"PSID";

/// The one version that is read and written.
pub const VERSION: u16 = 2;

/// The one data offset: where the header ends.
pub const DATA_OFFSET: u16 = 0x7C;

/// The word at an offset, high byte first.
#[tactic(auto, unfolding(crate::specs::Words::word_at))]
pub fn word_at(file: &[u8], offset: usize) -> u16
    requires { offset + 2 ≤ length file.now }
    ensures { result ≡ word_at file.now offset }
{
    BigEndian::read_u16(&file[offset..])
}

/// The number of four bytes at an offset, highest byte first.
#[tactic(auto, unfolding(crate::specs::Words::number_at))]
pub fn number_at(file: &[u8], offset: usize) -> u32
    requires { offset + 4 ≤ length file.now }
    ensures { result ≡ number_at file.now offset }
{
    BigEndian::read_u32(&file[offset..])
}

/// The text of 32 bytes at an offset.
#[tactic(auto, unfolding(crate::specs::Words::text_at))]
pub fn text_at(file: &[u8], offset: usize) -> [u8; 32]
    requires { offset + 32 ≤ length file.now }
    ensures { result ≡ text_at file.now offset }
{
    let mut text = [0; 32];
    text.copy_from_slice(&file[offset..offset + 32]);
    text
}

/// The address that stands in front of an image, low byte first.
#[tactic(auto, unfolding(crate::specs::Words::address_at))]
pub fn address_at(file: &[u8], offset: usize) -> u16
    requires { offset + 2 ≤ length file.now }
    ensures { result ≡ address_at file.now offset }
{
    LittleEndian::read_u16(&file[offset..])
}

/// Puts bytes in at an offset.
#[tactic(auto, unfolding(crate::specs::Words::with_bytes))]
pub fn put_bytes(file: &mut [u8], offset: usize, piece: &[u8])
    requires { offset + length piece.now ≤ length file.old }
    ensures { file.new ≡ with_bytes file.old offset piece.now }
{
    file[offset..offset + piece.len()].copy_from_slice(piece);
}

/// Puts a word in at an offset, high byte first.
pub fn put_word(file: &mut [u8], offset: usize, word: u16)
    requires { offset + 2 ≤ length file.old }
    ensures { file.new ≡ with_bytes file.old offset (word_bytes word) }
{
    let mut bytes = [0; 2];
    BigEndian::write_u16(&mut bytes, word);
    put_bytes(file, offset, &bytes);
}

/// Puts a number of four bytes in at an offset, highest byte first.
pub fn put_number(file: &mut [u8], offset: usize, number: u32)
    requires { offset + 4 ≤ length file.old }
    ensures { file.new ≡ with_bytes file.old offset (number_bytes number) }
{
    let mut bytes = [0; 4];
    BigEndian::write_u32(&mut bytes, number);
    put_bytes(file, offset, &bytes);
}
