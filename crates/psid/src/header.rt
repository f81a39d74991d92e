//! What a PSID v2 file holds.

use crate::ByteList;

/// The fields of a header that a player goes by.
#[derive(Clone, Copy, Debug, PartialEq, Eq)]
pub struct Header {
    /// The address that starts a song, with the song's number from 0 in the accumulator.
    pub init: u16,
    /// The address that is called for each frame.
    pub play: u16,
    /// How many songs there are, 1 to 256.
    pub songs: u16,
    /// The song that a player begins with, counted from 1.
    pub start_song: u16,
    /// A bit for each song: 0 for a call at each vertical blank, 1 for a timer.
    pub speed: u32,
    /// The song's name, padded with 0.
    pub name: [u8; 32],
    /// The author's name, padded with 0.
    pub author: [u8; 32],
    /// The year and the publisher, padded with 0.
    pub released: [u8; 32],
    /// Bits 0 and 1: data of a kind of its own. Bits 2 and 3: PAL, NTSC or both. Bits 4 and 5: 6581, 8580 or both.
    pub flags: u16,
}

/// A file: its header, and the image with the address at which it is loaded.
#[derive(Drop)]
pub struct Psid {
    pub header: Header,
    pub load: u16,
    pub image: ByteList,
}
