//! Reading a file by the six rules.

ghost use Rattle.std.specs.Prelude.{◌≡◌, ◌≤◌, ◌⊎◌, length, IfOk, IfErr, true};
ghost use Rattle.psid.specs.declared.header.Psid.{Psid};
ghost use Rattle.psid.specs.declared.faults.PsidFault.{PsidFault};
ghost use Rattle.psid.specs.Format.{IsWritable};
ghost use Rattle.psid.specs.Reading.{is_supported, has_good_fields, has_address, load_of, image_of, header_of, psid_read};

use crate::fields::{DATA_OFFSET, MAGIC, VERSION, address_at, number_at, offset, text_at, word_at};
use crate::{ByteList, Header, Psid, PsidFault};
use std::alloc::Global;

/// The most songs that a file has.
const MOST_SONGS: u16 = 256;

/// Bits 0 and 1 of the flags: data for a player or a computer of its own kind.
const KIND_BITS: u16 = 0b11;

/// The number of addresses that there are: an image ends below it.
pub const ADDRESSES: usize = 65_536;

/// The file that bytes spell: its header, where an init of 0 is given as the image's address, that address, and the
/// image, which is all bytes from its place to the end.
///
/// # Errors
///
/// The fault of the first of the six rules that is broken; or out of memory.
#[tactic(auto, unfolding(crate::specs::Reading::psid_read))]
pub fn read(alloc: Global, bytes: &[u8]) -> Result<Psid, PsidFault>
    // What is answered is what the rules say.
    ensures found { IfOk result (λ psid. psid_read bytes.now ≡ Ok psid) }
    ensures fault { IfErr result (λ fault. (fault ≡ PsidFault.NoMemory) ⊎ (psid_read bytes.now ≡
        Err fault)) }

    // What is answered may be written: its image doesn't pass $FFFF, it has 1 to 256 songs, and so on.
    ensures writable { IfOk result (λ psid. IsWritable psid.header psid.load psid.image) }

    // What the rules say is answered; a fault takes no memory.
    ensures only { (psid : Psid) → psid_read bytes.now ≡ Ok psid →
        (result ≡ Ok psid) ⊎ (result ≡ Err PsidFault.NoMemory) }
    ensures exact { (fault : PsidFault) → psid_read bytes.now ≡ Err fault → result ≡ Err fault }
{
    if !bytes.starts_with(MAGIC) {
        return Err(PsidFault::NotPsid);
    }
    if bytes.len() < offset::END {
        return Err(PsidFault::Truncated);
    }
    if !is_supported(bytes) {
        return Err(PsidFault::Unsupported);
    }
    if !has_good_fields(bytes) {
        return Err(PsidFault::BadField);
    }
    if has_address(bytes) && bytes.len() < offset::END + 2 {
        return Err(PsidFault::Truncated);
    }
    let load = load_of(bytes);
    let image = image_of(bytes);
    if image.len() > ADDRESSES - usize::from(load) {
        return Err(PsidFault::BadField);
    }
    let header = header_of(bytes, load);
    let image = ByteList::from_slice(alloc, image)?;
    Ok(Psid {
        header,
        load,
        image,
    })
}

/// Whether a header is of the version and of a kind that is read, and names a play routine.
#[tactic(auto, unfolding(crate::specs::Reading::is_supported))]
fn is_supported(file: &[u8]) -> bool
    requires { 124 ≤ length file.now }
    ensures { result ≡ is_supported file.now }
{
    word_at(file, offset::VERSION) == VERSION
        && word_at(file, offset::PLAY) != 0
        && word_at(file, offset::FLAGS) & KIND_BITS == 0
}

/// Whether a header's data offset, number of songs and start song are in their ranges.
#[tactic(auto, unfolding(crate::specs::Reading::has_good_fields))]
fn has_good_fields(file: &[u8]) -> bool
    requires { 124 ≤ length file.now }
    ensures { result ≡ has_good_fields file.now }
{
    let songs = word_at(file, offset::SONGS);
    let start_song = word_at(file, offset::START_SONG);
    word_at(file, offset::DATA) == DATA_OFFSET
        && (1..=MOST_SONGS).contains(&songs)
        && (1..=songs).contains(&start_song)
}

/// Whether the image's address stands in front of it.
#[tactic(auto, unfolding(crate::specs::Reading::has_address))]
fn has_address(file: &[u8]) -> bool
    requires { 124 ≤ length file.now }
    ensures { result ≡ has_address file.now }
{
    word_at(file, offset::LOAD) == 0
}

/// The image's address.
#[tactic(auto, unfolding(crate::specs::Reading::load_of))]
fn load_of(file: &[u8]) -> u16
    requires header { 124 ≤ length file.now }
    requires address { has_address file.now ≡ true → 126 ≤ length file.now }
    ensures { result ≡ load_of file.now }
{
    if has_address(file) {
        address_at(file, offset::END)
    } else {
        word_at(file, offset::LOAD)
    }
}

/// The image.
#[tactic(auto, unfolding(crate::specs::Reading::image_of))]
fn image_of(file: &[u8]) -> &[u8]
    requires header { 124 ≤ length file.now }
    requires address { has_address file.now ≡ true → 126 ≤ length file.now }
    ensures { result.now ≡ image_of file.now }
{
    if has_address(file) {
        &file[offset::END + 2..]
    } else {
        &file[offset::END..]
    }
}

/// The header's fields.
#[tactic(auto, unfolding(crate::specs::Reading::header_of))]
fn header_of(file: &[u8], load: u16) -> Header
    requires header { 124 ≤ length file.now }
    requires address { load ≡ load_of file.now }
    ensures { result ≡ header_of file.now }
{
    let init = word_at(file, offset::INIT);
    Header {
        init: if init == 0 { load } else { init },
        play: word_at(file, offset::PLAY),
        songs: word_at(file, offset::SONGS),
        start_song: word_at(file, offset::START_SONG),
        speed: number_at(file, offset::SPEED),
        name: text_at(file, offset::NAME),
        author: text_at(file, offset::AUTHOR),
        released: text_at(file, offset::RELEASED),
        flags: word_at(file, offset::FLAGS),
    }
}
