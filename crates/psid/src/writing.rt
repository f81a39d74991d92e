//! Writing a file field by field.

ghost use Rattle.std.specs.Prelude.{◌≡◌, IfOk};
ghost use Rattle.psid.specs.Words.{address_bytes};
ghost use Rattle.psid.specs.Format.{header_bytes, psid_bytes, IsHeader, IsWritable};
ghost use Rattle.psid.specs.Reading.{psid_read, init_or_load};

use crate::fields::{DATA_OFFSET, MAGIC, VERSION, offset, put_bytes, put_number, put_word};
use crate::{Header, NoMemory};
use byteorder::{ByteOrder, LittleEndian};
use std::alloc::Global;

/// The file of a header and an image: the load word is 0, and the image's address stands in front of it, low byte
/// first.
///
/// # Errors
///
/// Out of memory.
pub fn write(alloc: Global, header: &Header, load: u16, image: &[u8]) -> Result<Vec<u8>, NoMemory>
    requires { IsWritable header.now load image.now }
    ensures written { IfOk result (λ bytes. bytes.items ≡ psid_bytes header.now load image.now) }
    ensures read_back { IfOk result (λ bytes. psid_read bytes.items ≡ Ok (record {
      header = record header.now { init = init_or_load header.now.init load };
      load = load;
      image = image.now;
    })) }
{
    let mut file = Vec::new(alloc);
    file.extend_from_slice(&header_bytes(*header))?;
    file.extend_from_slice(&address_bytes(load))?;
    file.extend_from_slice(image)?;
    Ok(file)
}

/// An address, low byte first.
fn address_bytes(address: u16) -> [u8; 2]
    ensures { result ≡ address_bytes address }
{
    let mut bytes = [0; 2];
    LittleEndian::write_u16(&mut bytes, address);
    bytes
}

/// The header. The load word is 0: the image's address stands in front of the image.
fn header_bytes(header: Header) -> [u8; offset::END]
    ensures bytes { result ≡ header_bytes header }
    ensures ranges { IsHeader header }
{
    let mut bytes = [0; offset::END];
    put_bytes(&mut bytes, offset::MAGIC, MAGIC);
    put_word(&mut bytes, offset::VERSION, VERSION);
    put_word(&mut bytes, offset::DATA, DATA_OFFSET);
    put_word(&mut bytes, offset::LOAD, 0);
    put_word(&mut bytes, offset::INIT, header.init);
    put_word(&mut bytes, offset::PLAY, header.play);
    put_word(&mut bytes, offset::SONGS, header.songs);
    put_word(&mut bytes, offset::START_SONG, header.start_song);
    put_number(&mut bytes, offset::SPEED, header.speed);
    put_bytes(&mut bytes, offset::NAME, &header.name);
    put_bytes(&mut bytes, offset::AUTHOR, &header.author);
    put_bytes(&mut bytes, offset::RELEASED, &header.released);
    put_word(&mut bytes, offset::FLAGS, header.flags);
    bytes
}
