//! Bytes in upper case hexadecimal digits.

ghost use Rattle.std.specs.Prelude.{◌≡◌, ◌<◌, ◌++◌, slice_index, OnOk};
ghost use Rattle.hex.specs.Hex.{encode_upper, upper_digits};
ghost use Rattle.song_script.specs.Words.{two_digits};

use base::{ByteList, NoMemory};

/// The digit of a number below 16.
pub(crate) fn digit(value: u8) -> u8
    requires { value < 16 }
    ensures { result ≡ slice_index upper_digits value }
{
    let digits: &[u8] = b"0123456789ABCDEF";
    digits[usize::from(value)]
}

/// Adds a byte in two digits.
///
/// # Errors
///
/// Out of memory.
#[tactic(auto, unfolding(hex::specs::Hex::encode_with))]
pub(crate) fn put_digits(out: &mut ByteList, byte: u8) -> Result<(), NoMemory>
    ensures { OnOk result (out.new ≡ out.old ++ two_digits byte) }
{
    out.extend(&[digit(byte / 16), digit(byte % 16)])
}

/// Adds each of these bytes in two digits.
///
/// # Errors
///
/// Out of memory.
pub(crate) fn put_all_digits(out: &mut ByteList, bytes: &[u8]) -> Result<(), NoMemory>
    ensures { OnOk result (out.new ≡ out.old ++ encode_upper bytes.now) }
{
    for byte in bytes {
        put_digits(out, *byte)?;
    }
    Ok(())
}
