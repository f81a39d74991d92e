//! How many bytes an image, its code and the parts of its code take.

ghost use Rattle.std.specs.Prelude.{◌≡◌, ◌≤◌, length};
ghost use Rattle.scope_parts.specs.Parts.{bytes_of};
ghost use Rattle.image_parts.specs.CodeParts.{length_of, length_of_part};
ghost use Rattle.image_parts.specs.Lengths.{slide_bytes, read_of, frequency_bytes, bytes_of_image};

use crate::parts::ALWAYS;
use kept_lines::{Conditions, asked_by};
use packed_form::PackedSong;
use player_memory::conditions::NOTE_DEPENDENT;
use player_memory::{bytes_read, gap_size};

/// The two zeros that every image has among its lists, for row 0 of the sides of the speed table.
const ZERO_BYTES: u32 = 2;

/// The bytes of the code whose bytes have these parts, and of the zeros.
pub fn code_length(code: &[u8]) -> u32
    requires { length code.now ≤ 65535 }
    ensures { result ≡ length_of code.now }
{
    code.len() as u32 + ZERO_BYTES
}

/// How many bytes of a list are of a part.
fn bytes_of(part: u8, code: &[u8]) -> u32
    requires { length code.now ≤ 65535 }
    ensures bytes { result ≡ bytes_of part code.now }
    ensures most { result ≤ 65535 }
{
    let mut count = 0;
    for own in code {
        if *own == part {
            count += 1;
        }
    }
    count
}

/// The bytes of a part of the code whose bytes have these parts; the one that every image has is counted with the
/// zeros.
pub fn part_length(code: &[u8], part: u8) -> u32
    requires { length code.now ≤ 65535 }
    ensures { result ≡ length_of_part code.now part }
{
    let own = bytes_of(part, code);
    if part == ALWAYS {
        own + ZERO_BYTES
    } else {
        own
    }
}

/// The bytes of the lists of slides and of periods: where a song has calculated speeds, three for each row of the speed
/// table and for row 0.
pub fn slide_bytes(asked: Conditions, rows: u32) -> u32
    requires { rows ≤ 255 }
    ensures { result ≡ slide_bytes asked.0 rows }
{
    if asked.hold(NOTE_DEPENDENT) {
        3 * (rows + 1)
    } else {
        0
    }
}

/// The bytes of a packed song that the player reads, and that stand in an image: those of the fields of instruments that
/// no line reads are left out, and the addresses of the orderlists of one subtune alone; those that stand alone for all
/// instruments come in.
pub fn read_size(packed: &PackedSong) -> u32
    ensures bytes { result ≡ read_of packed.now }
    ensures most { result ≤ 81043 }
{
    bytes_read(packed)
}

/// The bytes of the frequencies of a packed song, two of each, and of the gap in front of them.
pub fn frequency_bytes(packed: &PackedSong) -> u32
    ensures bytes { result ≡ frequency_bytes packed.now.numbers (read_of packed.now) }
    ensures most { result ≤ 258 }
{
    gap_size(packed) + 2 * u32::from(packed.numbers.count)
}

/// The bytes of the image of a packed song whose code has these parts: those that are read of the packed song, those of
/// its slides and of its frequencies, and those of the code and the zeros.
pub fn image_length(packed: &PackedSong, code: &[u8]) -> u32
    requires { length code.now ≤ 65535 }
    ensures { result ≡ bytes_of_image packed.now code.now }
{
    let rows = packed.speed.as_slice().len() as u32;
    read_size(packed)
        + slide_bytes(asked_by(packed), rows)
        + frequency_bytes(packed)
        + code_length(code)
}
