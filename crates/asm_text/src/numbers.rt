//! Hexadecimal digits in capital letters.

ghost use Rattle.std.specs.Prelude.{◌≡◌, ◌<◌, ◌+◌, ◌^◌, slice_index};
ghost use Rattle.asm_text.specs.Numbers.{digit, byte_digits, word_digits};
ghost use Rattle.asm_text.specs.Reading.{digit_value, byte_value, word_value};

/// The sixteen digits.
pub const DIGITS: [u8; 16] = [
    b'0', b'1', b'2', b'3', b'4', b'5', b'6', b'7', b'8', b'9', b'A', b'B', b'C', b'D', b'E', b'F',
];

/// The digit of a number below 16.
fn digit(value: u8) -> u8
    requires { value < 16 }
    ensures { result ≡ digit value }
{
    DIGITS[usize::from(value)]
}

/// A byte as two digits.
pub(crate) fn byte_digits(byte: u8) -> [u8; 2]
    ensures { result ≡ byte_digits byte }
{
    [digit(byte / 16), digit(byte % 16)]
}

/// A number of two bytes as four digits.
pub(crate) fn word_digits(word: u16) -> [u8; 4]
    ensures { result ≡ word_digits word }
{
    let [high, low] = word.to_be_bytes();
    let [first, second] = byte_digits(high);
    let [third, fourth] = byte_digits(low);
    [first, second, third, fourth]
}

/// The byte at a place of a line; 0 behind its end.
pub(crate) fn byte_at(line: &[u8], place: usize) -> u8
    ensures { result ≡ slice_index line.now place }
{
    if place < line.len() { line[place] } else { 0 }
}

/// What a byte is worth as a digit, if it is one. Whether it is one is tried when the number is spelled again.
fn digit_value(byte: u8) -> u8
    ensures value { result ≡ digit_value byte }
    ensures bound { result < 16 }
{
    if byte < 64 {
        byte % 16
    } else {
        (byte % 16 + 9) % 16
    }
}

/// The byte that two digits at a place of a line spell.
pub(crate) fn byte_value(line: &[u8], place: usize) -> u8
    requires { place + 1 < 2 ^ 64 }
    ensures { result ≡ byte_value line.now place }
{
    let high = digit_value(byte_at(line, place));
    let low = digit_value(byte_at(line, place + 1));
    high * 16 + low
}

/// The number that four digits at a place of a line spell.
pub(crate) fn word_value(line: &[u8], place: usize) -> u16
    requires { place + 3 < 2 ^ 64 }
    ensures { result ≡ word_value line.now place }
{
    let high = byte_value(line, place);
    let low = byte_value(line, place + 2);
    u16::from(high) * 256 + u16::from(low)
}
