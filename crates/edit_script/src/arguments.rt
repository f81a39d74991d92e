//! The arguments behind a word.

ghost use Rattle.std.specs.Prelude.{◌≡◌, ◌≤◌, ◌+◌, take, sum, length, Some, None, MatchOption, IfSome};
ghost use Rattle.edit_script.specs.Reading.{argument_at, arguments_at};

/// The most bytes that the arguments of a line have.
pub const MOST_ARGUMENT_BYTES: usize = 33;

/// The bytes of a line's arguments, one after the other, and zeros behind them.
pub type Bytes = [u8; MOST_ARGUMENT_BYTES];

/// Reads arguments of these sizes, in bytes, which are all of a text.
pub fn read_arguments(sizes: &[usize], text: &[u8]) -> Option<Bytes>
    requires { sum sizes.now ≤ MOST_ARGUMENT_BYTES }
    ensures read { MatchOption result (arguments_at sizes.now text.now ≡ None)
        (λ bytes. arguments_at sizes.now text.now ≡ Some (take (sum sizes.now) bytes)) }
    ensures size { IfSome result (λ bytes. length bytes ≡ MOST_ARGUMENT_BYTES) }
{
    let mut bytes = [0; MOST_ARGUMENT_BYTES];
    let mut at = 0;
    let mut left = text;
    for size in sizes {
        left = read_argument(left, &mut bytes[at..at + *size])?;
        at += *size;
    }
    if left.is_empty() { Some(bytes) } else { None }
}

/// Reads an argument that fills these bytes: one space, and two hexadecimal digits for each byte. Gives what stands
/// behind it.
fn read_argument<'a>(text: &'a [u8], bytes: &mut [u8]) -> Option<&'a [u8]>
    ensures { MatchOption result (argument_at (length bytes.old) text.now ≡ None)
        (λ rest. argument_at (length bytes.old) text.now ≡ Some (bytes.new, rest.now)) }
{
    let behind = text.strip_prefix(b" ")?;
    let (digits, rest) = behind.split_at_checked(2 * bytes.len())?;
    hex::decode_to_slice(digits, bytes).ok()?;
    Some(rest)
}
