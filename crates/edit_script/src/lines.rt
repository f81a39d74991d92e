//! Lines of a text.

ghost use Rattle.std.specs.Prelude.{◌≡◌, ◌==◌, ◌∷◌, ◌<◌, ◌↔◌, IsTrue, length, position};
ghost use Rattle.std.specs.Str.Lines.{lines, strip_carriage_return};
ghost use Rattle.edit_script.specs.Spells.{SaysNothing};

/// The first line of a text, without the line feed that ends it and one carriage return before that, and what follows.
/// The last line may lack the line feed, and keeps a carriage return then.
pub fn split_line(text: &[u8]) -> (&[u8], &[u8])
    requires { 0 < length text.now }
    ensures lines { lines text.now ≡ result.0.now ∷ lines result.1.now }
    ensures shorter { length result.1.now < length text.now }
{
    match place_of(b'\n', text) {
        Some(end) => (without_carriage_return(&text[..end]), &text[end + 1..]),
        None => (text, &[]),
    }
}

/// The least place of a byte in a text.
pub fn place_of(byte: u8, text: &[u8]) -> Option<usize>
    ensures { result ≡ position (λ other. other == byte) text.now }
{
    text.iter().position(|other| *other == byte)
}

/// A line without the carriage return at its end, where it has one.
fn without_carriage_return(line: &[u8]) -> &[u8]
    ensures { result.now ≡ strip_carriage_return line.now }
{
    match line {
        [front @ .., b'\r'] => front,
        _ => line,
    }
}

/// Whether a line is empty or a comment.
pub fn says_nothing(line: &[u8]) -> bool
    ensures { IsTrue result ↔ SaysNothing line.now }
{
    match line {
        [] => true,
        [first, ..] => *first == b'#',
    }
}
