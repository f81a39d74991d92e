//! Lines of a text.

ghost use Rattle.std.specs.Prelude.{◌≡◌, ◌==◌, [], ◌∷◌, ◌+◌, length, position, MatchOption};
ghost use Rattle.asm_text.specs.Lines.{parts};

/// The first line of a text, without the line feed that ends it, and what follows; `None` where no line feed ends it.
pub(crate) fn split_line(text: &[u8]) -> Option<(&[u8], &[u8])>
    ensures lines { MatchOption result (parts text.now ≡ text.now ∷ [])
        (λ split. parts text.now ≡ split.0.now ∷ parts split.1.now) }
    ensures sizes { MatchOption result (position (λ byte. byte == 10) text.now ≡ None)
        (λ split. length split.0.now + 1 + length split.1.now ≡ length text.now) }
{
    let end = place_of(b'\n', text)?;
    Some((&text[..end], &text[end + 1..]))
}

/// The least place of a byte in a text.
fn place_of(byte: u8, text: &[u8]) -> Option<usize>
    ensures { result ≡ position (λ other. other == byte) text.now }
{
    text.iter().position(|other| *other == byte)
}
