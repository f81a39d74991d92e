//! From numbers to their text.

ghost use Rattle.std.specs.Prelude.{◌≡◌, ◌++◌, ◌∷◌, [], decimal, OnOk};
ghost use Rattle.bound_text.specs.Texts.{numbers_text};

use base::NoMemory;

/// Appends a number's line.
fn push_line(text: &mut Vec<u8>, number: u64) -> Result<(), NoMemory>
    ensures { OnOk result (text.new.items ≡ text.old.items ++ (decimal number ++ 10 ∷ [])) }
{
    let mut digits = itoa::Buffer::new();
    text.extend_from_slice(digits.format(number).as_bytes())?;
    text.push(b'\n')?;
    Ok(())
}

/// Appends the text of numbers: each in decimal, with a line feed behind it.
///
/// # Errors
///
/// Out of memory.
pub fn push_text(text: &mut Vec<u8>, numbers: &[u64]) -> Result<(), NoMemory>
    ensures { OnOk result (text.new.items ≡ text.old.items ++ numbers_text numbers.now) }
{
    for number in numbers {
        push_line(&mut *text, *number)?;
    }
    Ok(())
}
