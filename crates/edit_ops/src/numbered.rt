//! Patterns with their numbers, exchanged with those of a song.

ghost use Rattle.std.specs.Prelude.{◌≡◌, true, length, reverse};
ghost use Rattle.edit_ops.specs.Numbered.{are_stored, with_all, exchanged};

use base::Items;
use song_model::{Pattern, PatternList};

/// A pattern with its number.
#[derive(Drop)]
pub struct NumberedPattern {
    /// The number, counted from 0.
    pub number: u8,
    /// The pattern.
    pub rows: Pattern,
}

/// Exchanges stored patterns with these, one after the other.
fn exchange_each(patterns: &mut PatternList, parts: &mut Vec<NumberedPattern>)
    requires { are_stored (length patterns.old) parts.old.items ≡ true }
    ensures after { patterns.new ≡ with_all patterns.old parts.old.items }
    ensures before { parts.new.items ≡ exchanged patterns.old parts.old.items }
{
    for i in 0..parts.len() {
        let number = usize::from(parts[i].number);
        patterns.exchange_with(number, &mut parts[i].rows);
    }
}

/// Exchanges stored patterns with these, one after the other; those that were stored come in the order in which
/// the way back takes them, the last one first.
pub(crate) fn exchange_patterns(
    patterns: &mut PatternList,
    parts: Items<NumberedPattern>,
) -> Items<NumberedPattern>
    requires { are_stored (length patterns.old) parts ≡ true }
    ensures after { patterns.new ≡ with_all patterns.old parts }
    ensures before { result ≡ reverse (exchanged patterns.old parts) }
{
    let mut parts = parts;
    let mut list = parts.take();
    exchange_each(patterns, &mut list);
    list.reverse();
    Items::from_vec(list)
}
