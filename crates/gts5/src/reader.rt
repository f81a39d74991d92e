//! Counts and bytes, taken from the front of what is left of a file.

ghost use Rattle.std.specs.Prelude.{◌≡◌, ◌≤◌, length, IfOk};
ghost use Rattle.gts5.specs.Faults.{offset_of, after_magic};
ghost use Rattle.gts5.specs.Reading.{bytes_at, byte_at, count_at};
ghost use Rattle.gts5.specs.Gives.{Gives};
ghost use Rattle.gts5.specs.declared.songs.TheConstants.{MOST_BYTES};

use crate::{MOST_BYTES, SongFault};

/// Takes pieces of a file of this length. Each method is given the bytes that are left of the file, and
/// gives what it takes from their front with the bytes that are left then.
#[derive(Clone, Copy)]
pub struct Reader {
    length: usize,
    ghost short_file: { length ≤ MOST_BYTES },
}

impl Reader {
    /// A reader of this file.
    pub fn of(file: &[u8]) -> Reader
        requires { length file.now ≤ MOST_BYTES }
        ensures { result.length ≡ length file.now }
    {
        Reader { length: file.len() }
    }

    /// Where these bytes begin in the file.
    pub fn offset(self, left: &[u8]) -> u32
        ensures { result ≡ offset_of self.length left.now }
    {
        self.length.saturating_sub(left.len()) as u32
    }

    /// The fault of a piece of which a byte is missing.
    fn truncated(self) -> SongFault
        ensures { result ≡ SongFault.Truncated self.length }
    {
        SongFault::Truncated {
            offset: self.length as u32,
        }
    }

    /// The next `count` bytes.
    ///
    /// # Errors
    ///
    /// The file ends before they do.
    #[tactic(auto, unfolding(crate::specs::Reading::bytes_at))]
    pub fn bytes<'a>(self, count: usize, left: &'a [u8]) -> Result<(&'a [u8], &'a [u8]), SongFault>
        ensures taken { Gives (λ x.
            (x.0.now, x.1.now)) result (bytes_at self.length count left.now) }
        ensures size { IfOk result (λ x. length x.0.now ≡ count) }
    {
        if left.len() < count {
            return Err(self.truncated());
        }
        Ok(left.split_at(count))
    }

    /// An array of bytes.
    ///
    /// # Errors
    ///
    /// The file ends before it does.
    #[tactic(auto, unfolding(crate::specs::Reading::bytes_at))]
    pub fn array<'a, const N: usize>(self, left: &'a [u8]) -> Result<([u8; N], &'a [u8]), SongFault>
        ensures { Gives (λ x. (x.0, x.1.now)) result (bytes_at self.length N left.now) }
    {
        match left.split_first_chunk::<N>() {
            Some((bytes, rest)) => Ok((*bytes, rest)),
            None => Err(self.truncated()),
        }
    }

    /// A count.
    ///
    /// # Errors
    ///
    /// The file ends before it.
    #[tactic(auto, unfolding(crate::specs::Reading::byte_at))]
    pub fn byte<'a>(self, left: &'a [u8]) -> Result<(u8, &'a [u8]), SongFault>
        ensures { Gives (λ x. (x.0, x.1.now)) result (byte_at self.length left.now) }
    {
        match left {
            [byte, rest @ ..] => Ok((*byte, rest)),
            [] => Err(self.truncated()),
        }
    }

    /// A count of at most `limit`.
    ///
    /// # Errors
    ///
    /// The file ends before it, or it is above `limit`.
    #[tactic(auto, unfolding(crate::specs::Reading::count_at))]
    pub fn count<'a>(self, limit: u8, left: &'a [u8]) -> Result<(u8, &'a [u8]), SongFault>
        ensures taken { Gives (λ x. (x.0, x.1.now)) result (count_at self.length limit left.now) }
        ensures within { IfOk result (λ x. x.0 ≤ limit) }
    {
        let (count, rest) = self.byte(left)?;
        if count > limit {
            return Err(SongFault::OutOfLimit {
                offset: self.offset(left),
            });
        }
        Ok((count, rest))
    }
}

/// What follows the magic.
///
/// # Errors
///
/// The file doesn't begin with `GTS5`.
#[tactic(auto, unfolding(crate::specs::Faults::after_magic))]
pub fn skip_magic(file: &[u8]) -> Result<&[u8], SongFault>
    ensures { Gives (λ rest. rest.now) result (after_magic file.now) }
{
    match file {
        [b'G', b'T', b'S', b'5', rest @ ..] => Ok(rest),
        _ => Err(SongFault::NotGts5),
    }
}
