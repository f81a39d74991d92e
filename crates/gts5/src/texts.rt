//! The three texts in front of a song.

ghost use Rattle.gts5.specs.Reading.{texts_at};
ghost use Rattle.gts5.specs.Gives.{Gives};

use crate::SongFault;
use crate::reader::Reader;

/// Song name, author and copyright.
#[derive(Clone, Copy)]
pub struct Texts {
    pub name: [u8; 32],
    pub author: [u8; 32],
    pub copyright: [u8; 32],
}

impl Reader {
    /// The three texts.
    ///
    /// # Errors
    ///
    /// The file ends before they do.
    #[tactic(auto, unfolding(crate::specs::Reading::texts_at))]
    pub fn texts<'a>(self, left: &'a [u8]) -> Result<(Texts, &'a [u8]), SongFault>
        ensures { Gives (λ x. (x.0, x.1.now)) result (texts_at self.length left.now) }
    {
        let (name, left) = self.array::<32>(left)?;
        let (author, left) = self.array::<32>(left)?;
        let (copyright, left) = self.array::<32>(left)?;
        Ok((
            Texts {
                name,
                author,
                copyright,
            },
            left,
        ))
    }
}
