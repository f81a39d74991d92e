//! Orderlists and subtunes.

ghost use Rattle.std.specs.Prelude.{◌≡◌, ◌≤◌, ◌<◌, length, IfSome, IfNone};
ghost use Rattle.gts5.specs.Reading.{endmark_of, order_at, subtune_at, subtunes_at, each_at};
ghost use Rattle.gts5.specs.Gives.{Gives};

use crate::SongFault;
use crate::reader::Reader;
use song_model::{ENDMARK, Order, OrderEntries, Subtune, SubtuneList};
use std::alloc::Global;

impl Reader {
    /// An orderlist, cut at its first endmark.
    ///
    /// # Errors
    ///
    /// The file ends before the orderlist does, or no endmark is among its bytes; or out of memory.
    #[tactic(auto, unfolding(crate::specs::Reading::order_at))]
    fn order<'a>(self, alloc: Global, left: &'a [u8]) -> Result<(Order, &'a [u8]), SongFault>
        ensures { Gives (λ x. (x.0, x.1.now)) result (order_at self.length left.now) }
    {
        let (count, rest) = self.byte(left)?;
        let (piece, rest) = self.bytes(usize::from(count) + 1, rest)?;
        let place = endmark(piece);
        if place < usize::from(count) {
            let bytes = Vec::from_slice(alloc, &piece[..place])?;
            let order = Order {
                entries: OrderEntries::from_vec(bytes),
                restart: piece[place + 1],
            };
            Ok((order, rest))
        } else {
            Err(SongFault::BadOrder {
                offset: self.offset(left),
            })
        }
    }

    /// The three orderlists of a subtune.
    ///
    /// # Errors
    ///
    /// The first fault in them; or out of memory.
    #[tactic(auto, unfolding(crate::specs::Reading::subtune_at))]
    fn subtune<'a>(self, alloc: Global, left: &'a [u8]) -> Result<(Subtune, &'a [u8]), SongFault>
        ensures { Gives (λ x. (x.0, x.1.now)) result (subtune_at self.length left.now) }
    {
        let (one, left) = self.order(alloc, left)?;
        let (two, left) = self.order(alloc, left)?;
        let (three, left) = self.order(alloc, left)?;
        Ok((Subtune { one, two, three }, left))
    }

    /// The next `count` subtunes.
    ///
    /// # Errors
    ///
    /// The first fault in them; or out of memory.
    fn some_subtunes<'a>(
        self,
        alloc: Global,
        count: u8,
        left: &'a [u8],
    ) -> Result<(SubtuneList, &'a [u8]), SongFault>
        requires { count ≤ 32 }
        ensures { Gives (λ x.
            (x.0, x.1.now)) result (each_at (subtune_at self.length) count left.now) }
    {
        let mut subtunes = SubtuneList::new(alloc);
        let mut rest = left;
        for _i in 0..count {
            let (subtune, after) = self.subtune(alloc, rest)?;
            if let Err(fault) = subtunes.push(subtune) {
                return Err(SongFault::of_push(fault));
            }
            rest = after;
        }
        Ok((subtunes, rest))
    }

    /// The count of the subtunes and the subtunes.
    ///
    /// # Errors
    ///
    /// The first fault in them, a count above 32 too; or out of memory.
    #[tactic(auto, unfolding(crate::specs::Reading::subtunes_at))]
    pub fn subtunes<'a>(
        self,
        alloc: Global,
        left: &'a [u8],
    ) -> Result<(SubtuneList, &'a [u8]), SongFault>
        ensures { Gives (λ x. (x.0, x.1.now)) result (subtunes_at self.length left.now) }
    {
        let (count, left) = self.count(32, left)?;
        self.some_subtunes(alloc, count, left)
    }
}

/// The place of the first endmark, or the length where there is none.
fn endmark(piece: &[u8]) -> usize
    ensures place { result ≡ endmark_of piece.now }
    ensures within { result ≤ length piece.now }
{
    match piece.iter().position(|byte| *byte == ENDMARK) {
        Some(place) => place,
        None => piece.len(),
    }
}
