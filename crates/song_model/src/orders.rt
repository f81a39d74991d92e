//! Orderlists, subtunes, and the places of an orderlist's plays.

ghost use Rattle.std.specs.Prelude.{◌≡◌, ℕ, ◌≤◌, ◌<◌, ◌↔◌, length, All, IfOk, IfSome, IfNone, IsErrOf};
ghost use Rattle.base.specs.FirstBad.{IsFirstBad};
ghost use Rattle.song_model.specs.OrderLimits.{IsEntry, AreEntries};
ghost use Rattle.song_model.specs.LookUp.{is_playable_subtune};

use crate::{Bounded, LimitFault};
use base::{Items, NoMemory};
use std::alloc::Global;
use std::marker::Model;

/// The most bytes before the endmark of an orderlist.
pub const MOST_ENTRIES: usize = 254;

/// The byte that ends an orderlist.
pub const ENDMARK: u8 = 0xff;

/// The most subtunes of a song.
pub const MOST_SUBTUNES: usize = 32;

/// A list of at most 254 bytes below `$FF`: the bytes of an orderlist before its endmark.
/// `$00-$CF` is a pattern number, `$D0-$DF` a repeat, `$E0-$FE` a transpose.
#[derive(Drop)]
pub struct OrderEntries {
    bytes: Items<u8>,
}

impl Model for OrderEntries {
    ghost use Rattle.std.specs.Prelude.{List, ℕ};
    ghost use Rattle.song_model.specs.OrderLimits.{AreEntries};

    ghost Value = { List ℕ };

    ghost view = { λ entries. entries.bytes };

    ghost invariant = { λ entries. AreEntries entries.bytes };
}

impl OrderEntries {
    /// The list of these bytes, for a reader that has looked at each of them.
    pub fn from_vec(bytes: Vec<u8>) -> OrderEntries
        requires { AreEntries bytes.items }
        ensures { result ≡ bytes.items }
    {
        OrderEntries {
            bytes: Items::from_vec(bytes),
        }
    }

    /// The bytes in order.
    pub fn as_slice(&self) -> &[u8]
        ensures bytes { result.now ≡ self.now }
        ensures limits { AreEntries self.now }
    {
        self.bytes.as_slice()
    }

    /// The same bytes.
    ///
    /// # Errors
    ///
    /// Out of memory.
    pub fn copy(&self, alloc: Global) -> Result<OrderEntries, NoMemory>
        ensures { IfOk result (λ copy. copy ≡ self.now) }
    {
        Ok(OrderEntries {
            bytes: self.bytes.copy(alloc)?,
        })
    }
}

/// An orderlist: what one channel plays.
#[derive(Drop)]
pub struct Order {
    /// The bytes before its endmark.
    pub entries: OrderEntries,
    /// Where it goes on at its end: a place in `entries`, counted from 0.
    pub restart: u8,
}

impl Order {
    /// An orderlist of these bytes, without an endmark.
    ///
    /// # Errors
    ///
    /// `BadLength` where they are more than 254, `BadItem` at the first endmark; out of memory.
    pub fn from_bytes(alloc: Global, entries: &[u8], restart: u8) -> Result<Order, LimitFault>
        ensures kept { IfOk result (λ order. (order.entries ≡ entries.now) × (order.restart ≡
            restart)) }
        ensures bad_length { IsErrOf result LimitFault.BadLength ↔
            MOST_ENTRIES < length entries.now }
        ensures bad_item { (place : ℕ) → IsErrOf result (LimitFault.BadItem place)
            ↔ ((length entries.now ≤ MOST_ENTRIES) × IsFirstBad IsEntry entries.now place) }
    {
        if entries.len() > MOST_ENTRIES {
            return Err(LimitFault::BadLength);
        }
        if let Some(place) = first_endmark(entries) {
            return Err(LimitFault::BadItem { place });
        }
        match Items::from_slice(alloc, entries) {
            Ok(bytes) => Ok(Order {
                entries: OrderEntries { bytes },
                restart,
            }),
            Err(NoMemory) => Err(LimitFault::NoMemory),
        }
    }

    /// An equal orderlist.
    ///
    /// # Errors
    ///
    /// Out of memory.
    pub fn copy(&self, alloc: Global) -> Result<Order, NoMemory>
        ensures { IfOk result (λ copy. copy ≡ self.now) }
    {
        Ok(Order {
            entries: self.entries.copy(alloc)?,
            restart: self.restart,
        })
    }
}

/// The least place of an endmark.
fn first_endmark(entries: &[u8]) -> Option<u16>
    requires { length entries.now ≤ MOST_ENTRIES }
    ensures found { IfSome result (IsFirstBad IsEntry entries.now) }
    ensures none { IfNone result (All IsEntry entries.now) }
{
    let place = entries.iter().position(|byte| *byte == ENDMARK)?;
    Some(place as u16)
}

/// Three orderlists, one for each channel.
#[derive(Drop)]
pub struct Subtune {
    /// That of channel 1.
    pub one: Order,
    /// That of channel 2.
    pub two: Order,
    /// That of channel 3.
    pub three: Order,
}

impl Subtune {
    /// An equal subtune.
    ///
    /// # Errors
    ///
    /// Out of memory.
    pub fn copy(&self, alloc: Global) -> Result<Subtune, NoMemory>
        ensures { IfOk result (λ copy. copy ≡ self.now) }
    {
        Ok(Subtune {
            one: self.one.copy(alloc)?,
            two: self.two.copy(alloc)?,
            three: self.three.copy(alloc)?,
        })
    }

    /// Whether none of its orderlists is empty.
    pub fn is_playable(&self) -> bool
        ensures { result ≡ is_playable_subtune self.now }
    {
        let one = self.one.entries.as_slice();
        let two = self.two.entries.as_slice();
        let three = self.three.entries.as_slice();
        !one.is_empty() && !two.is_empty() && !three.is_empty()
    }
}

/// The subtunes of a song: at most 32.
pub type SubtuneList = Bounded<Subtune, MOST_SUBTUNES>;

/// One play of an orderlist: a pattern, and the half tones that are added to its notes, -16 to 14.
#[derive(Clone, Copy, Debug, PartialEq, Eq)]
pub struct Step {
    /// The pattern's number, counted from 0.
    pub pattern: u8,
    /// What is added to its notes, in half tones.
    pub transpose: i8,
}

/// Where a walk along an orderlist stands: the place of the next byte, counted from 0, the transpose
/// in half tones, and how often the next pattern is played again.
#[derive(Clone, Copy, Debug, PartialEq, Eq)]
pub struct OrderPlace {
    /// The place of the next byte.
    pub place: u8,
    /// The transpose, in half tones.
    pub transpose: i8,
    /// How often the next pattern is played again.
    pub repeat: u8,
}
