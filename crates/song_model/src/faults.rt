//! What the calls of this crate answer in place of a value.

/// Why a list can't be part of a song.
#[derive(Clone, Copy, Debug, PartialEq, Eq)]
pub enum LimitFault {
    /// The list's length is out of its limit, or the list is full.
    BadLength,
    /// An item is out of its range; this is the least place of one, counted from 0.
    BadItem { place: u16 },
    /// Out of memory.
    NoMemory,
}

/// Why an item wasn't appended to a list.
#[derive(Clone, Copy, Debug, PartialEq, Eq)]
pub enum PushFault {
    /// The list has as many items as its limit allows.
    Full,
    /// Out of memory.
    NoMemory,
}
