//! The song: what a GoatTracker 2 file of the format GTS5 holds, as types that keep the format's limits.
//!
//! The layer's one contract: a value of these types is within the limits of the format, a constructor
//! keeps exactly the items that it was given, and a refusal leaves everything as it was.
//! Its definitions say how a song is spelled (`canonical`), what an orderlist plays (`played`), what a
//! look-up finds where nothing is stored, and which table a pointer points into. It names the features
//! that a player may do without.
//! It stands on `base`. Readers, editors, the playroutine and the packer stand on it.
#![tactic(auto)]

mod faults;
mod features;
mod instruments;
/// Facts about the definitions.
pub mod claims;
mod lists;
mod look_ups;
mod orders;
mod patterns;
mod pointers;
mod rows;
mod songs;
mod steps;
mod tables;

pub use base::{ByteList, NoMemory};
pub use faults::{LimitFault, PushFault};
pub use features::{Feature, FeatureBits};
pub use instruments::{Instrument, InstrumentList, MOST_INSTRUMENTS};
pub use lists::Bounded;
pub use orders::{
    ENDMARK, MOST_ENTRIES, MOST_SUBTUNES, Order, OrderEntries, OrderPlace, Step, Subtune,
    SubtuneList,
};
pub use patterns::{MOST_PATTERNS, MOST_ROWS, Pattern, PatternList};
pub use pointers::{command_table, wave_row_table};
pub use rows::Row;
pub use songs::Song;
pub use tables::{MOST_TABLE_ROWS, Table, TableName, TableRow};
