//! The packed form of a song: what the player reads in place of the song's patterns.
//!
//! A packed pattern is a list of entries and a last byte `$00`; an entry is a note, a rest or a run of rests, and
//! names instrument and command only where they change. `PackedSpells` says what bytes spell, and `PackedText` which of
//! their spellings is packed; `pattern_pack` has the calls.
//!
//! A packed song has the packed patterns and orderlists of a song, and of its instruments and tables only what is used;
//! `packing_rules` says under which numbers. Read as a song it is `unpacked_song`, and it stands for the songs that
//! this one plays as (`StandsFor`).
//!
//! The layer's one contract: `PackedSong::size` is how many bytes that is, and `PackedSong::walk_count` how many bytes
//! of an orderlist are looked at, at most, to come to a pattern, which is a byte where each orderlist goes on for ever;
//! and `PackedSong::first_holder` from which number on its instruments hold the gate or the envelope before a note,
//! where they stand in the order of what they hold.
//!
//! It stands on `song_model` for tables and lists with limits, on `play_model` for what a song sounds like, on
//! `song_facts` for a song's facts and what an instrument holds, on `asked_numbers` for the numbers that it asks for,
//! and on `arrayvec` for patterns that take no memory. See `docs/packed-form.md`.
#![tactic(auto)]

/// Facts about the definitions.
pub mod claims;
mod entries;
mod faults;
mod holders;
mod packed_patterns;
mod packed_songs;
mod places;
mod sizes;
mod walk_counts;

pub use entries::{Command, Entry, EntryKind};
pub use faults::PackedFault;
pub use packed_patterns::{MOST_PACKED_BYTES, PackedPattern};
pub use packed_songs::{
    MOST_ORDER_BYTES, PackedInstrument, PackedInstrumentList, PackedOrder, PackedPatternList,
    PackedSong, PackedSubtune, PackedSubtuneList,
};
pub use places::{Place, Taken};
pub use sizes::MOST_PACKED_SIZE;
