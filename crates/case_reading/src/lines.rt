//! What a line of a case asks for, by its first word.

use crate::after::Fact;
use crate::answer::{Said, Whole};
use crate::desk::{Change, Put};
use crate::devices::Failure;
use case_text::look_up;

/// What a line of a case asks for.
#[derive(Clone, Copy)]
pub enum Line {
    /// Says what must come of the status or the text of the last run.
    Said(Said),
    /// Says what must stand in a file.
    Stands(Fact),
    /// Says what must stand in the machine.
    Held(Held),
    /// Changes something: what is said of the last run ends before it.
    Does(Deed),
}

/// What a line says of the machine.
#[derive(Clone, Copy)]
pub enum Held {
    /// Bytes of its memory.
    Memory,
    /// How many stores its log has.
    Stores,
}

/// What a line changes.
#[derive(Clone, Copy)]
pub enum Deed {
    /// A file.
    Put(Put),
    /// What fails in the next run.
    Fail(Failure),
    /// The program is run.
    Run,
    /// Something else is asked.
    Ask(Question),
    /// An image is loaded.
    Load,
    /// The machine's memory is written.
    Poke,
}

/// What is asked of something else than the program.
#[derive(Clone, Copy)]
pub enum Question {
    /// The steps of a PSID file.
    Count,
    /// What a pattern packs to.
    Pack,
    /// What bytes unpack to.
    Unpack,
    /// What the reader of songs says of a file.
    Song,
    /// What the reader of PSID files says of it.
    Psid,
    /// What the reader of scripts says of it.
    Script,
    /// The registers after init and plays.
    Calls,
    /// The registers after plays.
    Plays,
}

/// What a line asks for, by its first word.
const LINES: [(&[u8], Line); 48] = [
    (b"status", Line::Said(Said::Status)),
    (b"text", Line::Said(Said::Text)),
    (b"piece", Line::Said(Said::Piece)),
    (b"rest", Line::Said(Said::Rest)),
    (b"call", Line::Said(Said::Call)),
    (b"as", Line::Said(Said::Whole(Whole::As))),
    (b"half", Line::Said(Said::Whole(Whole::Half))),
    (b"sum", Line::Said(Said::Whole(Whole::Sum))),
    (b"length", Line::Said(Said::Whole(Whole::Length))),
    (b"ends", Line::Said(Said::Whole(Whole::Ends))),
    (b"wrote", Line::Stands(Fact::Wrote)),
    (b"begins", Line::Stands(Fact::Begins)),
    (b"closes", Line::Stands(Fact::Closes)),
    (b"holds", Line::Stands(Fact::Holds)),
    (b"size", Line::Stands(Fact::Size)),
    (b"most", Line::Stands(Fact::Most)),
    (b"digest", Line::Stands(Fact::Digest)),
    (b"memory", Line::Held(Held::Memory)),
    (b"stores", Line::Held(Held::Stores)),
    (b"file", Line::Does(Deed::Put(Put::File(Change::New)))),
    (b"more", Line::Does(Deed::Put(Put::File(Change::More)))),
    (b"set", Line::Does(Deed::Put(Put::File(Change::Set)))),
    (b"cut", Line::Does(Deed::Put(Put::File(Change::Cut)))),
    (b"line", Line::Does(Deed::Put(Put::File(Change::Line)))),
    (b"generated", Line::Does(Deed::Put(Put::Generated))),
    (b"parts", Line::Does(Deed::Put(Put::Song))),
    (b"orders", Line::Does(Deed::Put(Put::Part(0)))),
    (b"instruments", Line::Does(Deed::Put(Put::Part(1)))),
    (b"wave", Line::Does(Deed::Put(Put::Part(2)))),
    (b"pulse", Line::Does(Deed::Put(Put::Part(3)))),
    (b"filter", Line::Does(Deed::Put(Put::Part(4)))),
    (b"speed", Line::Does(Deed::Put(Put::Part(5)))),
    (b"patterns", Line::Does(Deed::Put(Put::Part(6)))),
    (b"fail", Line::Does(Deed::Fail(Failure::Calls))),
    (b"fail-puts", Line::Does(Deed::Fail(Failure::Puts))),
    (b"poor", Line::Does(Deed::Fail(Failure::Memory))),
    (b"disk", Line::Does(Deed::Fail(Failure::Disk))),
    (b"run", Line::Does(Deed::Run)),
    (b"count", Line::Does(Deed::Ask(Question::Count))),
    (b"pack-pattern", Line::Does(Deed::Ask(Question::Pack))),
    (b"unpack-pattern", Line::Does(Deed::Ask(Question::Unpack))),
    (b"read-song", Line::Does(Deed::Ask(Question::Song))),
    (b"read-psid", Line::Does(Deed::Ask(Question::Psid))),
    (b"read-script", Line::Does(Deed::Ask(Question::Script))),
    (b"calls", Line::Does(Deed::Ask(Question::Calls))),
    (b"plays", Line::Does(Deed::Ask(Question::Plays))),
    (b"load", Line::Does(Deed::Load)),
    (b"poke", Line::Does(Deed::Poke)),
];

/// What a line asks for that begins with this word; none where it spells nothing.
pub fn line_of(word: &str) -> Option<Line> {
    look_up(&LINES, word.as_bytes())
}
