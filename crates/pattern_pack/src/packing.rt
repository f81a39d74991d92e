//! Packing a pattern.

ghost use Rattle.std.specs.Prelude.{◌≡◌, ◌+◌, ◌<◌, ◌≤◌, ◌↔◌, ◌++◌, ℕ, List, IfOk};
ghost use Rattle.std.specs.Prelude.{IfErr, IsErrOf, MatchResult, length, drop, min};
ghost use Rattle.song_model.specs.PatternLimits.{IsPattern};
ghost use Rattle.packed_form.specs.Entries.{IsEntry, IsKind, entry_bytes, kind_bytes, no_command, command_of};
ghost use Rattle.packed_form.specs.PackedSpells.{PackedSpells};
ghost use Rattle.packed_form.specs.Normal.{normal_rows, normal_row, normal_from, last_instrument};
ghost use Rattle.packed_form.specs.PackedText.{packed_text, first_entry, first_kind, keeps, is_bare_rest, rests_in_front};
ghost use Rattle.packed_form.specs.declared.packed_patterns.TheConstants.{MOST_PACKED_BYTES};
ghost use Rattle.pattern_pack.specs.declared.texts.TheConstants.{MOST_TEXT_BYTES};

use crate::PatternTooLong;
use crate::commands::NO_COMMAND;
use crate::texts::{MOST_TEXT_BYTES, PackedText};
use packed_form::{Command, Entry, EntryKind, MOST_PACKED_BYTES, PackedPattern};
use song_model::{Pattern, Row};

/// The packed pattern of a pattern: its normal rows, in as few bytes as can spell them. It takes no memory.
///
/// # Errors
///
/// The packed text is longer than 256 bytes; its length.
#[tactic(auto, using(crate::proofs::PatternLaws::packed_is_spelled, crate::proofs::PatternLaws::none_is_shorter))]
pub fn pack_pattern(pattern: &Pattern) -> Result<PackedPattern, PatternTooLong>
    // What is packed is the text that the packer's rule names.
    ensures packed { IfOk result (λ packed. packed ≡ packed_text pattern.now) }
    ensures too_long { (n : ℕ) → IsErrOf result (record { length = n })
        ↔ ((length (packed_text pattern.now) ≡ n) × (MOST_PACKED_BYTES < n)) }
    ensures most { IfErr result (λ long. long.length ≤ 513) }
    // It spells the normal rows.
    ensures spelled { IfOk result (λ packed. PackedSpells packed (normal_rows pattern.now)) }
    // No spelling of these is shorter than what is packed, or than the length that is too long.
    ensures shortest { (bytes : List ℕ) → PackedSpells bytes (normal_rows pattern.now) →
        MatchResult result (λ packed. length packed ≤ length bytes)
        (λ long. long.length ≤ length bytes) }
{
    let text = text_of(pattern.as_slice());
    let bytes = text.as_slice();
    if bytes.len() > MOST_PACKED_BYTES {
        return Err(PatternTooLong {
            length: bytes.len() as u16,
        });
    }
    Ok(PackedPattern::of(bytes))
}

/// The packed text of these rows.
#[tactic(auto, unfolding(packed_form::specs::PackedText::packed_text))]
fn text_of(rows: &[Row]) -> PackedText
    requires { IsPattern rows.now }
    ensures { result ≡ packed_text rows.now }
{
    let mut text = PackedText::new();
    let mut packer = Packer::new();
    let mut left = rows;
    'rows: while let Some((row, others)) = left.split_first() {
        let entry = packer.next_entry(*row, others);
        put_entry(&mut text, entry);
        left = rows_behind(others, entry.kind.more_rests());
    }
    text.push(0);
    text
}

/// The rows behind the first ones, of which there are so many.
fn rows_behind(rows: &[Row], count: u8) -> &[Row]
    requires { count ≤ length rows.now }
    ensures { result.now ≡ drop count rows.now }
{
    &rows[usize::from(count)..]
}

/// What the packer keeps from row to row.
#[derive(Clone, Copy)]
struct Packer {
    /// The last instrument that a row named, 0 before there is one.
    last: u8,
    /// The running command.
    running: Command,
}

impl Packer {
    /// Before the first row: no instrument was named, and no command is running.
    fn new() -> Packer
        ensures last { result.last ≡ 0 }
        ensures running { result.running ≡ no_command }
    {
        Packer {
            last: 0,
            running: NO_COMMAND,
        }
    }

    /// The entry of the next row, which these rows follow.
    fn next_entry(&mut self, row: Row, others: &[Row]) -> Entry
        ensures entry { result ≡ first_entry self.old.running (normal_row self.old.last row)
            (normal_from self.new.last others.now) }
        ensures last { self.new.last ≡ last_instrument self.old.last row }
        ensures running { self.new.running ≡ command_of (normal_row self.old.last row) }
    {
        let row = normal_row(self.last, row);
        let before = self.running;
        if row.instrument != 0 {
            self.last = row.instrument;
        }
        self.running = command_of(row);
        Entry {
            instrument: row.instrument,
            kind: self.first_kind(before, row, others),
        }
    }

    /// What the entry of a normal row has behind its instrument, where this command was running before the row.
    fn first_kind(self, before: Command, row: Row, others: &[Row]) -> EntryKind
        requires { self.running ≡ command_of row }
        ensures { result ≡ first_kind before row (normal_from self.last others.now) }
    {
        let is_rest = row.note == 0xbd;
        let keeps = keeps(before, row);
        match (keeps, is_rest) {
            (true, true) => EntryKind::Rests {
                more: self.rests_in_front(others),
            },
            (true, false) => EntryKind::Note { note: row.note },
            (false, true) => EntryKind::NamedRest {
                command: command_of(row),
            },
            (false, false) => EntryKind::NamedNote {
                command: command_of(row),
                note: row.note,
            },
        }
    }

    /// How many rests that name nothing there are before any other row, up to 63.
    fn rests_in_front(self, rows: &[Row]) -> u8
        ensures { result ≡ min 63 (rests_in_front self.running (normal_from self.last rows.now)) }
    {
        let mut count = 0;
        for row in rows {
            if count == 63 || !is_bare_rest(self.running, normal_row(self.last, *row)) {
                return count;
            }
            count += 1;
        }
        count
    }
}

/// The normal row of a row behind rows whose last instrument is this one.
fn normal_row(last: u8, row: Row) -> Row
    ensures { result ≡ normal_row last row }
{
    Row {
        note: row.note,
        instrument: if row.instrument == last {
            0
        } else {
            row.instrument
        },
        command: row.command,
        param: if row.command == 0 { 0 } else { row.param },
    }
}

/// The command of a row.
fn command_of(row: Row) -> Command
    ensures { result ≡ command_of row }
{
    Command {
        number: row.command,
        param: row.param,
    }
}

/// Whether a row keeps the running command.
fn keeps(running: Command, row: Row) -> bool
    ensures { result ≡ keeps running row }
{
    row.command == running.number && row.param == running.param
}

/// Whether a row is a rest that names nothing.
fn is_bare_rest(running: Command, row: Row) -> bool
    ensures { result ≡ is_bare_rest running row }
{
    row.note == 0xbd && row.instrument == 0 && keeps(running, row)
}

/// Appends the bytes of an entry.
fn put_entry(text: &mut PackedText, entry: Entry)
    requires range { IsEntry entry }
    requires room { length text.old + 4 ≤ MOST_TEXT_BYTES }
    ensures { text.new ≡ text.old ++ entry_bytes entry }
{
    if entry.instrument != 0 {
        text.push(entry.instrument);
    }
    put_kind(text, entry.kind);
}

/// Appends the bytes that stand behind the instrument.
fn put_kind(text: &mut PackedText, kind: EntryKind)
    requires range { IsKind kind }
    requires room { length text.old + 3 ≤ MOST_TEXT_BYTES }
    ensures { text.new ≡ text.old ++ kind_bytes kind }
{
    match kind {
        EntryKind::NamedNote { command, note } => {
            text.push(0x40 + command.number);
            text.push(command.param);
            text.push(note);
        }
        EntryKind::NamedRest { command } => {
            text.push(0x50 + command.number);
            text.push(command.param);
        }
        EntryKind::Note { note } => text.push(note),
        EntryKind::Rests { more } => text.push(0xc0 + more),
    }
}
