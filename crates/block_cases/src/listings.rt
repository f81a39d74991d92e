//! Cases of listings: lines, and what the assembler makes of them.

use crate::difference::{Difference, same};
use crate::instructions::{Piece, same_bytes};
use crate::words::{Reader, once};
use asm6502::{AsmFault, Assembled, Item, Line, Listing, Operand, PartSet, PastEnd, assemble};
use base::{ByteList, NoMemory};
use case_text::look_up;
use std::alloc::Global;

/// A line: its part, and what it holds.
#[derive(Clone, Copy)]
struct Row {
    part: u8,
    piece: Piece,
}

/// What is wanted of a listing.
#[derive(Drop)]
enum Want {
    Nothing,
    Bytes(Vec<u8>),
    Length(u32),
    Fault(AsmFault),
}

/// A move to another origin, and the bytes there; or how long they are, where they don't fit.
#[derive(Drop)]
struct Move {
    origin: u16,
    want: Want,
}

/// A case of a listing.
#[derive(Drop)]
pub struct ListingCase {
    rows: Vec<Row>,
    copies: u32,
    origin: u16,
    kept: u32,
    want: Want,
    fixes: Option<u32>,
    moves: Vec<Move>,
}

/// What a line of a case says.
#[derive(Clone, Copy)]
enum Head {
    Line,
    Place(Place),
    Assembles,
    Length,
    Refused,
    Fixes,
    Moves,
    Stays,
}

/// How often the lines stand, where, and which.
#[derive(Clone, Copy)]
enum Place {
    Copies,
    Origin,
    Kept,
}

/// What a line says, by its first word.
const HEADS: [(&[u8], Head); 10] = [
    (b"line", Head::Line),
    (b"copies", Head::Place(Place::Copies)),
    (b"origin", Head::Place(Place::Origin)),
    (b"kept", Head::Place(Place::Kept)),
    (b"assembles", Head::Assembles),
    (b"length", Head::Length),
    (b"refused", Head::Refused),
    (b"fixes", Head::Fixes),
    (b"moves", Head::Moves),
    (b"stays", Head::Stays),
];

/// Why a listing is refused, by its name, with no matter which number.
const FAULTS: [(&[u8], AsmFault); 5] = [
    (b"BadLine", AsmFault::BadLine { line: 0 }),
    (b"DoubleLabel", AsmFault::DoubleLabel { label: 0 }),
    (b"UnknownLabel", AsmFault::UnknownLabel { label: 0 }),
    (b"PastEnd", AsmFault::PastEnd { length: 0 }),
    (b"BranchTooFar", AsmFault::BranchTooFar { line: 0 }),
];

/// Reads why a listing is refused.
fn fault(reader: &mut Reader<'_>) -> AsmFault {
    match reader.one_of(&FAULTS, AsmFault::NoMemory) {
        AsmFault::BadLine { .. } => AsmFault::BadLine {
            line: reader.number(),
        },
        AsmFault::DoubleLabel { .. } => AsmFault::DoubleLabel {
            label: reader.short(),
        },
        AsmFault::UnknownLabel { .. } => AsmFault::UnknownLabel {
            label: reader.short(),
        },
        AsmFault::PastEnd { .. } => AsmFault::PastEnd {
            length: reader.number(),
        },
        AsmFault::BranchTooFar { .. } => AsmFault::BranchTooFar {
            line: reader.number(),
        },
        AsmFault::NoMemory => AsmFault::NoMemory,
    }
}

/// So many zeros.
fn zeros(alloc: Global, count: u32) -> Result<ByteList, NoMemory> {
    let mut bytes = ByteList::new(alloc);
    for _ in 0..count {
        bytes.push(0)?;
    }
    Ok(bytes)
}

/// An operand with its label raised.
fn raised(operand: Operand, more: u16) -> Operand {
    match operand {
        Operand::Nothing | Operand::Number(_) => operand,
        Operand::Label(label, offset) => Operand::Label(label.wrapping_add(more), offset),
        Operand::Low(label, offset) => Operand::Low(label.wrapping_add(more), offset),
        Operand::High(label, offset) => Operand::High(label.wrapping_add(more), offset),
    }
}

/// A line, with its labels raised.
fn line_of(alloc: Global, row: Row, more: u16) -> Result<Line, NoMemory> {
    let item = match row.piece {
        Piece::Label(label) => Item::Label(label.wrapping_add(more)),
        Piece::Code(mnemonic, mode, operand) => Item::Code(mnemonic, mode, raised(operand, more)),
        Piece::Zeros(count) => Item::Bytes(zeros(alloc, count)?),
    };
    Ok(Line {
        part: row.part,
        item,
    })
}

impl ListingCase {
    /// No lines, at $1000 with no part, and nothing wanted.
    pub fn new(alloc: Global) -> ListingCase {
        ListingCase {
            rows: Vec::new(alloc),
            copies: 1,
            origin: 0x1000,
            kept: 0,
            want: Want::Nothing,
            fixes: None,
            moves: Vec::new(alloc),
        }
    }

    /// Reads a line of the case.
    pub fn read(
        &mut self,
        alloc: Global,
        head: &[u8],
        reader: &mut Reader<'_>,
    ) -> Result<(), Difference> {
        match look_up(&HEADS, head) {
            Some(Head::Line) => self.read_row(reader),
            Some(Head::Place(place)) => self.read_place(place, reader),
            Some(Head::Assembles) => self.wish(Want::Bytes(reader.bytes(alloc))),
            Some(Head::Length) => self.wish(Want::Length(reader.number())),
            Some(Head::Refused) => self.wish(Want::Fault(fault(reader))),
            Some(Head::Fixes) => once(&mut self.fixes, reader.number()),
            Some(Head::Moves) => self.push_move(reader.short(), Want::Bytes(reader.bytes(alloc))),
            Some(Head::Stays) => self.push_move(reader.short(), Want::Length(reader.number())),
            None => Err(Difference::Unread),
        }
    }

    /// Reads how often the lines stand, and where.
    fn read_place(&mut self, place: Place, reader: &mut Reader<'_>) -> Result<(), Difference> {
        match place {
            Place::Copies => self.copies = reader.number(),
            Place::Origin => self.origin = reader.short(),
            Place::Kept => self.kept = reader.number(),
        }
        Ok(())
    }

    /// Wants this, if nothing was wanted before.
    fn wish(&mut self, want: Want) -> Result<(), Difference> {
        let Want::Nothing = &self.want else {
            return Err(Difference::Unread);
        };
        self.want = want;
        Ok(())
    }

    /// Notes a move, or one that isn't made.
    fn push_move(&mut self, origin: u16, want: Want) -> Result<(), Difference> {
        self.moves.push(Move { origin, want })?;
        Ok(())
    }

    /// Reads a line of the listing.
    fn read_row(&mut self, reader: &mut Reader<'_>) -> Result<(), Difference> {
        let part = reader.byte();
        let piece = reader.piece();
        for _ in 0..reader.times() {
            self.rows.push(Row { part, piece })?;
        }
        Ok(())
    }

    /// The lines, as often as they stand.
    fn listing(&self, alloc: Global) -> Result<Listing, NoMemory> {
        let mut listing = Listing::new(alloc);
        let mut more = 0_u16;
        for _ in 0..self.copies {
            for row in &self.rows {
                listing.push(line_of(alloc, *row, more)?)?;
            }
            more = more.wrapping_add(1);
        }
        Ok(listing)
    }

    /// Sees that something is wanted, and of a refused listing nothing but why.
    fn check_wants(&self) -> Result<(), Difference> {
        match &self.want {
            Want::Nothing => Err(Difference::WantsNothing),
            Want::Fault(_) if self.fixes.is_some() || !self.moves.is_empty() => {
                Err(Difference::Unread)
            }
            _ => Ok(()),
        }
    }

    /// Assembles the listing, and sees that what comes of it is wanted.
    pub fn run(&self, alloc: Global) -> Result<(), Difference> {
        self.check_wants()?;
        let listing = self.listing(alloc)?;
        if !listing.is_within_limits() {
            return Err(Difference::Unread);
        }
        match assemble(alloc, &listing, self.origin, PartSet(self.kept)) {
            Ok(assembled) => self.check(assembled),
            Err(fault) => self.check_fault(fault),
        }
    }

    /// Sees that a fault is the one that is wanted.
    fn check_fault(&self, found: AsmFault) -> Result<(), Difference> {
        match &self.want {
            Want::Fault(wanted) if found == *wanted => Ok(()),
            _ => Err(Difference::Refused(found)),
        }
    }

    /// Sees that the bytes are those that are wanted, and moves them.
    fn check(&self, assembled: Assembled) -> Result<(), Difference> {
        let mut assembled = assembled;
        check_bytes(&assembled, &self.want)?;
        let fixes = assembled.fixes.as_slice().len().min(0xffff_ffff) as u32;
        same("fixes", fixes, self.fixes.unwrap_or(fixes))?;
        for step in &self.moves {
            check_move(&mut assembled, step)?;
        }
        Ok(())
    }
}

/// Moves the bytes, and sees that they are those that are wanted, or stay.
fn check_move(assembled: &mut Assembled, step: &Move) -> Result<(), Difference> {
    let Move { origin, want } = step;
    let before = assembled.origin;
    match assembled.relocate(*origin) {
        Ok(()) => check_moved(assembled, *origin, want),
        Err(end) => {
            same("the origin", u32::from(assembled.origin), u32::from(before))?;
            check_stay(end, want)
        }
    }
}

/// Sees that bytes that were moved are those that are wanted.
fn check_moved(assembled: &Assembled, origin: u16, want: &Want) -> Result<(), Difference> {
    if let Want::Length(_) = want {
        return Err(Difference::Done);
    }
    same("the origin", u32::from(assembled.origin), u32::from(origin))?;
    check_bytes(assembled, want)
}

/// Sees that it is wanted that the bytes weren't moved, and how long they are.
fn check_stay(end: PastEnd, want: &Want) -> Result<(), Difference> {
    match want {
        Want::Length(length) => same("the length", end.length, *length),
        _ => Err(Difference::Unmoved(end)),
    }
}

/// Sees that the bytes, or their number, are those that are wanted.
fn check_bytes(assembled: &Assembled, want: &Want) -> Result<(), Difference> {
    let bytes = assembled.bytes.as_slice();
    match want {
        Want::Bytes(wanted) => same_bytes(bytes, wanted),
        Want::Length(length) => { same("the length", bytes.len().min(0xffff_ffff) as u32, *length) }
        Want::Fault(_) => Err(Difference::Done),
        Want::Nothing => Err(Difference::WantsNothing),
    }
}
