//! Labels in front of bytes.

ghost use Rattle.std.specs.Prelude.{◌≡◌, ◌≤◌, [], ◌∷◌, ◌++◌, length, All, IfOk, OnOk, IsPermutation};
ghost use Rattle.std.specs.List.Sorted.{IsNonDecreasingBy};
ghost use Rattle.song_lists.specs.Marks.{marked, label_line, bytes_line};

use asm6502::{Item, Line, Listing};
use base::{ByteList, Items, NoMemory};
use std::alloc::Global;

/// The part of lines that are always kept.
const ALWAYS: u8 = 255;

/// A label, and which of the bytes it stands in front of.
#[derive(Clone, Copy, Debug)]
pub struct Mark {
    /// The label.
    pub label: u16,
    /// How many bytes stand before it.
    pub place: u16,
}

/// A list of marks.
pub(crate) type MarkList = Items<Mark>;

/// The same marks by their places.
pub(crate) fn sorted(marks: MarkList) -> Result<MarkList, NoMemory>
    ensures same { IfOk result (λ sorted. IsPermutation marks sorted) }
    ensures rise { IfOk result (IsNonDecreasingBy (λ mark. mark.place)) }
{
    let mut marks = marks;
    let mut items = marks.take();
    items.sort_by_key(|mark| mark.place)?;
    Ok(MarkList::from_vec(items))
}

/// A line that names a label.
fn label_line(label: u16) -> Line
    ensures { result ≡ label_line label }
{
    Line {
        part: ALWAYS,
        item: Item::Label(label),
    }
}

/// Appends a line of bytes.
fn push_piece(alloc: Global, listing: &mut Listing, bytes: &[u8]) -> Result<(), NoMemory>
    ensures { OnOk result (listing.new ≡ listing.old ++ bytes_line bytes.now ∷ []) }
{
    let bytes = ByteList::from_slice(alloc, bytes)?;
    listing.push(Line {
        part: ALWAYS,
        item: Item::Bytes(bytes),
    })
}

/// The lines of bytes with labels in front of some of them. The marks come by their places, none behind the last byte.
pub(crate) fn cut(alloc: Global, bytes: &[u8], marks: &[Mark]) -> Result<Listing, NoMemory>
    requires rise { IsNonDecreasingBy (λ mark. mark.place) marks.now }
    requires within { All (λ mark. mark.place ≤ length bytes.now) marks.now }
    ensures { IfOk result (λ lines. lines ≡ marked 0 marks.now bytes.now) }
{
    let mut listing = Listing::new(alloc);
    let mut from = 0;
    for mark in marks {
        let place = usize::from(mark.place);
        push_piece(alloc, &mut listing, &bytes[from..place])?;
        listing.push(label_line(mark.label))?;
        from = place;
    }
    push_piece(alloc, &mut listing, &bytes[from..])?;
    Ok(listing)
}
