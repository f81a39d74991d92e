//! The new numbers of a song's rows and instruments.

ghost use Rattle.std.specs.Prelude.{◌≡◌, ℕ, ◌<◌, ◌≤◌, nat_eq, length, position, slice_index, IfSome};
ghost use Rattle.packing_rules.specs.Renumbering.{place_in, pointer_number};
ghost use Rattle.song_pack.specs.Numbers.{foreign_of, row_of};

use song_model::TableName;

/// The new numbers of the rows that the wave table may point into; each list is by the old number.
#[derive(Drop)]
pub(crate) struct ForeignNumbers {
    /// Those of the pulse table.
    pub pulse: [u8; 256],
    /// Those of the filter table.
    pub filter: [u8; 256],
    /// Those of the speed table.
    pub speed: [u8; 256],
}

/// The new numbers of the rows of all tables.
#[derive(Drop)]
pub(crate) struct RowNumbers {
    /// Those of the wave table.
    pub wave: [u8; 256],
    /// Those of the others.
    pub others: ForeignNumbers,
}

impl ForeignNumbers {
    /// The new number of what a row of the wave table points at; a row of the wave table itself keeps its own.
    fn of(&self, name: TableName, p: u8) -> u8
        ensures { result ≡ foreign_of self.now name p }
    {
        match name {
            TableName::Wave => p,
            TableName::Pulse => self.pulse[usize::from(p)],
            TableName::Filter => self.filter[usize::from(p)],
            TableName::Speed => self.speed[usize::from(p)],
        }
    }

    /// The new number of what is pointed at, where this is a pointer into a table.
    pub(crate) fn pointer(&self, table: Option<TableName>, p: u8) -> u8
        ensures { result ≡ pointer_number (foreign_of self.now) table p }
    {
        match table {
            Some(name) => self.of(name, p),
            None => p,
        }
    }
}

impl RowNumbers {
    /// The new number of a row.
    pub(crate) fn of(&self, name: TableName, p: u8) -> u8
        ensures { result ≡ row_of self.now name p }
    {
        match name {
            TableName::Wave => self.wave[usize::from(p)],
            TableName::Pulse => self.others.of(TableName::Pulse, p),
            TableName::Filter => self.others.of(TableName::Filter, p),
            TableName::Speed => self.others.of(TableName::Speed, p),
        }
    }

    /// The new number of what is pointed at, where this is a pointer into a table.
    pub(crate) fn pointer(&self, table: Option<TableName>, p: u8) -> u8
        ensures { result ≡ pointer_number (row_of self.now) table p }
    {
        match table {
            Some(name) => self.of(name, p),
            None => p,
        }
    }
}

/// The place of a number among others, from 1 on; 0 where it isn't there.
fn place_in(order: &[u8], n: u8) -> u8
    requires few { length order.now ≤ 63 }
    ensures place { result ≡ place_in order.now n }
    ensures small { result ≤ 63 }
{
    match found_in(order, n) {
        Some(place) => place as u8 + 1,
        None => 0,
    }
}

/// Where a number stands first among others, from 0 on.
fn found_in(order: &[u8], n: u8) -> Option<usize>
    ensures place { result ≡ position (nat_eq n) order.now }
    ensures inside { IfSome result (λ place. place < length order.now) }
{
    order.iter().position(|other| n == *other)
}

/// The new numbers of instruments, by the old ones: the places where they stand in their order, from 1 on.
pub(crate) fn instrument_numbers(order: &[u8]) -> [u8; 64]
    requires few { length order.now ≤ 63 }
    ensures numbers { (n : ℕ) → n < 64 → slice_index result n ≡ place_in order.now n }
    ensures small { (n : ℕ) → slice_index result n ≤ 63 }
{
    let mut to = [0; 64];
    for n in 0..64u8 {
        to[usize::from(n)] = place_in(order, n);
    }
    to
}
