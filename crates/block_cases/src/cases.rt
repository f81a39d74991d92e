//! The cases of a file, one after the other.

ghost use Rattle.std.specs.Prelude.{◌≡◌, ◌+◌, min, IsOk, IsErr};

use crate::bench::Bench;
use crate::difference::Difference;
use crate::instructions::check_instruction;
use crate::listings::ListingCase;
use crate::machines::MachineCase;
use crate::runs::run_all;
use crate::setup::{Entrance, Setup, read_line};
use crate::wants::Wants;
use crate::words::Reader;
use case_text::{Tally, look_up};
use std::alloc::Global;
use std::io;

/// What a case is of.
#[derive(Clone, Copy)]
enum Kind {
    Block,
    Entrance,
    Listing,
    Machine,
    Memory,
    Instruction,
}

/// What a case is of, by its first word.
const KINDS: [(&[u8], Kind); 6] = [
    (b"case", Kind::Block),
    (b"entrance", Kind::Entrance),
    (b"listing", Kind::Listing),
    (b"machine", Kind::Machine),
    (b"memory", Kind::Memory),
    (b"instruction", Kind::Instruction),
];

/// How a case is to end that doesn't have to agree.
#[derive(Clone, Copy)]
enum End {
    /// Something differs.
    Differs,
    /// A line isn't of the notation.
    Unread,
}

/// How a case is to end that doesn't have to agree, by its first word.
const ENDS: [(&[u8], End); 2] = [(b"denial", End::Differs), (b"unread", End::Unread)];

/// Whether a case begins with this word.
fn is_case(head: &[u8]) -> bool {
    look_up(&KINDS, head).is_some() || look_up(&ENDS, head).is_some()
}

/// The next line of a case; none where the next case begins.
fn next_line<'a>(reader: &mut Reader<'a>) -> Option<&'a [u8]> {
    let mut ahead = *reader;
    let head = ahead.head()?;
    if is_case(head) {
        return None;
    }
    *reader = ahead;
    Some(head)
}

impl Reader<'_> {
    /// Passes over the name of a case.
    ///
    /// # Errors
    ///
    /// It doesn't end with its line.
    fn pass_name(&mut self) -> Result<(), Difference> {
        self.pass_line();
        self.end()
    }

    /// Passes over the lines that are left of a case.
    fn pass_lines(&mut self) {
        for _ in 0..self.left() {
            if next_line(self).is_none() {
                break;
            }
        }
    }
}

/// Reads a case of a block, and runs it.
fn block_case(
    alloc: Global,
    bench: &mut Bench,
    setup: &mut Setup,
    reader: &mut Reader<'_>,
) -> Result<(), Difference> {
    let line = reader.line;
    let mut wants = Wants::new(alloc);
    reader.pass_name()?;
    for _ in 0..reader.left() {
        let Some(head) = next_line(reader) else {
            break;
        };
        read_line(alloc, head, setup, &mut wants, reader)?;
        reader.end()?;
    }
    reader.line = line;
    run_all(alloc, bench, setup, None, &wants)
}

/// Reads a case of an entrance, and calls it.
fn entrance_case(
    alloc: Global,
    bench: &mut Bench,
    setup: &mut Setup,
    reader: &mut Reader<'_>,
) -> Result<(), Difference> {
    let line = reader.line;
    let mut wants = Wants::new(alloc);
    let mut entrance = Entrance::new();
    reader.pass_name()?;
    for _ in 0..reader.left() {
        let Some(head) = next_line(reader) else {
            break;
        };
        entrance.read_line(alloc, head, setup, &mut wants, reader)?;
        reader.end()?;
    }
    reader.line = line;
    run_all(alloc, bench, setup, Some(&entrance), &wants)
}

/// Reads a case of a listing, and assembles it.
fn listing_case(alloc: Global, reader: &mut Reader<'_>) -> Result<(), Difference> {
    let line = reader.line;
    let mut case = ListingCase::new(alloc);
    reader.pass_name()?;
    for _ in 0..reader.left() {
        let Some(head) = next_line(reader) else {
            break;
        };
        case.read(alloc, head, reader)?;
        reader.end()?;
    }
    reader.line = line;
    case.run(alloc)
}

/// Reads a case of a machine, and does it.
fn machine_case(
    alloc: Global,
    bench: &mut Bench,
    reader: &mut Reader<'_>,
) -> Result<(), Difference> {
    let line = reader.line;
    let mut case = MachineCase::new();
    bench.begin();
    reader.pass_name()?;
    for _ in 0..reader.left() {
        let Some(head) = next_line(reader) else {
            break;
        };
        case.read(alloc, bench, head, reader)?;
        reader.end()?;
    }
    reader.line = line;
    case.end(bench)
}

/// Reads a case of all of memory, and compares it.
fn memory_case(bench: &Bench, reader: &mut Reader<'_>) -> Result<(), Difference> {
    reader.pass_name()?;
    bench.compare_all()
}

/// Does a case of the kind that a word names. Where it differs, memory is again what it was before the first case.
fn do_kind(
    alloc: Global,
    bench: &mut Bench,
    setup: &mut Setup,
    word: &[u8],
    reader: &mut Reader<'_>,
) -> Result<(), Difference> {
    let done = match look_up(&KINDS, word) {
        Some(Kind::Block) => block_case(alloc, bench, setup, reader),
        Some(Kind::Entrance) => entrance_case(alloc, bench, setup, reader),
        Some(Kind::Listing) => listing_case(alloc, reader),
        Some(Kind::Machine) => machine_case(alloc, bench, reader),
        Some(Kind::Memory) => memory_case(bench, reader),
        Some(Kind::Instruction) => check_instruction(alloc, reader),
        None => Err(Difference::Unread),
    };
    if done.is_err() {
        bench.renew();
    }
    done
}

/// What becomes of a denial: it agrees where its case differs by what comes.
fn denied(done: Result<(), Difference>) -> Result<(), Difference>
    ensures { IsOk done → IsErr result }
{
    match done {
        Ok(()) => Err(Difference::Agrees),
        Err(Difference::Unread | Difference::WantsNothing | Difference::NoMemory) => done,
        Err(_) => Ok(()),
    }
}

/// What becomes of a case that is to be unread: it agrees where a line of it isn't of the notation.
fn unread(done: Result<(), Difference>) -> Result<(), Difference>
    ensures { IsOk done → IsErr result }
{
    match done {
        Ok(()) => Err(Difference::Agrees),
        Err(Difference::Unread) => Ok(()),
        Err(_) => done,
    }
}

/// Does the case that begins with this word.
fn do_case(
    alloc: Global,
    bench: &mut Bench,
    setup: &mut Setup,
    head: &[u8],
    reader: &mut Reader<'_>,
) -> Result<(), Difference> {
    let Some(end) = look_up(&ENDS, head) else {
        return do_kind(alloc, bench, setup, head, reader);
    };
    let Some(kind) = reader.peek() else {
        return Err(Difference::Unread);
    };
    reader.pass();
    let done = do_kind(alloc, bench, setup, kind, reader);
    match end {
        End::Unread => unread(done),
        End::Differs => {
            denied(done)?;
            reader.end()
        }
    }
}

/// Counts a case, and prints what differs.
///
/// # Errors
///
/// The line can't be printed.
fn note(
    rt: &impl Print,
    tally: &mut Tally,
    file: &str,
    line: u32,
    done: Result<(), Difference>,
) -> io::Result<()>
    ensures agrees { IsOk done → tally.new.differ ≡ tally.old.differ }
    ensures differs { IsErr done → tally.new.agree ≡ tally.old.agree }
    ensures is_counted { IsErr done → tally.new.differ ≡ min (tally.old.differ + 1) u32.MAX }
{
    match done {
        Ok(()) => tally.count(true),
        Err(difference) => {
            tally.count(false);
            println!(rt; "{file}:{line}: {difference}")?;
        }
    }
    Ok(())
}

/// Does all cases of a file.
pub fn do_file<R: Print + AllocGlobal>(
    rt: &R,
    tally: &mut Tally,
    file: &str,
    bench: &mut Bench,
    mut reader: Reader<'_>,
) -> io::Result<()> {
    let mut setup = Setup::new(rt.alloc());
    let mut cases = 0_u32;
    if let Err(stray) = reader.end() {
        note(rt, tally, file, reader.line, Err(stray))?;
    }
    for _ in 0..reader.left() {
        let Some(head) = reader.head() else {
            break;
        };
        cases = cases.saturating_add(1);
        let done = do_case(rt.alloc(), bench, &mut setup, head, &mut reader);
        note(rt, tally, file, reader.line, done)?;
        if done.is_err() {
            reader.pass_lines();
        }
    }
    if cases == 0 {
        note(rt, tally, file, 0, Err(Difference::WantsNothing))?;
    }
    match bench.compare_all() {
        Ok(()) => Ok(()),
        stray => note(rt, tally, file, reader.line, stray),
    }
}
