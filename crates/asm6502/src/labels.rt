//! The first pass: where labels are named, and how many bytes the kept lines take.

ghost use Rattle.std.specs.Prelude.{◌≡◌, ◌≤◌, ◌⊎◌, [], ◌∷◌, length, MatchResult, None, Some};
ghost use Rattle.asm6502.specs.Lines.{kept, data_size};
ghost use Rattle.asm6502.specs.Faults.{first_fault, bad_line, double_label, unknown_label};
ghost use Rattle.asm6502.specs.declared.faults.AsmFault.TheVariants.{NoMemory};
ghost use Rattle.asm6502.specs.Places.{HasPlaces};
ghost use Rattle.asm6502.specs.Operands.{is_relative};
ghost use Rattle.asm6502.specs.Branches.{branch_byte};

use crate::faults::AsmFault;
use crate::fixes::{Fix, FixKind};
use crate::lines::{Line, MOST_BYTES, MOST_LINES, Operand, PartSet};
use cpu6502::{MEMORY_SIZE, Mode};
use std::alloc::Global;
use std::collections::BTreeMap;

/// The places of the labels that some lines name, and the bytes that these lines take.
#[derive(Drop)]
pub(crate) struct Labels {
    /// The place of each label.
    places: BTreeMap<u16, u32>,
    /// The bytes that the lines take.
    size: u32,
}

impl Labels {
    ghost use Rattle.std.specs.Prelude.{◌≡◌, ◌≤◌, ◌+◌, ◌%◌, nat_eq, if◌then◌else◌, ◌<◌, ◌^◌, ◌⊎◌, [], ◌∷◌, ◌++◌, MatchResult, MatchOption, IsSome, true, false, None, Some, unwrap_or, List};
    ghost use Rattle.std.specs.Ordering.{nat_cmp};
    ghost use Rattle.std.specs.BTreeMap.{get};
    ghost use Rattle.std.specs.Option.{option_map, option_to_list};
    ghost use Rattle.asm6502.specs.Operands.{operand_of, is_far, label_of};
    ghost use Rattle.asm6502.specs.Fixes.{operand_fixes};
    ghost use Rattle.asm6502.specs.declared.lines.Line.{Line};
    ghost use Rattle.asm6502.specs.declared.faults.AsmFault.TheVariants.{NoMemory, DoubleLabel, UnknownLabel};
    ghost use Rattle.asm6502.specs.Lines.{item_size, kept};
    ghost use Rattle.asm6502.specs.Faults.{double_label, unknown_label};
    ghost use Rattle.asm6502.specs.Places.{HasPlaces, Knows, address_by};

    /// The labels of no lines.
    pub(crate) fn new(alloc: Global) -> Labels
        ensures { HasPlaces result [] }
    {
        Labels {
            places: BTreeMap::new(alloc),
            size: 0,
        }
    }

    /// Notes the label that one more line names, if it is kept, and the bytes that it takes.
    ///
    /// # Errors
    ///
    /// The label is named already; or out of memory.
    fn note(&mut self, line: &Line, set: PartSet) -> Result<(), AsmFault>
        requires { self.old.size + item_size line.now.item < 2 ^ 32 }
        ensures { (before : List Line) →
            HasPlaces self.old (kept set.0 before) →
            MatchResult result
            (λ _. HasPlaces self.new (kept set.0 (before ++ line.now ∷ []))
            × (double_label set.0 before line.now ≡ None))
            (λ fault. (fault ≡ NoMemory) ⊎ (double_label set.0 before line.now ≡ Some fault)) }
    {
        if !line.is_kept(set) {
            return Ok(());
        }
        if let Some(label) = line.item.label_named() {
            self.name(label)?;
        }
        self.size += line.item.size() as u32;
        Ok(())
    }

    /// Notes that a label is named here, after the bytes of the lines before.
    ///
    /// # Errors
    ///
    /// The label is named already; or out of memory.
    fn name(&mut self, label: u16) -> Result<(), AsmFault>
        ensures size { self.new.size ≡ self.old.size }
        ensures noted { MatchResult result
            (λ _. (get nat_cmp self.old.places label ≡ None)
            × ((other : _) → get nat_cmp self.new.places other
            ≡ (if nat_eq label other then Some self.old.size
            else get nat_cmp self.old.places other)))
            (λ fault. (fault ≡ NoMemory) ⊎ (IsSome (get nat_cmp self.old.places label)
            × (fault ≡ DoubleLabel label))) }
    {
        if self.places.contains_key(&label) {
            return Err(AsmFault::DoubleLabel { label });
        }
        match self.places.insert(label, self.size) {
            Ok(_) => Ok(()),
            Err(_) => Err(AsmFault::NoMemory),
        }
    }

    /// The bytes that the lines take.
    pub(crate) fn size(&self) -> u32
        ensures { result ≡ self.now.size }
    {
        self.size
    }

    /// The label in the operand of a line, if the line is kept and the label isn't named.
    fn unknown(&self, line: &Line, set: PartSet) -> Option<u16>
        ensures { (lines before : List Line) →
            HasPlaces self.now (kept set.0 lines) →
            option_map UnknownLabel result ≡ unknown_label set.0 lines before line.now }
    {
        if !line.is_kept(set) {
            return None;
        }
        let label = line.item.label_used()?;
        if self.places.contains_key(&label) {
            return None;
        }
        Some(label)
    }

    /// The address of a label plus an offset, mod 65,536, where the lines stand at an origin.
    fn address(&self, origin: u16, label: u16, offset: u16) -> u16
        requires { IsSome (get nat_cmp self.now.places label) }
        ensures { result ≡ (address_by self.now origin label + offset) % MEMORY_SIZE }
    {
        let Some(place) = self.places.get(&label).copied() else {
            unreachable!();
        };
        let address = u64::from(origin) + u64::from(place) + u64::from(offset);
        (address % MEMORY_SIZE as u64) as u16
    }

    /// The number that stands after the opcode at place `at` of the bytes, where these stand at an origin; `None` where
    /// it is a label that the branch doesn't reach.
    pub(crate) fn operand(&self, origin: u16, at: u32, mode: Mode, operand: Operand) -> Option<u16>
        requires fits { origin + at ≤ MEMORY_SIZE }
        requires known { Knows self.now (label_of operand) }
        ensures { MatchOption result
            (is_far (address_by self.now origin) (origin + at) mode operand ≡ true)
            (λ number. (number ≡ operand_of (address_by self.now origin) (origin + at) mode operand)
            × (is_far (address_by self.now origin) (origin + at) mode operand ≡ false)) }
    {
        match operand {
            Operand::Nothing => Some(0),
            Operand::Number(number) => Some(number),
            Operand::Label(label, offset) => {
                let target = self.address(origin, label, offset);
                if !is_relative(mode) {
                    return Some(target);
                }
                let byte = branch_byte(u32::from(origin) + at, target)?;
                Some(u16::from(byte))
            }
            Operand::Low(label, offset) => Some(self.address(origin, label, offset) % 256),
            Operand::High(label, offset) => Some(self.address(origin, label, offset) / 256),
        }
    }

    /// What is to be fixed in an operand whose bytes begin at place `at`.
    pub(crate) fn fix(&self, at: u32, mode: Mode, operand: Operand) -> Option<Fix>
        requires { Knows self.now (label_of operand) }
        ensures { option_to_list result ≡ operand_fixes (address_by self.now 0) at mode operand }
    {
        let (kind, label, offset) = match operand {
            Operand::Nothing | Operand::Number(_) => return None,
            Operand::Label(label, offset) => {
                if is_relative(mode) {
                    return None;
                }
                (FixKind::Word, label, offset)
            }
            Operand::Low(label, offset) => (FixKind::Low, label, offset),
            Operand::High(label, offset) => (FixKind::High, label, offset),
        };
        let to = self.address(0, label, offset);
        Some(Fix { at, kind, to })
    }
}

/// Whether a mode is that of the branches.
fn is_relative(mode: Mode) -> bool
    ensures { result ≡ is_relative mode }
{
    matches!(mode, Mode::Relative)
}

/// The displacement byte that leads from a branch to its target; `None` where the target is out of reach.
fn branch_byte(pc: u32, target: u16) -> Option<u8>
    requires { pc ≤ MEMORY_SIZE }
    ensures { result ≡ branch_byte pc target }
{
    let size = MEMORY_SIZE as u32;
    let way = (u32::from(target) + 2 * size - (pc + 2)) % size;
    if way < 128 {
        return Some(way as u8);
    }
    if way < 65_408 {
        return None;
    }
    Some((way - 65_280) as u8)
}

/// The labels of the kept lines.
///
/// # Errors
///
/// The first label that is named a second time; or out of memory.
pub(crate) fn labels_of(alloc: Global, lines: &[Line], set: PartSet) -> Result<Labels, AsmFault>
    requires lines { length lines.now ≤ MOST_LINES }
    requires bytes { data_size lines.now ≤ MOST_BYTES }
    ensures { MatchResult result
        (λ labels. HasPlaces labels (kept set.0 lines.now)
        × (first_fault (double_label set.0) [] lines.now ≡ None))
        (λ fault. (fault ≡ NoMemory)
        ⊎ (first_fault (double_label set.0) [] lines.now ≡ Some fault)) }
{
    let mut labels = Labels::new(alloc);
    for line in lines {
        labels.note(line, set)?;
    }
    Ok(labels)
}

/// Refuses a line that can't stand in a listing.
///
/// # Errors
///
/// The first such line.
pub(crate) fn check_lines(lines: &[Line], set: PartSet) -> Result<(), AsmFault>
    requires { length lines.now ≤ MOST_LINES }
    ensures { MatchResult result
        (λ _. first_fault (bad_line set.0) [] lines.now ≡ None)
        (λ fault. first_fault (bad_line set.0) [] lines.now ≡ Some fault) }
{
    for (place, line) in lines.iter().enumerate() {
        if line.is_bad(set) {
            return Err(AsmFault::BadLine { line: place as u32 });
        }
    }
    Ok(())
}

/// Refuses a kept line whose operand has a label that isn't named.
///
/// # Errors
///
/// The first such label.
pub(crate) fn check_operands(lines: &[Line], set: PartSet, labels: &Labels) -> Result<(), AsmFault>
    requires { HasPlaces labels.now (kept set.0 lines.now) }
    ensures { MatchResult result
        (λ _. first_fault (unknown_label set.0 lines.now) [] lines.now ≡ None)
        (λ fault. first_fault (unknown_label set.0 lines.now) [] lines.now ≡ Some fault) }
{
    for line in lines {
        if let Some(label) = labels.unknown(line, set) {
            return Err(AsmFault::UnknownLabel { label });
        }
    }
    Ok(())
}
