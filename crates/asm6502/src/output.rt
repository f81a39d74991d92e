//! The second pass: the bytes, and which of them are addresses.

ghost use Rattle.std.specs.Prelude.{◌≡◌, ◌≤◌, ◌+◌, ◌⊎◌, [], length, MatchResult, None, Some};
ghost use Rattle.asm6502.specs.Lines.{kept, size_of};
ghost use Rattle.asm6502.specs.Faults.{first_fault, bad_line, unknown_label, far_by};
ghost use Rattle.asm6502.specs.declared.faults.AsmFault.TheVariants.{NoMemory};
ghost use Rattle.asm6502.specs.Places.{HasPlaces, IsWritten, address_by};

use crate::encodings::encode;
use crate::faults::AsmFault;
use crate::fixes::FixList;
use crate::instructions::Instr;
use crate::labels::Labels;
use crate::lines::{Item, Line, MOST_LINES, Operand, PartSet};
use base::ByteList;
use cpu6502::{MEMORY_SIZE, Mnemonic, Mode};
use std::alloc::Global;

/// What the lines before have given.
#[derive(Drop)]
pub(crate) struct Output {
    /// The bytes.
    pub(crate) bytes: ByteList,
    /// Which of them are addresses.
    pub(crate) fixes: FixList,
}

impl Output {
    ghost use Rattle.std.specs.Prelude.{◌≡◌, ◌≤◌, ◌+◌, ◌⊎◌, [], ◌∷◌, ◌++◌, length, MatchResult, OnOk, IfErr, None, Some, true, false, List};
    ghost use Rattle.asm6502.specs.declared.lines.Line.{Line};
    ghost use Rattle.asm6502.specs.declared.faults.AsmFault.TheVariants.{NoMemory, BranchTooFar};
    ghost use Rattle.asm6502.specs.declared.lines.Item.TheVariants.{Code};
    ghost use Rattle.asm6502.specs.Lines.{kept, item_size, is_sound, is_kept, label_used};
    ghost use Rattle.asm6502.specs.Operands.{label_of};
    ghost use Rattle.asm6502.specs.Assembly.{item_bytes, item_fixes};
    ghost use Rattle.asm6502.specs.Faults.{is_far_item, far_by};
    ghost use Rattle.asm6502.specs.Places.{IsWritten, Knows, address_by};

    /// Nothing.
    fn new(alloc: Global) -> Output
        ensures bytes { result.bytes ≡ [] }
        ensures fixes { result.fixes ≡ [] }
    {
        Output {
            bytes: ByteList::new(alloc),
            fixes: FixList::new(alloc),
        }
    }

    /// Writes an instruction.
    ///
    /// # Errors
    ///
    /// It is a branch to a label that it doesn't reach; or out of memory.
    fn put_code(
        &mut self,
        labels: &Labels,
        origin: u16,
        line: u32,
        mnemonic: Mnemonic,
        mode: Mode,
        operand: Operand,
    ) -> Result<(), AsmFault>
        requires fits { origin + length self.old.bytes ≤ MEMORY_SIZE }
        requires sound { is_sound (Code mnemonic mode operand) ≡ true }
        requires known { Knows labels.now (label_of operand) }
        ensures bytes { OnOk result
            (self.new.bytes ≡ self.old.bytes ++ item_bytes (address_by labels.now origin)
            (origin + length self.old.bytes) (Code mnemonic mode operand)) }
        ensures fixes { OnOk result
            (self.new.fixes ≡ self.old.fixes ++ item_fixes (address_by labels.now 0)
            (length self.old.bytes) (Code mnemonic mode operand)) }
        ensures near { OnOk result
            (is_far_item (address_by labels.now origin) (origin + length self.old.bytes)
            (Code mnemonic mode operand) ≡ false) }
        ensures far { IfErr result
            (λ fault. (fault ≡ NoMemory) ⊎ (is_far_item (address_by labels.now origin)
            (origin + length self.old.bytes) (Code mnemonic mode operand) ≡ true)
            × (fault ≡ BranchTooFar line)) }
    {
        let at = self.bytes.as_slice().len() as u32;
        let Some(number) = labels.operand(origin, at, mode, operand) else {
            return Err(AsmFault::BranchTooFar { line });
        };
        let instr = Instr {
            mnemonic,
            mode,
            operand: number,
        };
        let Some(encoded) = encode(instr) else {
            unreachable!();
        };
        self.bytes.extend(encoded.as_slice())?;
        self.fixes.add(labels.fix(at + 1, mode, operand))?;
        Ok(())
    }

    /// Writes an item.
    ///
    /// # Errors
    ///
    /// It is a branch to a label that it doesn't reach; or out of memory.
    fn put_item(
        &mut self,
        labels: &Labels,
        origin: u16,
        line: u32,
        item: &Item,
    ) -> Result<(), AsmFault>
        requires fits { origin + length self.old.bytes ≤ MEMORY_SIZE }
        requires sound { is_sound item.now ≡ true }
        requires known { Knows labels.now (label_used item.now) }
        ensures bytes { OnOk result
            (self.new.bytes ≡ self.old.bytes ++ item_bytes (address_by labels.now origin)
            (origin + length self.old.bytes) item.now) }
        ensures fixes { OnOk result
            (self.new.fixes ≡ self.old.fixes ++ item_fixes (address_by labels.now 0)
            (length self.old.bytes) item.now) }
        ensures near { OnOk result
            (is_far_item (address_by labels.now origin) (origin + length self.old.bytes) item.now
            ≡ false) }
        ensures far { IfErr result
            (λ fault. (fault ≡ NoMemory) ⊎ (is_far_item (address_by labels.now origin)
            (origin + length self.old.bytes) item.now ≡ true) × (fault ≡ BranchTooFar line)) }
    {
        match item {
            Item::Label(_) => Ok(()),
            Item::Code(mnemonic, mode, operand) => {
                self.put_code(labels, origin, line, *mnemonic, *mode, *operand)
            }
            Item::Bytes(bytes) => {
                self.bytes.extend(bytes.as_slice())?;
                Ok(())
            }
        }
    }

    /// Writes a line if it is kept.
    ///
    /// # Errors
    ///
    /// It is a branch to a label that it doesn't reach; or out of memory.
    fn put(
        &mut self,
        labels: &Labels,
        set: PartSet,
        origin: u16,
        number: u32,
        line: &Line,
    ) -> Result<(), AsmFault>
        requires fits { origin + length self.old.bytes ≤ MEMORY_SIZE }
        requires sound { is_kept set.0 line.now ≡ true → is_sound line.now.item ≡ true }
        requires known { is_kept set.0 line.now ≡ true →
            Knows labels.now (label_used line.now.item) }
        ensures { (before : List Line) →
            length before ≡ number →
            IsWritten self.old labels.now set.0 origin before →
            MatchResult result
            (λ _. IsWritten self.new labels.now set.0 origin (before ++ line.now ∷ [])
            × (far_by (address_by labels.now origin) set.0 origin before line.now ≡ None))
            (λ fault. (fault ≡ NoMemory) ⊎ (far_by (address_by labels.now origin) set.0 origin
            before line.now ≡ Some fault)) }
    {
        if !line.is_kept(set) {
            return Ok(());
        }
        self.put_item(labels, origin, number, &line.item)?;
        Ok(())
    }
}

/// The bytes and the fixes of the kept lines.
///
/// # Errors
///
/// The first line with a branch to a label that it doesn't reach; or out of memory.
pub(crate) fn output_of(
    alloc: Global,
    lines: &[Line],
    set: PartSet,
    origin: u16,
    labels: &Labels,
) -> Result<Output, AsmFault>
    requires lines { length lines.now ≤ MOST_LINES }
    requires fits { origin + size_of (kept set.0 lines.now) ≤ MEMORY_SIZE }
    requires sound { first_fault (bad_line set.0) [] lines.now ≡ None }
    requires places { HasPlaces labels.now (kept set.0 lines.now) }
    requires known { first_fault (unknown_label set.0 lines.now) [] lines.now ≡ None }
    ensures { MatchResult result
        (λ output. IsWritten output labels.now set.0 origin lines.now
        × (first_fault (far_by (address_by labels.now origin) set.0 origin) [] lines.now
        ≡ None))
        (λ fault. (fault ≡ NoMemory)
        ⊎ (first_fault (far_by (address_by labels.now origin) set.0 origin) [] lines.now
        ≡ Some fault)) }
{
    let mut output = Output::new(alloc);
    for (number, line) in lines.iter().enumerate() {
        output.put(labels, set, origin, number as u32, line)?;
    }
    Ok(output)
}
