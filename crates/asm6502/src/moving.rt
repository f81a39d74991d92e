//! Moving assembled bytes to another origin.

ghost use Rattle.std.specs.Prelude.{◌≡◌, ◌≤◌, ◌+◌, length};
ghost use Rattle.asm6502.specs.Fixes.{InOrder, width_of, with_number, with_numbers};

use crate::assembled::Assembled;
use crate::faults::PastEnd;
use crate::fixes::{Fix, FixKind};
use base::ByteList;
use cpu6502::MEMORY_SIZE;

impl Assembled {
    ghost use Rattle.std.specs.Prelude.{◌≡◌, ◌≤◌, ◌+◌, ◌↔◌, length, OnOk, OnErr, IfErr, IsOk};
    ghost use Rattle.asm6502.specs.Moving.{IsMoved};

    /// Moves the bytes to another origin: the number of each fix becomes that of the new origin, and the other bytes
    /// and the fixes stay. It takes no memory.
    ///
    /// # Errors
    ///
    /// [`PastEnd`] exactly where the bytes don't fit after the new origin. Nothing is changed then.
    pub fn relocate(&mut self, origin: u16) -> Result<(), PastEnd>
        ensures fits { IsOk result ↔ (origin + length self.old.bytes ≤ MEMORY_SIZE) }
        ensures moved { OnOk result (IsMoved self.old self.new origin) }
        ensures length { IfErr result (λ fault. fault.length ≡ length self.old.bytes) }
        ensures unchanged { OnErr result (self.new ≡ self.old) }
    {
        let length = self.bytes.as_slice().len() as u32;
        if u32::from(origin) + length > MEMORY_SIZE as u32 {
            return Err(PastEnd { length });
        }
        put_numbers(&mut self.bytes, self.fixes.as_slice(), origin);
        self.origin = origin;
        Ok(())
    }
}

/// Puts the number of each fix at its place.
fn put_numbers(bytes: &mut ByteList, fixes: &[Fix], origin: u16)
    requires { InOrder 0 (length bytes.old) fixes.now }
    ensures { bytes.new ≡ with_numbers origin bytes.old fixes.now }
{
    for fix in fixes {
        let number = ((u32::from(origin) + u32::from(fix.to)) % MEMORY_SIZE as u32) as u16;
        put_number(bytes, fix.kind, fix.at, number);
    }
}

/// Puts a number at a place.
fn put_number(bytes: &mut ByteList, kind: FixKind, at: u32, number: u16)
    requires { at + width_of kind ≤ length bytes.old }
    ensures { bytes.new ≡ with_number kind bytes.old at number }
{
    let at = at as usize;
    let [low, high] = number.to_le_bytes();
    match kind {
        FixKind::Word => {
            bytes.set(at, low);
            bytes.set(at + 1, high);
        }
        FixKind::Low => bytes.set(at, low),
        FixKind::High => bytes.set(at, high),
    }
}
