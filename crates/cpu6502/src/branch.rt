//! Branches.

ghost use Rattle.std.specs.Prelude.{◌≡◌};
ghost use Rattle.cpu6502.specs.Branches.{branch_effect, branched, is_taken};

use crate::cpu::Cpu;
use crate::effect::{Effect, quiet};
use crate::mnemonic::Mnemonic;

/// Whether a branch is taken, each by one flag. `None` for any other name.
pub fn is_taken(mnemonic: Mnemonic, cpu: Cpu) -> Option<bool>
    ensures { result ≡ is_taken mnemonic cpu }
{
    match mnemonic {
        Mnemonic::Bcc => Some(!cpu.c),
        Mnemonic::Bcs => Some(cpu.c),
        Mnemonic::Bne => Some(!cpu.z),
        Mnemonic::Beq => Some(cpu.z),
        Mnemonic::Bpl => Some(!cpu.n),
        Mnemonic::Bmi => Some(cpu.n),
        Mnemonic::Bvc => Some(!cpu.v),
        Mnemonic::Bvs => Some(cpu.v),
        _ => None,
    }
}

/// Branches. `None` for any other name.
pub fn branch(mnemonic: Mnemonic, place: u16, cpu: Cpu) -> Option<Effect>
    ensures { result ≡ branch_effect mnemonic place cpu }
{
    let taken = is_taken(mnemonic, cpu)?;
    Some(quiet(branched(cpu, taken, place)))
}

/// The registers at a place where a branch is taken, else after it.
fn branched(cpu: Cpu, taken: bool, place: u16) -> Cpu
    ensures { result ≡ branched cpu taken place }
{
    if taken { Cpu { pc: place, ..cpu } } else { cpu }
}
