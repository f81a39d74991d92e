//! Flags that are cleared or set, and no operation.

ghost use Rattle.std.specs.Prelude.{◌≡◌};
ghost use Rattle.cpu6502.specs.Flags.{flag_effect};

use crate::cpu::Cpu;
use crate::effect::{Effect, quiet};
use crate::mnemonic::Mnemonic;

/// Flags that are cleared or set, and no operation. `None` for any other name.
pub fn flag(mnemonic: Mnemonic, cpu: Cpu) -> Option<Effect>
    ensures { result ≡ flag_effect mnemonic cpu }
{
    match mnemonic {
        Mnemonic::Clc => Some(quiet(Cpu { c: false, ..cpu })),
        Mnemonic::Cld => Some(quiet(Cpu { d: false, ..cpu })),
        Mnemonic::Cli => Some(quiet(Cpu { i: false, ..cpu })),
        Mnemonic::Clv => Some(quiet(Cpu { v: false, ..cpu })),
        Mnemonic::Sec => Some(quiet(Cpu { c: true, ..cpu })),
        Mnemonic::Sed => Some(quiet(Cpu { d: true, ..cpu })),
        Mnemonic::Sei => Some(quiet(Cpu { i: true, ..cpu })),
        Mnemonic::Nop => Some(quiet(cpu)),
        _ => None,
    }
}
