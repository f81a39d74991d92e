//! From one register to another.

ghost use Rattle.std.specs.Prelude.{◌≡◌};
ghost use Rattle.cpu6502.specs.Transfers.{transfer_effect};

use crate::cpu::Cpu;
use crate::effect::{Effect, quiet};
use crate::mnemonic::Mnemonic;

/// From one register to another. `None` for any other name.
pub fn transfer(mnemonic: Mnemonic, cpu: Cpu) -> Option<Effect>
    ensures { result ≡ transfer_effect mnemonic cpu }
{
    match mnemonic {
        Mnemonic::Tax => Some(quiet(cpu.with_x(cpu.a))),
        Mnemonic::Tay => Some(quiet(cpu.with_y(cpu.a))),
        Mnemonic::Tsx => Some(quiet(cpu.with_x(cpu.sp))),
        Mnemonic::Txa => Some(quiet(cpu.with_a(cpu.x))),
        Mnemonic::Tya => Some(quiet(cpu.with_a(cpu.y))),
        Mnemonic::Txs => Some(quiet(Cpu { sp: cpu.x, ..cpu })),
        _ => None,
    }
}
