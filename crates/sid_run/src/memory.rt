//! What a runner puts into its machine's memory, and what it reads there.

ghost use Rattle.std.specs.Prelude.{◌≡◌, ◌+◌, ◌≤◌, length, slice_index, All};
ghost use Rattle.cpu6502.specs.Code.{bytes_at};
ghost use Rattle.sid_run.specs.State.{loaded_memory};

use cpu6502::{MEMORY_SIZE, Memory, SID_BASE};

/// The number of the SID's registers that can be written.
pub const REGISTERS: usize = 25;

/// Puts an image into memory that holds 0.
pub fn put_image(memory: &mut Memory, load: u16, image: &[u8])
    requires size { length memory.old ≡ MEMORY_SIZE }
    requires zero { All (λ byte. byte ≡ 0) memory.old }
    requires fits { load + length image.now ≤ MEMORY_SIZE }
    ensures { memory.new ≡ loaded_memory load image.now }
{
    for (i, byte) in image.iter().enumerate() {
        memory.write(load + i as u16, *byte);
    }
}

/// The SID's 25 registers.
pub fn sid_registers(memory: &Memory) -> [u8; REGISTERS]
    ensures { result ≡ bytes_at (slice_index memory.now) SID_BASE REGISTERS }
{
    let mut registers = [0; REGISTERS];
    for (i, register) in registers.iter_mut().enumerate() {
        *register = memory.read(SID_BASE + i as u16);
    }
    registers
}
