//! Printing the registers of the SID after a call.

ghost use Rattle.std.specs.Prelude.{[], OnOk, IsErrOf};
ghost use Rattle.command_line.specs.RegisterText.{register_line};
ghost use Rattle.jobs.specs.Stands.{sink_state, Appends};
ghost use Rattle.jobs.specs.Endings.{PutFails};

use crate::printing::put_text;
use command_line::Line;
use goat_io::{Sink, SinkFault};

/// Prints the line of a call.
///
/// # Errors
///
/// The sink failed, and a beginning of the line is printed; or out of memory.
pub fn put_registers<K: Sink>(
    call: u32,
    registers: &[u8; 25],
    line: &mut Line,
    out: &mut K,
) -> Result<(), SinkFault>
    ensures ok { OnOk result (Appends (register_line call registers.now)
        (sink_state (K.written out.old) (K.faults out.old))
        (sink_state (K.written out.new) (K.faults out.new))) }
    ensures failed { IsErrOf result SinkFault.Failed → PutFails (register_line call registers.now)
        (sink_state (K.written out.old) (K.faults out.old))
        (sink_state (K.written out.new) (K.faults out.new)) }
    ensures no_memory { IsErrOf result SinkFault.NoMemory → Appends []
        (sink_state (K.written out.old) (K.faults out.old))
        (sink_state (K.written out.new) (K.faults out.new)) }
{
    match line.tell_registers(call, registers) {
        Ok(()) => put_text(line.as_slice(), out),
        Err(_) => Err(SinkFault::NoMemory),
    }
}
