//! Printing the last line of a run, and the lines of a text.

ghost use Rattle.std.specs.Prelude.{[], map, OnOk, IsErrOf};
ghost use Rattle.command_line.specs.Last.{last_word};
ghost use Rattle.command_line.specs.Message.{line_of};
ghost use Rattle.jobs.specs.Stands.{sink_state, Appends, TellsWant};
ghost use Rattle.jobs.specs.Endings.{PrintsLast, PrintsLine, LinesEnd, PutFails};

use command_line::{Line, Message, Refusal, Report, Status};
use goat_io::{Sink, SinkFault};

/// Prints the last line, and answers the status.
pub fn print<K: Sink>(ended: &Result<Report, Refusal>, line: &mut Line, out: &mut K) -> u8
    ensures { PrintsLast (last_word ended.now) result
        (sink_state (K.written out.old) (K.faults out.old))
        (sink_state (K.written out.new) (K.faults out.new)) }
{
    match ended {
        Ok(Report::Says(message)) => say(message, line, out),
        Ok(Report::Shown) => Status::Done.number(),
        Err(Refusal::Says(message)) => say(message, line, out),
        Err(Refusal::SinkFault) => Status::SinkFault.number(),
        Err(Refusal::NoMemory) => want_memory(out),
    }
}

/// Prints the line of a message, and answers its status.
fn say<K: Sink>(message: &Message, line: &mut Line, out: &mut K) -> u8
    ensures { PrintsLine message.now.status (line_of message.now.pieces) result
        (sink_state (K.written out.old) (K.faults out.old))
        (sink_state (K.written out.new) (K.faults out.new)) }
{
    match line.tell(message) {
        Ok(()) => put_line(message.status(), line, out),
        Err(_) => want_memory(out),
    }
}

/// Prints a line, and answers the status that goes with it.
fn put_line<K: Sink>(status: u8, line: &Line, out: &mut K) -> u8
    ensures { PrintsLine status line.now.text result
        (sink_state (K.written out.old) (K.faults out.old))
        (sink_state (K.written out.new) (K.faults out.new)) }
{
    match out.put(line.as_slice()) {
        Ok(()) => status,
        Err(SinkFault::Failed) => Status::SinkFault.number(),
        Err(SinkFault::NoMemory) => want_memory(out),
    }
}

/// Prints these lines, each with its line feed, one after the other. It takes no memory.
///
/// # Errors
///
/// The sink fails, or is out of memory for a line.
pub fn print_lines<K: Sink>(
    lines: &[&'static str],
    out: &mut K,
) -> Result<Report<'static>, Refusal<'static>>
    ensures { LinesEnd (map (λ line. line.now) lines.now) (last_word result)
        (sink_state (K.written out.old) (K.faults out.old))
        (sink_state (K.written out.new) (K.faults out.new)) }
{
    for line in lines {
        put_text(line.as_bytes(), out)?;
    }
    Ok(Report::Shown)
}

/// Prints the line of a message.
///
/// # Errors
///
/// The sink failed, and a beginning of the line is printed; or out of memory.
pub fn put_message<K: Sink>(
    message: &Message,
    line: &mut Line,
    out: &mut K,
) -> Result<(), SinkFault>
    ensures ok { OnOk result (Appends (line_of message.now.pieces)
        (sink_state (K.written out.old) (K.faults out.old))
        (sink_state (K.written out.new) (K.faults out.new))) }
    ensures failed { IsErrOf result SinkFault.Failed → PutFails (line_of message.now.pieces)
        (sink_state (K.written out.old) (K.faults out.old))
        (sink_state (K.written out.new) (K.faults out.new)) }
    ensures no_memory { IsErrOf result SinkFault.NoMemory → Appends []
        (sink_state (K.written out.old) (K.faults out.old))
        (sink_state (K.written out.new) (K.faults out.new)) }
{
    match line.tell(message) {
        Ok(()) => put_text(line.as_slice(), out),
        Err(_) => Err(SinkFault::NoMemory),
    }
}

/// Prints a text, in one piece.
///
/// # Errors
///
/// The sink failed, and a beginning of the text is printed; or it is out of memory.
pub(crate) fn put_text<K: Sink>(text: &[u8], out: &mut K) -> Result<(), SinkFault>
    ensures ok { OnOk result (Appends text.now
        (sink_state (K.written out.old) (K.faults out.old))
        (sink_state (K.written out.new) (K.faults out.new))) }
    ensures failed { IsErrOf result SinkFault.Failed → PutFails text.now
        (sink_state (K.written out.old) (K.faults out.old))
        (sink_state (K.written out.new) (K.faults out.new)) }
    ensures no_memory { IsErrOf result SinkFault.NoMemory → Appends []
        (sink_state (K.written out.old) (K.faults out.old))
        (sink_state (K.written out.new) (K.faults out.new)) }
{
    out.put(text)
}

/// Prints that the program is out of memory, and answers the status.
pub fn want_memory<K: Sink>(out: &mut K) -> u8
    ensures { TellsWant [] result (sink_state (K.written out.old) (K.faults out.old))
        (sink_state (K.written out.new) (K.faults out.new)) }
{
    match out.put(b"no memory\n") {
        Ok(()) => Status::NoMemory.number(),
        Err(SinkFault::NoMemory) => Status::NoMemory.number(),
        Err(SinkFault::Failed) => Status::SinkFault.number(),
    }
}
