//! `help`, or with the first word of a form behind it, and `version`: the program tells of itself.

ghost use Rattle.command_line.specs.Last.{last_word};
ghost use Rattle.command_line.specs.Words.{Help, Version};
ghost use Rattle.jobs.specs.Stands.{FolderState, sink_state};
ghost use Rattle.jobs.specs.Endings.{JobEnds};

use command_line::{Refusal, Report, Topic, version_lines};
use goat_io::Sink;
use jobs::print_lines;

/// Tells of all forms, or of one.
///
/// # Errors
///
/// The sink fails, or is out of memory.
pub fn tell_forms<K: Sink>(topic: Topic, out: &mut K) -> Result<Report<'static>, Refusal<'static>>
    ensures { (folder : FolderState) → JobEnds (Help topic) (last_word result) folder folder
        (sink_state (K.written out.old) (K.faults out.old))
        (sink_state (K.written out.new) (K.faults out.new)) }
{
    print_lines(topic.lines(), out)
}

/// Tells the version, and what it was proved with.
///
/// # Errors
///
/// The sink fails, or is out of memory.
pub fn tell_version<K: Sink>(out: &mut K) -> Result<Report<'static>, Refusal<'static>>
    ensures { (folder : FolderState) → JobEnds Version (last_word result) folder folder
        (sink_state (K.written out.old) (K.faults out.old))
        (sink_state (K.written out.new) (K.faults out.new)) }
{
    print_lines(version_lines(), out)
}
