//! The job of a run, done by its command: a chain of stages, in a file of its own here, in `jobs`, in `file_jobs`, in
//! `cost_jobs` or in `length_jobs`.

ghost use Rattle.command_line.specs.Job.{job_of};
ghost use Rattle.command_line.specs.Last.{last_word};
ghost use Rattle.jobs.specs.Stands.{folder_state, sink_state};
ghost use Rattle.jobs.specs.Endings.{JobEnds};
ghost use Rattle.command_line.specs.Words.{HasAllowedNumbers};

use crate::help::{tell_forms, tell_version};
use crate::pack::pack_song;
use crate::selftest::self_test;
use command_line::{Job, Line, Refusal, Report};
use goat_io::{Folder, Sink};
use std::alloc::Global;

/// Does the job, but for its last line.
///
/// # Errors
///
/// A stage ends the run, a device fails, or out of memory.
pub fn perform<'a, F: Folder, K: Sink>(
    alloc: Global,
    job: &Job<'a>,
    folder: &mut F,
    line: &mut Line,
    out: &mut K,
) -> Result<Report<'a>, Refusal<'a>>
    requires { HasAllowedNumbers (job_of job.now) }
    ensures { JobEnds (job_of job.now) (last_word result)
        (folder_state (F.files folder.old) (F.counts folder.old))
        (folder_state (F.files folder.new) (F.counts folder.new))
        (sink_state (K.written out.old) (K.faults out.old))
        (sink_state (K.written out.new) (K.faults out.new)) }
{
    match *job {
        Job::Pack {
            input,
            output,
            psid,
            address,
            zero_page,
            options,
            chip,
        } => pack_song(
            alloc, input, output, psid, address, zero_page, options, chip, folder,
        ),
        Job::Copy { input, output } => file_jobs::copy::copy_song(alloc, input, output, folder),
        Job::Edit {
            input,
            script,
            output,
        } => file_jobs::edit::edit_song(alloc, input, script, output, folder),
        Job::Check { input } => file_jobs::check::check_song(alloc, input, folder),
        Job::Trace {
            input,
            subtune,
            frames,
            options,
        } => jobs::trace::trace_song(alloc, input, subtune, frames, options, folder, line, out),
        Job::Run {
            input,
            subtune,
            frames,
        } => jobs::run::run_psid(alloc, input, subtune, frames, folder, line, out),
        Job::Selftest { number } => self_test(alloc, number),
        Job::Disasm { input, output } => file_jobs::disasm::list_psid(alloc, input, output, folder),
        Job::Asm { input, output } => file_jobs::asm::assemble_listing(
            alloc, input, output, folder,
        ),
        Job::Join {
            input,
            second,
            output,
        } => file_jobs::join::join_songs(alloc, input, second, output, folder),
        Job::Help { topic } => tell_forms(topic, out),
        Job::Version => tell_version(out),
        Job::Parts { input, options } => {
            cost_jobs::parts::tell_parts(alloc, input, options, folder, line, out)
        }
        Job::Show { input, output } => file_jobs::show::show_song(alloc, input, output, folder),
        Job::Bound {
            input,
            output,
            options,
        } => cost_jobs::bound::write_bound(alloc, input, output, options, folder),
        Job::BoundCheck {
            input,
            certificate,
            options,
        } => cost_jobs::bound::check_bound(alloc, input, certificate, options, folder),
        Job::Measure { input, calls } => {
            length_jobs::measure::measure_songs(alloc, input, calls, folder, line, out)
        }
        Job::Chart {
            input,
            output,
            subtune,
            calls,
        } => length_jobs::chart::draw_song(alloc, input, output, subtune, calls, folder),
    }
}
