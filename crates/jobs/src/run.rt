//! `run IN SUBTUNE FRAMES`: the PSID file IN is run, and the SID's registers are printed after each call.
#![tactic(auto, using(crate::proofs::Room::pieces_fit))]

ghost use Rattle.std.specs.Prelude.{◌≡◌, ◌≤◌, ◌++◌, [], ◌∷◌, codes, decimal, length, None};
ghost use Rattle.command_line.specs.Last.{last_of, last_word, Says};
ghost use Rattle.command_line.specs.Lines.{line, address_digits};
ghost use Rattle.jobs.specs.Lines.{stop_line};
ghost use Rattle.jobs.specs.Stands.{folder_state, sink_state};
ghost use Rattle.jobs.specs.Endings.{JobEnds, CallsEnd};
ghost use Rattle.command_line.specs.Words.{Run, frame_limit};

use crate::calling::next_call;
use crate::psid_stages::{read_psid, subtune_of};
use crate::registers::put_registers;
use command_line::{Line, Piece, Refusal, Report, Status};
use cpu6502::{CallStop, Stop};
use goat_io::{Folder, Sink};
use sid_run::Runner;
use std::alloc::Global;

/// Runs a subtune, counted from 1, of a PSID file: init, and then play `frames` times. Prints a line of registers
/// after each call.
///
/// # Errors
///
/// A stage ends the run, a device fails, or out of memory.
pub fn run_psid<'a, F: Folder, K: Sink>(
    alloc: Global,
    input: &'a str,
    subtune: u8,
    frames: u32,
    folder: &mut F,
    line: &mut Line,
    out: &mut K,
) -> Result<Report<'a>, Refusal<'a>>
    requires { frames ≤ frame_limit }
    ensures { JobEnds (Run input.now subtune frames) (last_word result)
        (folder_state (F.files folder.old) (F.counts folder.old))
        (folder_state (F.files folder.new) (F.counts folder.new))
        (sink_state (K.written out.old) (K.faults out.old))
        (sink_state (K.written out.new) (K.faults out.new)) }
{
    let psid = read_psid(alloc, input, folder)?;
    let number = subtune_of(&psid, subtune)?;
    let Ok(mut runner) = Runner::load(alloc, &psid) else {
        return Err(Refusal::NoMemory);
    };
    show_calls(&mut runner, number, frames, line, out)
}

/// Calls init with a subtune's number from 0, and then play `frames` times, and prints a line after each call.
fn show_calls<K: Sink>(
    runner: &mut Runner,
    number: u8,
    frames: u32,
    line: &mut Line,
    out: &mut K,
) -> Result<Report<'static>, Refusal<'static>>
    requires running { runner.old.stopped ≡ None }
    requires limit { frames ≤ frame_limit }
    ensures { CallsEnd runner.old number frames (last_word result)
        (sink_state (K.written out.old) (K.faults out.old))
        (sink_state (K.written out.new) (K.faults out.new)) }
{
    for call in 0..=frames {
        let registers = match next_call(runner, number, call) {
            Ok(registers) => registers,
            Err(reason) => return Err(stop_refusal(reason, call)),
        };
        put_registers(call, &registers, line, out)?;
    }
    Ok(Report::Shown)
}

/// The refusal of a file of which this call, counted from 0, did not return.
pub fn stop_refusal(reason: CallStop, call: u32) -> Refusal<'static>
    ensures { last_of result ≡ Says 13 (stop_line reason call) }
{
    match reason {
        CallStop::Stopped(Stop::Illegal { at }) => refusal_at("illegal at $", at, call),
        CallStop::Stopped(Stop::Break { at }) => refusal_at("break at $", at, call),
        CallStop::Stopped(Stop::Decimal { at }) => refusal_at("decimal at $", at, call),
        CallStop::Budget => Refusal::says(
            Status::Stopped,
            &[
                Piece::Words("machine stopped: no return in call "),
                Piece::Number(u64::from(call)),
            ],
        ),
    }
}

/// The refusal of a file that is stopped by the instruction at an address.
fn refusal_at(words: &'static str, address: u16, call: u32) -> Refusal<'static>
    requires { length words.now ≤ 20 }
    ensures { last_of result ≡ Says 13 (line (codes "machine stopped: " ∷
        (words.now ++ address_digits address) ∷ codes " in call " ∷ decimal call ∷ [])) }
{
    Refusal::says(
        Status::Stopped,
        &[
            Piece::Words("machine stopped: "),
            Piece::Words(words),
            Piece::Address(address),
            Piece::Words(" in call "),
            Piece::Number(u64::from(call)),
        ],
    )
}
