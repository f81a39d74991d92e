//! What a song leaves in the SID's registers, added up, and the steps that the machine makes in playing its packed file.
#![tactic(auto, using(crate::proofs::Room::pieces_fit))]

ghost use Rattle.std.specs.Prelude.{◌≡◌, ◌+◌, ◌*◌, ◌^◌, ◌<◌, ◌≤◌, true, None, length, sum, IfOk, Ok};
ghost use Rattle.song_model.specs.Limits.{KeepsLimits};
ghost use Rattle.song_model.specs.LookUp.{playable_subtunes};
ghost use Rattle.play_model.specs.State.{no_options};
ghost use Rattle.play_model.specs.Playable.{IsPlayable};
ghost use Rattle.psid.specs.declared.header.Psid.{Psid as File};
ghost use Rattle.command_line.specs.declared.chip.Chip.TheVariants.{Mos6581};
ghost use Rattle.psid.specs.Reading.{psid_read};
ghost use Rattle.sid_run.specs.State.{loaded};
ghost use Rattle.command_line.specs.Last.{last_word, Says};
ghost use Rattle.jobs.specs.Lines.{selftest_line};
ghost use Rattle.jobs.specs.Packed.{IsWrittenFile};
ghost use Rattle.jobs.specs.Endings.{FirstCallsReturn};
ghost use Rattle.jobs.specs.Selftest.{calls_sum, register_sum, selftest_calls, CallsTake, FileTakes};

use crate::calling::{next_call, next_frame};
use command_line::{Piece, Report};
use play_model::Options;
use playroutine::start;
use psid::{Psid, PsidFault};
use sid_run::Runner;
use song_model::{NoMemory, Song};
use std::alloc::Global;

/// How many calls of each subtune are made: its init, and 300 plays.
const CALLS: u32 = 301;

/// The sum of the registers.
fn bytes_sum(registers: &[u8; 25]) -> u64
    ensures sum { result ≡ sum registers.now }
    ensures most { result ≤ 25 * 255 }
{
    let mut sum = 0;
    for register in registers {
        sum += u64::from(*register);
    }
    sum
}

/// The sum of the registers after init of a subtune, counted from 0, and after each of its frames.
fn subtune_sum(song: &Song, subtune: u8) -> u64
    requires playable { IsPlayable song.now }
    requires there { subtune < length (playable_subtunes song.now) }
    ensures sum { result ≡ calls_sum song.now subtune selftest_calls }
    ensures most { result ≤ 301 * 25 * 255 }
{
    let Ok(mut player) = start(song, subtune, Options::default()) else {
        unreachable!()
    };
    let mut sum = 0;
    for call in 0..CALLS {
        sum += bytes_sum(&next_frame(&mut player, call));
    }
    sum
}

/// The sum of the registers after all these calls of all subtunes, as a number of 32 bits.
pub fn register_sum(song: &Song) -> u32
    requires { IsPlayable song.now }
    ensures { result ≡ register_sum song.now }
{
    let mut sum = 0;
    for subtune in 0..song.playable_count() {
        sum += subtune_sum(song, subtune);
    }
    sum as u32
}

/// The steps of the first calls of a loaded file: init of a subtune, counted from 0, and its plays.
fn count_steps(runner: &mut Runner, subtune: u8) -> u64
    requires running { runner.old.stopped ≡ None }
    requires returns { FirstCallsReturn runner.old subtune selftest_calls }
    ensures take { CallsTake runner.old subtune selftest_calls result }
    ensures most { result ≤ 301 * 200000 }
{
    let mut steps = 0;
    for call in 0..CALLS {
        match next_call(runner, subtune, call) {
            Ok(_) => steps += u64::from(runner.spent()),
            Err(_) => unreachable!(),
        }
    }
    steps
}

/// The same of a file that is loaded anew.
///
/// # Errors
///
/// Out of memory.
fn subtune_steps(alloc: Global, psid: &Psid, subtune: u8) -> Result<u64, NoMemory>
    requires room { psid.now.load + length psid.now.image ≤ 65536 }
    requires returns { FirstCallsReturn (loaded psid.now) subtune selftest_calls }
    ensures take { IfOk result (CallsTake (loaded psid.now) subtune selftest_calls) }
    ensures most { IfOk result (λ steps. steps ≤ 301 * 200000) }
{
    let mut runner = Runner::load(alloc, psid)?;
    Ok(count_steps(&mut runner, subtune))
}

/// The header and the image of a packed file.
///
/// # Errors
///
/// Out of memory.
fn read_packed(alloc: Global, file: &[u8]) -> Result<Psid, NoMemory>
    requires { (psid : File) × (psid_read file.now ≡ Ok psid) }
    ensures reads { IfOk result (λ psid. psid_read file.now ≡ Ok psid) }
    ensures fits { IfOk result (λ psid. psid.load + length psid.image ≤ 65536) }
{
    match psid::read(alloc, file) {
        Ok(psid) => Ok(psid),
        Err(PsidFault::NoMemory) => Err(NoMemory),
        Err(_) => unreachable!(),
    }
}

/// The steps of all subtunes of a song's packed file.
///
/// # Errors
///
/// Out of memory.
pub fn steps_of(alloc: Global, song: &Song, file: &[u8]) -> Result<u64, NoMemory>
    requires limits { KeepsLimits song.now }
    requires playable { IsPlayable song.now }
    requires written { IsWrittenFile true 0x1000 0xFC song.now no_options Mos6581 file.now }
    ensures steps { IfOk result (FileTakes song.now file.now) }
    ensures most { IfOk result (λ steps. steps < 10 ^ 10) }
{
    let psid = read_packed(alloc, file)?;
    let mut steps = 0;
    for subtune in 0..song.playable_count() {
        steps += subtune_steps(alloc, &psid, subtune)?;
    }
    Ok(steps)
}

/// The report of a song with so many playable subtunes, this sum and so many steps.
pub fn selftest_report(number: u64, subtunes: u8, sum: u32, steps: u64) -> Report<'static>
    requires { steps < 10 ^ 10 }
    ensures { last_word (Ok result) ≡ Says 0 (selftest_line number subtunes sum steps) }
{
    Report::says(&[
        Piece::Words("selftest "),
        Piece::Number(number),
        Piece::Words(": "),
        Piece::Number(u64::from(subtunes)),
        Piece::Words(" subtunes, 300 frames, sum "),
        Piece::Sum(sum),
        Piece::Words(", "),
        Piece::Number(steps),
        Piece::Words(" steps"),
    ])
}
