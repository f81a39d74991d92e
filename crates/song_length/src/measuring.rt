//! How long a song is, and what its dearest call costs.

ghost use Rattle.std.specs.Prelude.{◌≡◌, ℕ, ◌+◌, ◌≤◌, None, length, IfOk, IfErr};
ghost use Rattle.cpu6502.specs.declared.memory.TheConstants.{MEMORY_SIZE};
ghost use Rattle.song_length.specs.declared.measuring.TheConstants.{MOST_CALLS};
ghost use Rattle.song_length.specs.Coming.{IsSearched, IsPlayFault, IsStarted, ComesFrom, IsFoundIn};
ghost use Rattle.song_length.specs.Told.{IsMeasured, IsFault, Begins};
ghost use Rattle.cpu6502.specs.declared.machine.Machine.{Machine as State};
ghost use Rattle.sid_run.specs.State.{loaded};

use crate::counts::{Counts, Dearest};
use crate::places::{advance, first_place};
use crate::playing::Playing;
use cpu6502::{CallStop, Cpu, Machine, Memory, NoMemory};
use psid::Psid;
use sid_run::Runner;
use std::alloc::Global;

/// The most plays of a song that are looked at.
pub const MOST_CALLS: u32 = 1_000_000;

/// When the state of a song comes again.
#[derive(Clone, Copy, Debug, PartialEq, Eq)]
pub struct Repeat {
    /// The first play after which the state is one that comes again; plays count from 1, and 0 is init.
    pub from: u32,
    /// After how many plays more it does: the fewest, 1 or more.
    pub length: u32,
}

/// What is told of a song.
#[derive(Clone, Copy, Debug)]
pub struct Measured {
    /// The clock cycles of init, at most 1,400,000.
    pub init: u64,
    /// The dearest play up to where the state comes again, or of those that were asked for; the first of equals.
    pub dearest: Dearest,
    /// When its state comes again; none where it doesn't in as many calls as were asked for.
    pub repeat: Option<Repeat>,
}

/// Why nothing is told of a song.
#[derive(Clone, Copy, Debug, PartialEq, Eq)]
pub enum MeasureFault {
    /// Memory is wanting.
    NoMemory,
    /// A call doesn't return: init, which is call 0, or one of the plays, which are counted from 1.
    Stopped { call: u32, reason: CallStop },
}

impl From<NoMemory> for MeasureFault {
    ghost use Rattle.std.specs.Prelude.{◌≡◌};
    ghost use Rattle.song_length.specs.declared.measuring.MeasureFault.TheVariants as fault;

    ghost from_gives = { λ _ it. it ≡ fault.NoMemory };

    fn from(_: NoMemory) -> Self {
        MeasureFault::NoMemory
    }
}

/// A runner behind init of a song, which is counted from 0.
pub(crate) fn started(alloc: Global, psid: &Psid, song: u8) -> Result<Runner, MeasureFault>
    requires { psid.now.load + length psid.now.image ≤ MEMORY_SIZE }
    ensures started { IfOk result (IsStarted psid.now song) }
    ensures fault { IfErr result (IsFault psid.now song 0) }
{
    let mut runner = Runner::load(alloc, psid)?;
    match runner.init(song) {
        Ok(_registers) => Ok(runner),
        Err(reason) => Err(MeasureFault::Stopped { call: 0, reason }),
    }
}

/// Registers whose values say nothing.
const ANY: Cpu = Cpu {
    a: 0,
    x: 0,
    y: 0,
    sp: 0,
    pc: 0,
    n: false,
    v: false,
    d: false,
    i: false,
    z: false,
    c: false,
};

/// Plays a song until its state comes again, and tells what is counted till then.
///
/// # Errors
///
/// One of the plays that are asked for doesn't return; or out of memory.
fn search(alloc: Global, runner: Runner, calls: u32) -> Result<(Counts, Option<u32>), MeasureFault>
    requires running { runner.stopped ≡ None }
    requires some { 1 ≤ calls }
    requires few { calls ≤ MOST_CALLS }
    ensures searched { IfOk result (λ both. IsSearched runner.play runner.machine calls both.0 both.1) }
    ensures fault { IfErr result (IsPlayFault runner.play runner.machine calls) }
{
    let mut state = Machine {
        cpu: ANY,
        memory: Memory::filled(alloc, 0)?,
    };
    let mut playing = Playing {
        runner,
        counts: Counts {
            calls: 0,
            limit: calls,
            dearest: None,
        },
    };
    match playing.period(&mut state) {
        Ok(found) => Ok((playing.counts, found)),
        Err(reason) => {
            let call = playing.counts.calls;
            if call < calls {
                let call = call + 1;
                return Err(MeasureFault::Stopped { call, reason });
            }
            Ok((playing.counts, None))
        }
    }
}

/// When the state of a song comes again, which does after so many plays from some call on; none where that is after more
/// calls than are asked for.
///
/// # Errors
///
/// Out of memory.
fn repeat_of(
    alloc: Global,
    psid: &Psid,
    song: u8,
    plays: u32,
    calls: u32,
) -> Result<Option<Repeat>, MeasureFault>
    requires fits { psid.now.load + length psid.now.image ≤ MEMORY_SIZE }
    requires comes { (place : ℕ) × ComesFrom psid.now song place plays }
    ensures found { IfOk result (λ repeat. (cycles : ℕ) (first : State) → Begins psid.now song cycles first →
        IsFoundIn (loaded psid.now).play first plays calls repeat) }
    ensures fault { IfErr result (IsFault psid.now song 0) }
{
    if calls < plays {
        return Ok(None);
    }
    let mut one = started(alloc, psid, song)?;
    let mut later = started(alloc, psid, song)?;
    advance(&mut later, plays);
    match first_place(&mut one, &mut later, calls - plays) {
        Some(from) => Ok(Some(Repeat {
            from,
            length: plays,
        })),
        None => Ok(None),
    }
}

/// What is told of a song, whose number counts from 0, in its first plays, 1 to [`MOST_CALLS`] of them. Plays count from
/// 1, and init is call 0.
///
/// Two states are the same where the processor's registers, its flags and all of memory are. No play after the one behind
/// which the state comes again takes more clock cycles than the dearest up to there.
///
/// # Errors
///
/// Init, or one of the plays that are asked for, doesn't return; or out of memory.
pub fn measure(alloc: Global, psid: &Psid, song: u8, calls: u32) -> Result<Measured, MeasureFault>
    requires fits { psid.now.load + length psid.now.image ≤ MEMORY_SIZE }
    requires some { 1 ≤ calls }
    requires few { calls ≤ MOST_CALLS }
    ensures measured { IfOk result (IsMeasured psid.now song calls) }
    ensures fault { IfErr result (IsFault psid.now song calls) }
{
    let runner = started(alloc, psid, song)?;
    let init = runner.cycles();
    let (counts, found) = search(alloc, runner, calls)?;
    let Some(dearest) = counts.dearest else {
        unreachable!()
    };
    let mut repeat = None;
    if let Some(length) = found {
        repeat = repeat_of(alloc, psid, song, length, calls)?;
    }
    Ok(Measured {
        init,
        dearest,
        repeat,
    })
}
