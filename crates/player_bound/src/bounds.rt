//! The numbers of a packed song's program, made and checked.

ghost use Rattle.std.specs.Prelude.{◌≡◌, IfOk};
ghost use Rattle.cycle_bound.specs.Rules.{bound_by};
ghost use Rattle.player_bound.specs.Programs.{program_blocks, least_init, least_play};
ghost use Rattle.player_bound.specs.Answers.{AreChecked};

use crate::programs::{Program, program_of};
use base::NoMemory;
use cycle_bound::{CertFault, CertKind, Numbers, call_count};
use packed_form::PackedSong;
use play_model::Options;
use std::alloc::Global;

/// The numbers of both entrances.
#[derive(Drop)]
pub struct Certificate {
    /// Of init.
    pub init: Numbers,
    /// Of play.
    pub play: Numbers,
}

impl Certificate {
    ghost use Rattle.std.specs.Prelude.{◌≡◌};
    ghost use Rattle.cycle_bound.specs.Rules.{bound_by};

    /// The first number of each.
    pub fn bounds(&self) -> CallBounds
        ensures init { result.init ≡ bound_by self.now.init }
        ensures play { result.play ≡ bound_by self.now.play }
    {
        CallBounds {
            init: first_of(self.init.as_slice()),
            play: first_of(self.play.as_slice()),
        }
    }
}

/// The first of these numbers; 0 where there is none.
fn first_of(numbers: &[u64]) -> u64
    ensures { result ≡ bound_by numbers.now }
{
    match numbers.first() {
        Some(number) => *number,
        None => 0,
    }
}

/// The first numbers of both entrances: a call takes at most so many clock cycles, and 11.
#[derive(Clone, Copy, Debug, PartialEq, Eq)]
pub struct CallBounds {
    /// Of init.
    pub init: u64,
    /// Of play.
    pub play: u64,
}

impl Program {
    ghost use Rattle.std.specs.Prelude.{◌≡◌, IfOk};
    ghost use Rattle.cycle_bound.specs.Least.{Fit};
    ghost use Rattle.player_bound.specs.Programs.{blocks_of, AreBlocks, least_init, least_play};
    ghost use Rattle.player_bound.specs.Answers.{AreChecked};

    /// The least numbers of its lines.
    fn least(&self, alloc: Global) -> Result<Certificate, NoMemory>
        requires blocks { AreBlocks self.now }
        requires init { Fit (least_init (blocks_of self.now)) }
        requires play { Fit (least_play (blocks_of self.now)) }
        ensures init { IfOk result (λ made. made.init ≡ least_init (blocks_of self.now)) }
        ensures play { IfOk result (λ made. made.play ≡ least_play (blocks_of self.now)) }
    {
        let filter = self.filter.as_slice();
        let voice = self.voice.as_slice();
        Ok(Certificate {
            init: cycle_bound::make(alloc, self.init.as_slice(), None, self.kept)?,
            play: cycle_bound::make(alloc, filter, Some(voice), self.kept)?,
        })
    }

    /// The first numbers of both entrances, where those of init and behind them those of play are admitted.
    fn check(&self, numbers: &[u64]) -> Result<CallBounds, CertFault>
        requires blocks { AreBlocks self.now }
        ensures { AreChecked (blocks_of self.now) numbers.now result }
    {
        let init = self.init.as_slice();
        let filter = self.filter.as_slice();
        let voice = self.voice.as_slice();
        let front = call_count(init, None);
        let behind = call_count(filter, Some(voice));
        let count = numbers.len();
        if count < front || count - front != behind {
            let kind = CertKind::BadShape;
            let is_short = count < front || count - front < behind;
            let place = if is_short { count } else { front + behind };
            return Err(CertFault { place, kind });
        }
        let (of_init, of_play) = numbers.split_at(front);
        match cycle_bound::check(init, None, self.kept, of_init) {
            Err(fault) => Err(fault),
            Ok(init) => match cycle_bound::check(filter, Some(voice), self.kept, of_play) {
                Ok(play) => Ok(CallBounds { init, play }),
                Err(fault) => Err(CertFault {
                    place: front + fault.place,
                    kind: fault.kind,
                }),
            },
        }
    }
}

/// The least numbers that the rules admit for a packed song's program with these options.
///
/// # Errors
///
/// Out of memory.
pub fn make(alloc: Global, packed: &PackedSong, options: &Options) -> Result<Certificate, NoMemory>
    ensures init { IfOk result (λ made. made.init ≡ least_init (program_blocks packed.now options.now)) }
    ensures play { IfOk result (λ made. made.play ≡ least_play (program_blocks packed.now options.now)) }
{
    let program = program_of(alloc, packed, options)?;
    program.least(alloc)
}

/// The first numbers of both entrances, where the rules admit those of init, and behind them those of play, for a packed
/// song's program with these options; and else the first fault: that there are too few or too many, or else that one is
/// too small, with the first place where that is so.
///
/// # Errors
///
/// Out of memory.
pub fn check(
    alloc: Global,
    packed: &PackedSong,
    options: &Options,
    numbers: &[u64],
) -> Result<Result<CallBounds, CertFault>, NoMemory>
    ensures { IfOk result (AreChecked (program_blocks packed.now options.now) numbers.now) }
{
    let program = program_of(alloc, packed, options)?;
    Ok(program.check(numbers))
}
