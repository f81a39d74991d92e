//! Instruments.

ghost use Rattle.std.specs.Prelude.{◌≤◌};
ghost use Rattle.gts5.specs.Reading.{instrument_at, instruments_at, each_at};
ghost use Rattle.gts5.specs.Gives.{Gives};

use crate::SongFault;
use crate::reader::Reader;
use song_model::{Instrument, InstrumentList};
use std::alloc::Global;

impl Reader {
    /// An instrument: nine numbers and its name.
    ///
    /// # Errors
    ///
    /// The file ends before the instrument does.
    #[tactic(auto, unfolding(crate::specs::Reading::instrument_at))]
    fn instrument<'a>(self, left: &'a [u8]) -> Result<(Instrument, &'a [u8]), SongFault>
        ensures { Gives (λ x. (x.0, x.1.now)) result (instrument_at self.length left.now) }
    {
        let (fields, left) = self.array::<9>(left)?;
        let (name, left) = self.array::<16>(left)?;
        let instrument = Instrument {
            ad: fields[0],
            sr: fields[1],
            wave: fields[2],
            pulse: fields[3],
            filter: fields[4],
            vibrato: fields[5],
            vibrato_delay: fields[6],
            gate_timer: fields[7],
            first_wave: fields[8],
            name,
        };
        Ok((instrument, left))
    }

    /// The next `count` instruments.
    ///
    /// # Errors
    ///
    /// The first fault in them; or out of memory.
    fn some_instruments<'a>(
        self,
        alloc: Global,
        count: u8,
        left: &'a [u8],
    ) -> Result<(InstrumentList, &'a [u8]), SongFault>
        requires { count ≤ 63 }
        ensures { Gives (λ x.
            (x.0, x.1.now)) result (each_at (instrument_at self.length) count left.now) }
    {
        let mut instruments = InstrumentList::new(alloc);
        let mut rest = left;
        for _i in 0..count {
            let (instrument, after) = self.instrument(rest)?;
            if let Err(fault) = instruments.push(instrument) {
                return Err(SongFault::of_push(fault));
            }
            rest = after;
        }
        Ok((instruments, rest))
    }

    /// The count of the instruments and the instruments.
    ///
    /// # Errors
    ///
    /// The first fault in them, a count above 63 too; or out of memory.
    #[tactic(auto, unfolding(crate::specs::Reading::instruments_at))]
    pub fn instruments<'a>(
        self,
        alloc: Global,
        left: &'a [u8],
    ) -> Result<(InstrumentList, &'a [u8]), SongFault>
        ensures { Gives (λ x. (x.0, x.1.now)) result (instruments_at self.length left.now) }
    {
        let (count, left) = self.count(63, left)?;
        self.some_instruments(alloc, count, left)
    }
}
