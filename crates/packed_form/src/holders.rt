//! What the instruments of a packed song hold before their notes.

ghost use Rattle.std.specs.Prelude.{◌≡◌, ◌≤◌, nat_le, length};
ghost use Rattle.std.specs.List.{position_or_len};
ghost use Rattle.song_facts.specs.Hold.{hold_of, how_much};
ghost use Rattle.packed_form.specs.Unpacked.{unpacked_instrument};
ghost use Rattle.packed_form.specs.Holders.{held, first_holder};

use crate::{PackedInstrument, PackedSong};
use song_facts::Hold;

/// Where the gateoff timer stands in an instrument's bytes.
const GATE_TIMER: usize = 7;

impl PackedInstrument {
    /// What the instrument holds before its notes.
    fn hold(&self) -> Hold
        ensures { result ≡ hold_of (unpacked_instrument self.now) }
    {
        Hold::of(self.bytes[GATE_TIMER])
    }

    /// Whether the instrument holds so much before its notes, or more.
    fn holds(&self, least: u8) -> bool
        ensures { result ≡ nat_le least (held self.now) }
    {
        least <= self.hold().how_much()
    }
}

/// How many of the instruments stand before the first that holds so much, or more.
fn before_holder(instruments: &[PackedInstrument], least: u8) -> usize
    ensures before { result ≡ position_or_len (λ i. nat_le least (held i)) instruments.now }
    ensures within { result ≤ length instruments.now }
{
    let mut before = 0;
    for instrument in instruments {
        if instrument.holds(least) {
            return before;
        }
        before += 1;
    }
    before
}

impl PackedSong {
    /// The number of the first instrument that holds so much before its notes, or more: 1 to 63, and one more than the
    /// last one has where there is none.
    pub fn first_holder(&self, hold: Hold) -> u8
        ensures holder { result ≡ first_holder self.now hold }
        ensures most { result ≤ 64 }
    {
        before_holder(self.instruments.as_slice(), hold.how_much()) as u8 + 1
    }
}
