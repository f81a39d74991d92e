//! What is counted of a song's plays.

ghost use Rattle.std.specs.Prelude.{◌≡◌};
ghost use Rattle.song_length.specs.Counts.{is_dearer};

/// The dearest of a song's plays.
#[derive(Clone, Copy, Debug, PartialEq, Eq)]
pub struct Dearest {
    /// Its clock cycles, at most 1,400,000.
    pub cycles: u64,
    /// Its number, counted from 1.
    pub call: u32,
}

/// How many plays of a song were made, and the dearest of the first ones.
#[derive(Clone, Copy, Debug)]
pub struct Counts {
    /// How many there were.
    pub calls: u32,
    /// How many of them may be the dearest.
    pub limit: u32,
    /// The dearest of those; the first of equals.
    pub dearest: Option<Dearest>,
}

impl Counts {
    ghost use Rattle.std.specs.Prelude.{◌≡◌, ◌+◌, ◌<◌, ◌^◌};
    ghost use Rattle.song_length.specs.Counts.{noted};

    /// Counts a play that took these clock cycles.
    pub fn note(&mut self, cycles: u64)
        requires { self.old.calls + 1 < 2 ^ 32 }
        ensures { self.new ≡ noted self.old cycles }
    {
        self.calls += 1;
        if self.calls <= self.limit && is_dearer(self.dearest, cycles) {
            self.dearest = Some(Dearest {
                cycles,
                call: self.calls,
            });
        }
    }
}

/// Whether a play with these clock cycles is dearer than the dearest of those that were made before it.
fn is_dearer(dearest: Option<Dearest>, cycles: u64) -> bool
    ensures { result ≡ is_dearer dearest cycles }
{
    match dearest {
        None => true,
        Some(dearest) => dearest.cycles < cycles,
    }
}
