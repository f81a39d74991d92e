//! How often a device refused something.

ghost use Rattle.std.specs.Prelude.{◌≡◌, ℕ};
ghost use Rattle.goat_io.specs.Count.{next_count, Rose};

use std::marker::Model;

/// How often something was refused: 64 bits, and it stays at the last value.
#[derive(Clone, Copy, Debug, PartialEq, Eq)]
pub struct Count {
    times: u64,
}

impl Model for Count {
    ghost Value = { ℕ };

    ghost view = { λ c. c.times };

    ghost inverse = { λ n. record { times = n } };
}

impl Count {
    /// Nothing was refused.
    pub fn zero() -> Self
        ensures { result ≡ 0 }
    {
        Count { times: 0 }
    }

    /// One refusal more.
    pub fn rise(&mut self)
        ensures next { self.new ≡ next_count self.old }
        ensures rose { Rose self.old self.new }
    {
        self.times = self.times.saturating_add(1);
    }

    /// The number of refusals.
    pub fn get(self) -> u64
        ensures { result ≡ self }
    {
        self.times
    }
}
