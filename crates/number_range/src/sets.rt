//! Sets of numbers below 128: a bit for each.

ghost use Rattle.std.specs.Prelude.{◌≡◌, ℕ, ◌≤◌, ◌<◌, ◌↔◌, ◌⊎◌, IsTrue};
ghost use Rattle.number_range.specs.Sets.{Has, IsSetOf, IsMoved, IsSum, HasSome, IsNone};

/// A set of numbers below 128, a bit for each. Sums are taken modulo 128.
#[derive(Clone, Copy)]
pub(crate) struct NumberSet {
    bits: u128,
}

impl NumberSet {
    /// The empty set.
    pub(crate) fn none() -> NumberSet
        ensures { IsSetOf IsNone result }
    {
        NumberSet { bits: 0 }
    }

    /// The set of one number.
    pub(crate) fn only(n: u8) -> NumberSet
        requires { n < 128 }
        ensures { IsSetOf (λ k. k ≡ n) result }
    {
        NumberSet {
            bits: 1 << u32::from(n),
        }
    }

    /// Whether the number is in the set.
    fn has(self, n: u8) -> bool
        requires { n < 128 }
        ensures { IsTrue result ↔ Has self n }
    {
        (self.bits >> u32::from(n)) & 1 == 1
    }

    /// Whether some number is in the set.
    pub(crate) fn has_some(self) -> bool
        ensures { IsTrue result ↔ HasSome self }
    {
        self.bits != 0
    }

    /// The numbers of both sets.
    pub(crate) fn union(self, other: NumberSet) -> NumberSet
        ensures { IsSetOf (λ k. Has self k ⊎ Has other k) result }
    {
        NumberSet {
            bits: self.bits | other.bits,
        }
    }

    /// Each number with this added to it.
    fn moved(self, by: u8) -> NumberSet
        requires { by < 128 }
        ensures { IsSetOf (IsMoved self by) result }
    {
        NumberSet {
            bits: self.bits.rotate_left(u32::from(by)),
        }
    }

    /// Each number with this added to it, if the other set has this.
    fn moved_if(self, other: NumberSet, by: u8) -> NumberSet
        requires { by < 128 }
        ensures { IsSetOf (λ k. Has other by × IsMoved self by k) result }
    {
        if other.has(by) {
            self.moved(by)
        } else {
            NumberSet::none()
        }
    }

    /// The sums of a number of this set and one of the other.
    pub(crate) fn plus(self, other: NumberSet) -> NumberSet
        ensures { IsSetOf (IsSum (Has self) (Has other)) result }
    {
        let mut sums = NumberSet::none();
        for by in 0..128u8 {
            sums = sums.union(self.moved_if(other, by));
        }
        sums
    }

    /// The least number.
    pub(crate) fn least(self) -> u8
        requires { HasSome self }
        ensures has { Has self result }
        ensures least { (n : ℕ) → Has self n → result ≤ n }
    {
        self.bits.trailing_zeros() as u8
    }

    /// The greatest number.
    pub(crate) fn greatest(self) -> u8
        requires { HasSome self }
        ensures has { Has self result }
        ensures greatest { (n : ℕ) → Has self n → n ≤ result }
        ensures small { result < 128 }
    {
        127 - self.bits.leading_zeros() as u8
    }
}
