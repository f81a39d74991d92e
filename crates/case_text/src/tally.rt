//! How many cases agree.

ghost use Rattle.std.specs.Prelude.{◌≡◌, ◌≤◌, ◌↔◌, ◌+◌, min, false, IsTrue, IfOk};

use std::io;

/// How many cases agree, and how many differ.
#[derive(Clone, Copy)]
pub struct Tally {
    /// Those that agree.
    pub agree: u32,
    /// Those that differ.
    pub differ: u32,
}

impl Tally {
    /// No cases.
    pub fn new() -> Tally
        ensures agree { result.agree ≡ 0 }
        ensures differ { result.differ ≡ 0 }
    {
        Tally {
            agree: 0,
            differ: 0,
        }
    }

    /// Counts a case. A count stays at its last value.
    pub fn count(&mut self, agrees: bool)
        ensures agrees { IsTrue agrees → self.new.differ ≡ self.old.differ }
        ensures differs { agrees ≡ false → self.new.agree ≡ self.old.agree }
        ensures is_counted { agrees ≡ false → self.new.differ ≡ min (self.old.differ + 1) u32.MAX }
    {
        if agrees {
            self.agree = self.agree.saturating_add(1);
        } else {
            self.differ = self.differ.saturating_add(1);
        }
    }

    /// Prints how many cases agree, and answers whether there are cases and all of them do.
    ///
    /// # Errors
    ///
    /// The line can't be printed.
    pub fn tell(self, rt: &impl Print) -> io::Result<bool>
        ensures { IfOk result (λ passes. IsTrue passes ↔ ((self.differ ≡ 0) × (1 ≤ self.agree))) }
    {
        let Tally { agree, differ } = self;
        if differ == 0 {
            println!(rt; "{agree} cases agree")?;
        } else {
            println!(rt; "{agree} cases agree, {differ} differ")?;
        }
        Ok(differ == 0 && agree > 0)
    }
}
