//! A countdown to one failure, for records that are to fail.

ghost use Rattle.std.specs.Prelude.{◌≡◌, ◌↔◌, ◌-◌, ℕ, IsErr, OnErr, OnOk, Some, None, option_map};
ghost use Rattle.x12_numbers.specs.Count.{failed_in_all};
ghost use Rattle.x12_profile.specs.Stop.{CountsFailures};

/// The call whose turn it was to fail.
#[derive(Clone, Copy, PartialEq, Eq)]
pub struct CountedDown;

/// A number of calls that pass, one that fails, and calls that pass for good.
#[derive(Clone, Copy, PartialEq, Eq)]
pub struct Countdown {
    /// How many calls pass before the one that fails; `None` once it failed.
    pub passes: Option<u64>,
    /// How many calls failed.
    pub own: u64,
}

impl Countdown {
    /// A countdown that fails once, after this many calls.
    pub fn new(passes: u64) -> Countdown
        ensures passes { result.passes ≡ Some passes }
        ensures own { result.own ≡ 0 }
    {
        Countdown {
            passes: Some(passes),
            own: 0,
        }
    }

    /// Lets a call pass, or fails it.
    ///
    /// A failure is counted beside those of whatever fails by itself.
    pub fn pass(&mut self) -> Result<(), CountedDown>
        ensures fails { IsErr result ↔ (self.old.passes ≡ Some 0) }
        ensures left { OnOk result (self.new.passes ≡ option_map (λ n. n - 1) self.old.passes) }
        ensures once { OnErr result (self.new.passes ≡ None) }
        ensures counted { (others : ℕ) → CountsFailures result (λ _. Unit {0})
            (failed_in_all others self.old.own) (failed_in_all others self.new.own) }
    {
        match self.passes {
            Some(0) => {
                self.passes = None;
                self.own = self.own.saturating_add(1);
                Err(CountedDown)
            }
            Some(left) => {
                self.passes = Some(left - 1);
                Ok(())
            }
            None => Ok(()),
        }
    }

    /// How often this failed and something else did, up to 18446744073709551615.
    pub fn failures(&self, others: u64) -> u64
        ensures { result ≡ failed_in_all others self.now.own }
    {
        others.saturating_add(self.own)
    }
}
