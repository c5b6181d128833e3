//! Which calls of an object in memory fail.

ghost use Rattle.std.specs.Prelude.{◌≡◌, ◌≤◌};
ghost use Rattle.td_out.specs.Calls.{fails, count_call, count_failure};

use td_cdr::List;

/// The calls of an object in memory. Both counts stand still at 2^64 - 1.
#[derive(Debug, Drop)]
pub struct Calls {
    /// The numbers of the calls that fail, counted from 1.
    pub failing: List<u64>,
    /// How many calls were made.
    pub made: u64,
    /// How many of them failed.
    pub faults: u64,
}

impl Calls {
    /// No call was made yet.
    pub fn new(failing: List<u64>) -> Calls
        ensures { result ≡ record { failing = failing; made = 0; faults = 0 } }
    {
        Calls {
            failing,
            made: 0,
            faults: 0,
        }
    }

    /// Whether the next call fails.
    pub fn fails(&self) -> bool
        ensures { result ≡ fails self.now }
    {
        self.failing.contains(&self.made.saturating_add(1))
    }

    /// Counts a call that is done.
    pub fn count(&mut self)
        ensures { self.new ≡ count_call self.old }
    {
        self.made = self.made.saturating_add(1);
    }

    /// Counts a call that failed.
    pub fn count_fault(&mut self)
        ensures after { self.new ≡ count_failure self.old }
        ensures later { self.old.faults ≤ self.new.faults }
    {
        self.made = self.made.saturating_add(1);
        self.faults = self.faults.saturating_add(1);
    }
}
