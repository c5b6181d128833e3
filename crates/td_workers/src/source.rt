//! Where jobs come from, and where what was made of them goes.

ghost use Rattle.std.specs.Prelude.{◌≡◌, ℕ, Bool, true, false, IfOk, IfErr, OnOk, OnErr, MatchOption};
ghost use Rattle.td_workers.specs.declared.source.Stop.{Stop as TheStop};
ghost use Rattle.td_workers.specs.declared.source.Stop.TheVariants as stop;

/// A job, which is done once.
pub trait Job<D> {
    /// What it may come to.
    ghost does: { Self → D → Type 0 };

    /// Whether what was made of one was made by the thread that takes the jobs in.
    ghost here: { D → Bool };

    /// Does it on a thread of its own.
    fn work(self) -> D
        ensures does { does self result }
        ensures here { here result ≡ false };

    /// Does it on the thread that takes the jobs in, where none is taken in meanwhile.
    fn work_here(self) -> D
        ensures does { does self result }
        ensures here { here result ≡ true };
}

/// Why no more jobs are taken in.
#[derive(Clone, Copy, Debug, PartialEq, Eq)]
pub enum Stop {
    /// The outside failed.
    Failed,
    /// Out of memory.
    Memory,
}

/// Where jobs come from, and where what was made of them goes.
pub trait JobSource<D, J: Job<D>> {
    /// The second may be what the first has become.
    ghost goes: { Self → Self → Type 0 };

    /// It is in order.
    ghost ready: { Self → Type 0 };

    /// The job came from here.
    ghost waits: { Self → J → Type 0 };

    /// What it is to take in the job of a number.
    ghost admits: { Self → ℕ → J → Self → Type 0 };

    /// What it is to have no more jobs.
    ghost closes: { Self → Self → Type 0 };

    /// What it is to take back what was made of the job of a number.
    ghost parts: { Self → ℕ → D → Self → Type 0 };

    /// What it is to stop.
    ghost stops: { Self → TheStop → Self → Type 0 };

    /// Waits for the next job, which has this number. There is none where no more will come.
    ///
    /// # Errors
    ///
    /// Why none was taken in.
    fn next(&mut self, number: u64) -> Result<Option<J>, Stop>
        requires { ready self.old }
        ensures goes { goes self.old self.new }
        ensures ready { OnOk result (ready self.new) }
        ensures stays { OnOk result ((j : J) → waits self.old j → waits self.new j) }
        ensures came { IfOk result (λ came. MatchOption came (closes self.old self.new)
            (λ job. admits self.old number job self.new × waits self.new job)) }
        ensures stops { IfErr result (λ why. stops self.old why self.new) };

    /// Takes back what was made of the job of this number.
    ///
    /// # Errors
    ///
    /// Why it wasn't taken back.
    fn part(&mut self, number: u64, made: D) -> Result<(), Stop>
        requires ready { ready self.old }
        requires came { (job : J) × waits self.old job × J.does job made }
        ensures goes { goes self.old self.new }
        ensures ready { OnOk result (ready self.new) }
        ensures stays { OnOk result ((j : J) → waits self.old j → waits self.new j) }
        ensures parts { OnOk result (parts self.old number made self.new) }
        ensures stops { IfErr result (λ why. stops self.old why self.new) };

    ghost goes_itself: { (a : Self) → goes a a };

    ghost goes_on: { (a b c : Self) → goes a b → goes b c → goes a c };

    ghost stops_on: { (a b c : Self) (why : TheStop) → goes a b → stops b why c → stops a why c };

    ghost stops_memory: { (a b : Self) → goes a b → stops a stop.Memory b };
}
