ghost use Rattle.std.specs.Prelude.{◌≡◌, ◌↔◌, IsTrue, Contains, if◌then◌else◌};
ghost use Rattle.byte_ports.specs.Causes.{counted};

/// The numbers of the calls that fail, counted from 1, and the number of calls so far.
#[derive(Drop)]
pub(crate) struct FaultPlan {
    pub(crate) fails: Vec<u64>,
    pub(crate) calls: u64,
    pub(crate) faults: u64,
}

impl FaultPlan {
    pub(crate) fn new(fails: Vec<u64>) -> FaultPlan
        ensures { result ≡ record { fails = fails; calls = 0; faults = 0 } }
    {
        FaultPlan {
            fails,
            calls: 0,
            faults: 0,
        }
    }

    /// Counts one call, and says whether it fails.
    pub(crate) fn next_fails(&mut self) -> bool
        ensures fails { self.new.fails ≡ self.old.fails }
        ensures calls { self.new.calls ≡ counted self.old.calls }
        ensures failed { IsTrue result ↔ Contains self.old.fails.items (counted self.old.calls) }
        ensures faults { self.new.faults ≡ (if result then counted self.old.faults else self.old.faults) }
    {
        self.calls = self.calls.saturating_add(1);
        let fails = self.fails.contains(&self.calls);
        if fails {
            self.faults = self.faults.saturating_add(1);
        }
        fails
    }
}
