//! The count of a stream's calls, some of which fail.

ghost use Rattle.std.specs.Prelude.{◌≡◌, ◌≤◌};
ghost use Rattle.adj_io.specs.Faults.{Rose};
ghost use Rattle.adj_io.specs.InMemory.{Tally, untouched, called, failed, is_failing};

use std::marker::Model;

/// How many calls were made, which of them fail, and how many failed.
#[derive(Drop)]
pub struct Calls {
    made: u64,
    failing: Vec<u64>,
    faults: u64,
}

impl Model for Calls {
    ghost Value = { Tally };

    ghost view = { λ c. record { made = c.made; failing = c.failing.items; faults = c.faults } };
}

impl Calls {
    /// No call was made yet, and those with these numbers are to fail. The first call is 1.
    pub fn new(failing: Vec<u64>) -> Calls
        ensures { result ≡ untouched failing.items }
    {
        Calls {
            made: 0,
            failing,
            faults: 0,
        }
    }

    /// Whether the next call is one of those that fail.
    pub fn is_next_failing(&self) -> bool
        ensures { result ≡ is_failing self.now }
    {
        self.failing.contains(&self.made.saturating_add(1))
    }

    /// Counts a call.
    pub fn succeed(&mut self)
        ensures { self.new ≡ called self.old }
    {
        self.made = self.made.saturating_add(1);
    }

    /// Counts a call that failed.
    pub fn fail(&mut self)
        ensures failed { self.new ≡ failed self.old }
        ensures count { self.old.faults ≤ self.new.faults }
        ensures risen { Rose self.old.faults self.new.faults }
    {
        self.made = self.made.saturating_add(1);
        self.faults = self.faults.saturating_add(1);
    }
}
