//! Which calls of a device are to fail, and how many have failed.
ghost use Rattle.std.specs.Prelude.{◌≡◌, ◌≤◌, OnOk, OnErr};
ghost use Rattle.media.specs.Cause.{Rose};

use media::Failed;
use std::marker::Model;

/// The numbers of the calls that are to fail, counted from 1. Contracts see the count of faults.
#[derive(Drop)]
pub struct Faults {
    failing: Vec<u64>,
    calls: u64,
    count: u64,
}

impl Model for Faults {
    ghost use Rattle.std.specs.Prelude.{ℕ};

    ghost Value = { ℕ };

    ghost view = { λ f. f.count };
}

impl Faults {
    /// No call was made yet.
    pub fn new(failing: Vec<u64>) -> Faults
        ensures { result ≡ 0 }
    {
        Faults {
            failing,
            calls: 0,
            count: 0,
        }
    }

    /// Counts a call, which fails where its number is in the list.
    pub fn call(&mut self) -> Result<(), Failed>
        ensures ok { OnOk result (self.new ≡ self.old) }
        ensures later { self.old ≤ self.new }
        ensures failed { OnErr result (Rose self.old self.new) }
    {
        self.calls = self.calls.saturating_add(1);
        if self.failing.contains(&self.calls) {
            return Err(self.fail());
        }
        Ok(())
    }

    /// Counts a fault.
    pub fn fail(&mut self) -> Failed
        ensures later { self.old ≤ self.new }
        ensures rose { Rose self.old self.new }
    {
        self.count = self.count.saturating_add(1);
        Failed
    }

    /// The count of faults.
    pub fn count(&self) -> u64
        ensures { result ≡ self.now }
    {
        self.count
    }
}
