//! How many calls of a device have failed.
ghost use Rattle.std.specs.Prelude.{◌≡◌, ◌≤◌, IfOk, OnOk, OnErr, Ok};
ghost use Rattle.media.specs.Cause.{Rose};

use media::Failed;
use std::io;
use std::marker::Model;

/// A count of faults, which stands still at its end. Contracts see the count.
#[derive(Drop)]
pub(crate) struct Faults {
    count: u64,
}

impl Model for Faults {
    ghost use Rattle.std.specs.Prelude.{ℕ};

    ghost Value = { ℕ };

    ghost view = { λ f. f.count };
}

impl Faults {
    /// No call has failed yet.
    pub(crate) fn none() -> Faults
        ensures { result ≡ 0 }
    {
        Faults { count: 0 }
    }

    /// Counts a fault.
    fn fail(&mut self) -> Failed
        ensures later { self.old ≤ self.new }
        ensures rose { Rose self.old self.new }
    {
        self.count = self.count.saturating_add(1);
        Failed
    }

    /// What a call of the system gave, counted where it failed.
    pub(crate) fn told<T: Drop>(&mut self, outcome: io::Result<T>) -> Result<T, Failed>
        ensures gave { IfOk result (λ given. outcome ≡ Ok given) }
        ensures same { OnOk result (self.new ≡ self.old) }
        ensures later { self.old ≤ self.new }
        ensures rose { OnErr result (Rose self.old self.new) }
    {
        match outcome {
            Ok(given) => Ok(given),
            Err(_) => Err(self.fail()),
        }
    }

    /// The count of faults.
    pub(crate) fn count(&self) -> u64
        ensures { result ≡ self.now }
    {
        self.count
    }
}
