//! A log disk that counts its calls.
ghost use Rattle.std.specs.Prelude.{◌≡◌, ◌<◌, ◌^◌, min};

use media::{Disk, Failed};
use std::marker::Model;

/// A log disk, with how often it was called to read, write, sync or discard, and how many bytes it read. A count that
/// has come to its end stands still.
///
/// Contracts see the disk alone.
#[derive(Drop)]
pub struct Metered<D> {
    inner: D,
    calls: u64,
    bytes_read: u64,
}

impl<D> Model for Metered<D> {
    ghost Value = { D };

    ghost view = { λ m. m.inner };
}

impl<D> Metered<D> {
    /// No call was made yet.
    pub fn new(inner: D) -> Metered<D>
        ensures { result ≡ inner }
    {
        Metered {
            inner,
            calls: 0,
            bytes_read: 0,
        }
    }

    /// How many calls were made.
    pub fn calls(&self) -> u64 {
        self.calls
    }

    /// How many bytes were read.
    pub fn bytes_read(&self) -> u64 {
        self.bytes_read
    }

    /// The disk.
    pub fn into_inner(self) -> D
        ensures { result ≡ self }
    {
        let Metered { inner, .. } = self;
        inner
    }
}

/// One call more.
fn count(calls: &mut u64) {
    *calls = calls.saturating_add(1);
}

impl<D: Disk> Disk for Metered<D> {
    ghost tells = { D.tells };

    ghost start = { λ m. D.start m };

    ghost len = { λ m. D.len m };

    ghost told = { λ m. D.told m };

    ghost may_leave = { λ m c. D.may_leave m c };

    ghost moment = { λ m. D.moment m };

    ghost left_since = { λ m t c. D.left_since m t c };

    ghost faults = { λ m. D.faults m };

    ghost own = { λ m. D.own m };

    ghost refused = { λ m. D.refused m };

    ghost passes = { λ m. D.passes m };

    ghost fuses = { D.fuses };

    ghost extent = { λ m t. D.extent m t };

    ghost counts_now = { λ m t c le now. D.counts_now m t c le now };

    ghost only_now = { λ m c left. D.only_now m c left };

    fn start(&self) -> u64 {
        self.inner.start()
    }

    fn len(&self) -> u64 {
        self.inner.len()
    }

    fn read_at(&mut self, at: u64, buf: &mut [u8]) -> Result<usize, Failed> {
        count(&mut self.calls);
        let n = self.inner.read_at(at, buf)?;
        self.bytes_read = self.bytes_read.saturating_add(n as u64);
        Ok(n)
    }

    fn write_at(&mut self, at: u64, bytes: &[u8]) -> Result<(), Failed> {
        count(&mut self.calls);
        self.inner.write_at(at, bytes)
    }

    fn sync(&mut self) -> Result<(), Failed> {
        count(&mut self.calls);
        self.inner.sync()
    }

    fn discard(&mut self, upto: u64) -> Result<(), Failed> {
        count(&mut self.calls);
        self.inner.discard(upto)
    }

    fn power_cycle(&mut self, keep: u64) {
        self.inner.power_cycle(keep);
    }

    fn fuse(&mut self, n: Option<u64>) {
        self.inner.fuse(n);
    }

    fn refused(&self) -> u64 {
        self.inner.refused()
    }

    fn faults(&self) -> u64 {
        self.inner.faults()
    }
}
