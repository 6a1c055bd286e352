//! Devices that never fail.
ghost use Rattle.std.specs.Prelude.{◌≡◌, ◌+◌, ◌≤◌, ◌<◌, ◌^◌, min, length};

use crate::disk::Disk;
use crate::fault::Failed;
use crate::pages::{PageBytes, PageDevice};
use crate::stream::{Sink, Source};
use crate::vault::Vault;
use std::marker::Model;
use store_model::{ObjectName, PageNo};

/// An object whose calls never fail: where one of the object inside does, nothing is moved and the call answers `Ok`.
/// So its count of faults is the constant 0, and it tells nothing of its content. Over an object in memory with an
/// empty list of failing calls and ample memory it hides nothing.
#[derive(Drop)]
pub struct NeverFails<D> {
    inner: D,
    /// Where the bytes of a disk begin and end; of other objects both are 0.
    start: u64,
    size: u64,
}

impl<D> Model for NeverFails<D> {
    ghost use Rattle.std.specs.Prelude.{◌<◌, ◌≤◌, ◌^◌};
    ghost use Rattle.media.specs.Extent.{Extent};

    ghost Value = { Extent };

    ghost view = { λ d. record { start = d.start; size = d.size } };

    ghost invariant = { λ d. (d.start ≤ d.size) × (d.size < 2 ^ 63) };
}

impl<D> NeverFails<D> {
    /// The source, sink, data device or vault that never fails.
    pub fn new(inner: D) -> NeverFails<D>
        ensures { result ≡ record { start = 0; size = 0 } }
    {
        NeverFails {
            inner,
            start: 0,
            size: 0,
        }
    }

    /// The object inside.
    pub fn inner(&self) -> &D {
        &self.inner
    }
}

impl<D: Disk> NeverFails<D> {
    /// The disk that never fails.
    pub fn of_disk(inner: D) -> NeverFails<D>
        ensures { result ≡ record { start = D.start inner; size = D.len inner } }
    {
        let start = inner.start();
        let size = inner.len();
        NeverFails { inner, start, size }
    }
}

impl<D: Source> Source for NeverFails<D> {
    ghost use Rattle.std.specs.Prelude.{None};

    ghost left = { λ s. None };

    ghost faults = { λ s. 0 };

    fn read(&mut self, buf: &mut [u8]) -> Result<usize, Failed> {
        match self.inner.read(buf) {
            Ok(n) => Ok(n),
            Err(_) => Ok(0),
        }
    }

    fn faults(&self) -> u64 {
        0
    }
}

impl<D: Sink> Sink for NeverFails<D> {
    ghost use Rattle.std.specs.Prelude.{None};

    ghost told = { λ s. None };

    ghost faults = { λ s. 0 };

    fn write(&mut self, piece: &[u8]) -> Result<usize, Failed> {
        match self.inner.write(piece) {
            Ok(n) => Ok(n),
            Err(_) => Ok(piece.len()),
        }
    }

    fn faults(&self) -> u64 {
        0
    }
}

impl<D: PageDevice> PageDevice for NeverFails<D> {
    ghost use Rattle.std.specs.Prelude.{None};
    ghost use Rattle.std.proofs.lemmas.Option.{none-some};

    ghost tells = { ⊥ };

    ghost told = { λ d p image. ⊥ };

    ghost newest = { λ d p. None };

    ghost spoiled = { λ d p. ⊥ };

    ghost faults = { λ d. 0 };

    ghost own = { λ d. 0 };

    ghost refused = { λ d. 0 };

    ghost passes = { λ d. None };

    ghost fuses = { ⊥ };

    ghost newest_told = { λ d p image is. none-some image is };

    fn read(&mut self, page: PageNo, out: &mut PageBytes) -> Result<(), Failed> {
        let _outcome = self.inner.read(page, out);
        Ok(())
    }

    fn write(&mut self, page: PageNo, bytes: &PageBytes) -> Result<(), Failed> {
        let _outcome = self.inner.write(page, bytes);
        Ok(())
    }

    fn replace(&mut self) -> Result<(), Failed> {
        let _outcome = self.inner.replace();
        Ok(())
    }

    fn spoil(&mut self, page: PageNo) -> Result<(), Failed> {
        let _outcome = self.inner.spoil(page);
        Ok(())
    }

    fn fuse(&mut self, _n: Option<u64>) {}

    fn refused(&self) -> u64 {
        0
    }

    fn faults(&self) -> u64 {
        0
    }
}

impl<D: Vault> Vault for NeverFails<D> {
    ghost use Rattle.std.specs.Prelude.{None};
    ghost use Rattle.media.specs.Objects.{Absent};

    ghost tells = { ⊥ };

    ghost told = { λ v name. Absent };

    ghost faults = { λ v. 0 };

    ghost own = { λ v. 0 };

    ghost refused = { λ v. 0 };

    ghost passes = { λ v. None };

    ghost fuses = { ⊥ };

    fn put(&mut self, name: ObjectName, bytes: &[u8]) -> Result<(), Failed> {
        let _outcome = self.inner.put(name, bytes);
        Ok(())
    }

    fn sync(&mut self) -> Result<(), Failed> {
        let _outcome = self.inner.sync();
        Ok(())
    }

    fn get(&mut self, name: ObjectName, from: u64, buf: &mut [u8]) -> Result<usize, Failed> {
        match self.inner.get(name, from, buf) {
            Ok(n) => Ok(n),
            Err(_) => Ok(0),
        }
    }

    fn power_cycle(&mut self) {
        self.inner.power_cycle();
    }

    fn fuse(&mut self, _n: Option<u64>) {}

    fn refused(&self) -> u64 {
        0
    }

    fn faults(&self) -> u64 {
        0
    }
}

impl<D: Disk> Disk for NeverFails<D> {
    ghost use Rattle.std.specs.Prelude.{◌≡◌, ℕ, [], None};

    ghost tells = { ⊥ };

    ghost start = { λ d. d.start };

    ghost len = { λ d. d.size };

    ghost told = { λ d. record { start = d.start; bytes = [] } };

    ghost may_leave = { λ d c. ⊥ };

    ghost moment = { λ d. 0 };

    ghost left_since = { λ d t c. ⊥ };

    ghost faults = { λ d. 0 };

    ghost own = { λ d. 0 };

    ghost refused = { λ d. 0 };

    ghost passes = { λ d. None };

    ghost fuses = { ⊥ };

    ghost extent = { λ d t. absurd t };

    ghost counts_now = { λ d t c le now. now };

    ghost only_now = { λ d c left. left };

    fn start(&self) -> u64 {
        self.start
    }

    fn len(&self) -> u64 {
        self.size
    }

    fn read_at(&mut self, at: u64, buf: &mut [u8]) -> Result<usize, Failed> {
        read_within(&mut self.inner, at, buf);
        let left = self.size.saturating_sub(at);
        Ok(if (buf.len() as u64) < left {
            buf.len()
        } else {
            left as usize
        })
    }

    fn write_at(&mut self, at: u64, bytes: &[u8]) -> Result<(), Failed> {
        write_within(&mut self.inner, at, bytes);
        let end = at + bytes.len() as u64;
        if self.size < end {
            self.size = end;
        }
        Ok(())
    }

    fn sync(&mut self) -> Result<(), Failed> {
        let _outcome = self.inner.sync();
        Ok(())
    }

    fn discard(&mut self, upto: u64) -> Result<(), Failed> {
        discard_within(&mut self.inner, upto);
        self.start = upto;
        Ok(())
    }

    fn power_cycle(&mut self, keep: u64) {
        self.inner.power_cycle(keep);
    }

    fn fuse(&mut self, _n: Option<u64>) {}

    fn refused(&self) -> u64 {
        0
    }

    fn faults(&self) -> u64 {
        0
    }
}

/// Reads where the disk has begun.
fn read_within<D: Disk>(disk: &mut D, at: u64, buf: &mut [u8]) {
    if disk.start() <= at {
        let _outcome = disk.read_at(at, buf);
    }
}

/// Writes where the disk has bytes, or ends.
fn write_within<D: Disk>(disk: &mut D, at: u64, bytes: &[u8])
    requires { at + length bytes.now < 2 ^ 63 }
{
    if disk.start() <= at && at <= disk.len() {
        let _outcome = disk.write_at(at, bytes);
    }
}

/// Discards where the disk has bytes.
fn discard_within<D: Disk>(disk: &mut D, upto: u64) {
    if disk.start() <= upto && upto <= disk.len() {
        let _outcome = disk.discard(upto);
    }
}
