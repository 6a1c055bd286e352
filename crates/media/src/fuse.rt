//! A fuse round a device, which makes its calls fail from a chosen one on.
ghost use Rattle.std.specs.Prelude.{◌≡◌, ◌≢◌, ◌+◌, ◌↔◌, IsTrue, None, Some, OnOk, OnErr};
ghost use Rattle.media.specs.Fused.{burnt, one_more};

use crate::disk::Disk;
use crate::fault::Failed;
use crate::pages::{PageBytes, PageDevice};
use crate::vault::Vault;
use std::marker::Model;
use store_model::{ObjectName, PageNo};

/// Passes on the calls of a device. Once armed with n, it passes n more and refuses every later one, until it is
/// renewed: a refused call answers `Failed` and doesn't reach the device.
///
/// Counted are `read_at`, `write_at`, `sync` and `discard` of a disk, `read`, `write` and `replace` of a data device,
/// `put`, `sync` and `get` of a vault. `spoil` and `power_cycle` always pass.
#[derive(Drop)]
pub struct Fuse<D> {
    inner: D,
    left: Option<u64>,
    refused: u64,
}

impl<D> Model for Fuse<D> {
    ghost use Rattle.std.specs.Prelude.{◌<◌, ◌^◌};
    ghost use Rattle.media.specs.Fused.{Fused};

    ghost Value = { Fused D };

    ghost view = { λ f. record { inner = f.inner; left = f.left; refused = f.refused } };

    ghost invariant = { λ f. f.refused < 2 ^ 64 };
}

impl<D> Fuse<D> {
    /// A fuse that isn't armed.
    pub fn new(inner: D) -> Fuse<D>
        ensures { result ≡ record { inner = inner; left = None; refused = 0 } }
    {
        Fuse {
            inner,
            left: None,
            refused: 0,
        }
    }

    /// The next n calls pass, and no later one.
    pub fn arm(&mut self, n: u64)
        ensures { self.new ≡ record self.old { left = Some n } }
    {
        self.left = Some(n);
    }

    /// Every call passes.
    pub fn renew(&mut self)
        ensures { self.new ≡ record self.old { left = None } }
    {
        self.left = None;
    }

    /// Whether the next call is refused.
    pub fn blown(&self) -> bool
        ensures { IsTrue result ↔ (self.now.left ≡ Some 0) }
    {
        self.left == Some(0)
    }

    /// The device.
    pub fn inner(&self) -> &D
        ensures { result.now ≡ self.now.inner }
    {
        &self.inner
    }

    /// The device.
    pub fn into_inner(self) -> D
        ensures { result ≡ self.inner }
    {
        let Fuse { inner, .. } = self;
        inner
    }
}

/// Counts a call, which passes or is refused.
fn pass(left: &mut Option<u64>, refused: &mut u64) -> Result<(), Failed>
    ensures ok { OnOk result ((left.old ≢ Some 0) × (left.new ≡ burnt left.old) × (refused.new ≡ refused.old)) }
    ensures err { OnErr result ((left.old ≡ Some 0) × (left.new ≡ left.old) × (refused.new ≡ one_more refused.old)) }
{
    match *left {
        Some(0) => {
            *refused = refused.saturating_add(1);
            Err(Failed)
        }
        Some(n) => {
            *left = Some(n - 1);
            Ok(())
        }
        None => Ok(()),
    }
}

/// Sets how many calls pass.
fn set(left: &mut Option<u64>, n: Option<u64>)
    ensures { left.new ≡ n }
{
    *left = n;
}

impl<D: Disk> Disk for Fuse<D> {
    ghost use Rattle.std.specs.Prelude.{◌+◌};

    ghost tells = { D.tells };

    ghost start = { λ f. D.start f.inner };

    ghost len = { λ f. D.len f.inner };

    ghost told = { λ f. D.told f.inner };

    ghost may_leave = { λ f c. D.may_leave f.inner c };

    ghost moment = { λ f. D.moment f.inner };

    ghost left_since = { λ f t c. D.left_since f.inner t c };

    ghost faults = { λ f. D.faults f.inner + f.refused };

    ghost own = { λ f. D.faults f.inner };

    ghost refused = { λ f. f.refused };

    ghost passes = { λ f. f.left };

    ghost fuses = { Unit {0} };

    ghost extent = { λ f t. D.extent f.inner t };

    ghost counts_now = { λ f t c le now. D.counts_now f.inner t c le now };

    ghost only_now = { λ f c left. D.only_now f.inner c left };

    fn start(&self) -> u64 {
        self.inner.start()
    }

    fn len(&self) -> u64 {
        self.inner.len()
    }

    fn read_at(&mut self, at: u64, buf: &mut [u8]) -> Result<usize, Failed> {
        pass(&mut self.left, &mut self.refused)?;
        self.inner.read_at(at, buf)
    }

    fn write_at(&mut self, at: u64, bytes: &[u8]) -> Result<(), Failed> {
        pass(&mut self.left, &mut self.refused)?;
        self.inner.write_at(at, bytes)
    }

    fn sync(&mut self) -> Result<(), Failed> {
        pass(&mut self.left, &mut self.refused)?;
        self.inner.sync()
    }

    fn discard(&mut self, upto: u64) -> Result<(), Failed> {
        pass(&mut self.left, &mut self.refused)?;
        self.inner.discard(upto)
    }

    fn power_cycle(&mut self, keep: u64) {
        self.inner.power_cycle(keep);
    }

    fn fuse(&mut self, n: Option<u64>) {
        set(&mut self.left, n);
    }

    fn refused(&self) -> u64 {
        self.refused
    }

    fn faults(&self) -> u64 {
        self.inner.faults().saturating_add(self.refused)
    }
}

impl<D: PageDevice> PageDevice for Fuse<D> {
    ghost use Rattle.std.specs.Prelude.{◌+◌};

    ghost tells = { D.tells };

    ghost told = { λ f p image. D.told f.inner p image };

    ghost newest = { λ f p. D.newest f.inner p };

    ghost spoiled = { λ f p. D.spoiled f.inner p };

    ghost faults = { λ f. D.faults f.inner + f.refused };

    ghost own = { λ f. D.faults f.inner };

    ghost refused = { λ f. f.refused };

    ghost passes = { λ f. f.left };

    ghost fuses = { Unit {0} };

    ghost newest_told = { λ f p image is. D.newest_told f.inner p image is };

    fn read(&mut self, page: PageNo, out: &mut PageBytes) -> Result<(), Failed> {
        pass(&mut self.left, &mut self.refused)?;
        self.inner.read(page, out)
    }

    fn write(&mut self, page: PageNo, bytes: &PageBytes) -> Result<(), Failed> {
        pass(&mut self.left, &mut self.refused)?;
        self.inner.write(page, bytes)
    }

    fn replace(&mut self) -> Result<(), Failed> {
        pass(&mut self.left, &mut self.refused)?;
        self.inner.replace()
    }

    fn spoil(&mut self, page: PageNo) -> Result<(), Failed> {
        self.inner.spoil(page)
    }

    fn fuse(&mut self, n: Option<u64>) {
        set(&mut self.left, n);
    }

    fn refused(&self) -> u64 {
        self.refused
    }

    fn faults(&self) -> u64 {
        self.inner.faults().saturating_add(self.refused)
    }
}

impl<D: Vault> Vault for Fuse<D> {
    ghost use Rattle.std.specs.Prelude.{◌+◌};

    ghost tells = { D.tells };

    ghost told = { λ f name. D.told f.inner name };

    ghost faults = { λ f. D.faults f.inner + f.refused };

    ghost own = { λ f. D.faults f.inner };

    ghost refused = { λ f. f.refused };

    ghost passes = { λ f. f.left };

    ghost fuses = { Unit {0} };

    fn put(&mut self, name: ObjectName, bytes: &[u8]) -> Result<(), Failed> {
        pass(&mut self.left, &mut self.refused)?;
        self.inner.put(name, bytes)
    }

    fn sync(&mut self) -> Result<(), Failed> {
        pass(&mut self.left, &mut self.refused)?;
        self.inner.sync()
    }

    fn get(&mut self, name: ObjectName, from: u64, buf: &mut [u8]) -> Result<usize, Failed> {
        pass(&mut self.left, &mut self.refused)?;
        self.inner.get(name, from, buf)
    }

    fn power_cycle(&mut self) {
        self.inner.power_cycle();
    }

    fn fuse(&mut self, n: Option<u64>) {
        set(&mut self.left, n);
    }

    fn refused(&self) -> u64 {
        self.refused
    }

    fn faults(&self) -> u64 {
        self.inner.faults().saturating_add(self.refused)
    }
}
