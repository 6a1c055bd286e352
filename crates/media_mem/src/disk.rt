//! A log disk in memory.
ghost use Rattle.std.specs.Prelude.{◌≡◌, ◌⊎◌, ◌+◌, ◌-◌, ◌<◌, ◌≤◌, ◌^◌, ℕ, List, [], ◌∷◌, ◌++◌, length, take, drop, map, min, max, OnOk, OnErr, IfOk, vec_capacity};
ghost use Rattle.media.specs.Cause.{Rose};
ghost use Rattle.media.specs.Kept.{Kept, end_of, written, without};
ghost use Rattle.media_mem.specs.History.{AreWithin, IsKept, Wrote, grown, piece_of, replay};
ghost use Rattle.media_mem.specs.Reach.{MemSeen, Settles, kept_now, leaves, left_at, only_leaves, span_of};

use crate::copy::{copy_out, put_over};
use crate::faults::Faults;
use crate::history::{Content, Past, Write};
use media::{Disk, Failed};
use std::alloc::{AllocError, Global};
use std::marker::Model;

/// Keeps its bytes in memory, and the writes since the last sync. What a crash at an earlier moment might have left
/// follows from the past, of which contracts alone speak.
///
/// After a power cycle the first of the bytes written since the last sync are there, as many as asked, and the other
/// bytes written are 0xFF.
#[derive(Drop)]
pub struct MemDisk {
    alloc: Global,
    past: Past,
    content: Content,
    faults: Faults,
}

impl Model for MemDisk {
    ghost use Rattle.std.specs.Prelude.{map};
    ghost use Rattle.media_mem.specs.History.{IsKept, piece_of};
    ghost use Rattle.media_mem.specs.Reach.{MemSeen};

    ghost Value = { MemSeen };

    ghost view = { λ m. record {
      start = m.content.start;
      base = m.past.seen.base;
      now = m.content.bytes.items;
      writes = map piece_of m.content.writes.items;
      past = m.past.seen.spans;
      faults = m.faults;
    } };

    ghost invariant = { λ m. IsKept m.content.start m.past.seen.base m.content.bytes.items m.content.writes.items };
}

impl MemDisk {
    /// A blank disk, which fails only for want of memory.
    pub fn new(alloc: Global) -> MemDisk
        ensures { kept_now result ≡ record { start = 0; bytes = [] } }
    {
        MemDisk::failing(alloc, Vec::new(alloc))
    }

    /// A blank disk, of which the calls with these numbers fail.
    pub fn failing(alloc: Global, calls: Vec<u64>) -> MemDisk
        ensures { kept_now result ≡ record { start = 0; bytes = [] } }
    {
        MemDisk {
            alloc,
            past: Past::new(),
            content: Content {
                start: 0,
                bytes: Vec::new(alloc),
                writes: Vec::new(alloc),
            },
            faults: Faults::new(calls),
        }
    }

    /// A disk with these bytes from offset 0 on, all of them synced.
    pub fn with_bytes(alloc: Global, bytes: &[u8]) -> Result<MemDisk, AllocError>
        ensures { IfOk result (λ disk. kept_now disk ≡ record { start = 0; bytes = bytes.now }) }
    {
        let mut disk = MemDisk::new(alloc);
        disk.overwrite(0, bytes)?;
        disk.finish();
        Ok(disk)
    }

    /// What is kept.
    pub fn bytes(&self) -> &[u8]
        ensures { result.now ≡ self.now.now }
    {
        &self.content.bytes
    }

    /// Counts a call, which fails where its number is in the list.
    fn call(&mut self) -> Result<(), Failed>
        ensures same { self.new ≡ record self.old { faults = self.new.faults } }
        ensures later { self.old.faults ≤ self.new.faults }
        ensures ok { OnOk result (self.new ≡ self.old) }
        ensures rose { OnErr result (Rose self.old.faults self.new.faults) }
    {
        self.faults.call()
    }

    /// Counts a fault.
    fn failed(&mut self) -> Failed
        ensures same { self.new ≡ record self.old { faults = self.new.faults } }
        ensures later { self.old.faults ≤ self.new.faults }
        ensures rose { Rose self.old.faults self.new.faults }
    {
        self.faults.fail()
    }

    fn overwrite(&mut self, at: u64, bytes: &[u8]) -> Result<(), AllocError>
        requires not_before { self.old.start ≤ at }
        requires not_past { at ≤ self.old.start + length self.old.now }
        requires fits { at + length bytes.now < 2 ^ 63 }
        ensures ok { OnOk result (self.new ≡ record self.old {
          now = (written (kept_now self.old) at bytes.now).bytes;
          writes = self.old.writes ++ record { at = at; size = length bytes.now } ∷ [];
        }) }
        ensures err { OnErr result (self.new ≡ self.old) }
    {
        let off = (at - self.content.start) as usize;
        let copy = bytes.to_vec(self.alloc)?;
        self.content.bytes.reserve(bytes.len())?;
        add(&mut self.content.writes, at, copy)?;
        put_over(&mut self.content.bytes, off, bytes);
        Ok(())
    }

    /// What was written is kept.
    fn finish(&mut self)
        ensures reached { leaves self.old (kept_now self.old) }
        ensures settled { Settles self.old self.new (kept_now self.old) }
    {
        if !self.content.writes.is_empty() {
            self.past = self.past.then(&self.content);
            self.content.writes.clear();
        }
    }

    /// Of the bytes written the first `keep` stay, and the others become 0xFF.
    fn lose(&mut self, keep: u64)
        ensures reached { leaves self.old (kept_now self.new) }
        ensures settled { Settles self.old self.new (kept_now self.new) }
    {
        if !self.content.writes.is_empty() {
            tear(&mut self.content.writes, keep);
            replay_on(
                &mut self.content.bytes,
                self.content.start,
                &self.content.writes,
            );
            self.past = self.past.then(&self.content);
            self.content.writes.clear();
        }
    }

    /// The front is forgotten, and what was written is kept.
    fn forget(&mut self, upto: u64)
        requires not_before { self.old.start ≤ upto }
        requires not_past { upto ≤ self.old.start + length self.old.now }
        ensures reached { leaves self.old (kept_now self.old) }
        ensures cut { self.new ≡ record { start = upto; base = (without (kept_now self.old) upto).bytes; now = (without (kept_now self.old) upto).bytes; writes = []; past = self.old.past ++ span_of self.old ∷ []; faults = self.old.faults } }
    {
        let off = (upto - self.content.start) as usize;
        cut(&mut self.content.bytes, off);
        self.past = self.past.then(&self.content);
        self.content.writes.clear();
        self.content.start = upto;
    }
}

fn add(writes: &mut Vec<Write>, at: u64, bytes: Vec<u8>) -> Result<(), AllocError>
    ensures ok { OnOk result (writes.new.items ≡ writes.old.items ++ record { at = at; bytes = bytes.items } ∷ []) }
    ensures err { OnErr result (writes.new.items ≡ writes.old.items) }
{
    writes.push(Write { at, bytes })?;
    Ok(())
}

/// The writes are made again, without memory.
fn replay_on(bytes: &mut Vec<u8>, start: u64, writes: &[Write])
    requires within { AreWithin start (length bytes.old.items) writes.now }
    requires room { grown start (length bytes.old.items) writes.now ≤ vec_capacity bytes.old }
    ensures { record { start = start; bytes = bytes.new.items } ≡ replay writes.now (record { start = start; bytes = bytes.old.items }) }
{
    for write in writes {
        put_over(bytes, (write.at - start) as usize, &write.bytes);
    }
}

/// Of the bytes written the first `keep` stay, and the others become 0xFF.
fn tear(writes: &mut Vec<Write>, keep: u64)
    ensures { map piece_of writes.new.items ≡ map piece_of writes.old.items }
{
    let mut left = keep;
    for write in writes.iter_mut() {
        left = tear_one(write, left);
    }
}

/// Of the bytes of one write the first `keep` stay. Gives how many of that number are left.
fn tear_one(write: &mut Write, keep: u64) -> u64
    ensures at { write.new.at ≡ write.old.at }
    ensures size { length write.new.bytes ≡ length write.old.bytes }
    ensures left { result ≡ keep - length write.old.bytes }
{
    let size = write.bytes.len();
    let kept = if keep < size as u64 {
        keep as usize
    } else {
        size
    };
    let (_, lost) = write.bytes.as_mut_slice().split_at_mut(kept);
    lost.fill(0xFF);
    keep.saturating_sub(size as u64)
}

/// The first n bytes are forgotten.
fn cut(bytes: &mut Vec<u8>, n: usize)
    requires { n ≤ length bytes.old.items }
    ensures { bytes.new.items ≡ drop n bytes.old.items }
{
    let left = bytes.len() - n;
    bytes.rotate_left(n);
    bytes.truncate(left);
}

impl Disk for MemDisk {
    ghost use Rattle.std.specs.Prelude.{◌≡◌, ◌+◌, ℕ, None, length, refl};
    ghost use Rattle.std.proofs.Common.{inl};
    ghost use Rattle.media_mem.specs.Reach.{MemSeen, kept_now, leaves, left_at, only_leaves};

    ghost tells = { Unit {0} };

    ghost start = { λ m. m.start };

    ghost len = { λ m. m.start + length m.now };

    ghost told = { kept_now };

    ghost may_leave = { leaves };

    ghost moment = { λ m. length m.past };

    ghost left_since = { left_at };

    ghost faults = { λ m. m.faults };

    ghost own = { λ m. m.faults };

    ghost refused = { λ m. 0 };

    ghost passes = { λ m. None };

    ghost fuses = { ⊥ };

    ghost extent = { λ m t. (refl, refl) };

    ghost counts_now = { λ m t c le now. inl now };

    ghost only_now = { only_leaves };

    fn start(&self) -> u64 {
        self.content.start
    }

    fn len(&self) -> u64 {
        self.content.start + self.content.bytes.len() as u64
    }

    fn read_at(&mut self, at: u64, buf: &mut [u8]) -> Result<usize, Failed> {
        self.call()?;
        let off = (at - self.content.start) as usize;
        Ok(copy_out(&self.content.bytes, off, buf))
    }

    fn write_at(&mut self, at: u64, bytes: &[u8]) -> Result<(), Failed> {
        self.call()?;
        match self.overwrite(at, bytes) {
            Ok(()) => Ok(()),
            Err(_) => Err(self.failed()),
        }
    }

    fn sync(&mut self) -> Result<(), Failed> {
        self.call()?;
        self.finish();
        Ok(())
    }

    fn discard(&mut self, upto: u64) -> Result<(), Failed> {
        self.call()?;
        self.forget(upto);
        Ok(())
    }

    fn power_cycle(&mut self, keep: u64) {
        self.lose(keep);
    }

    fn fuse(&mut self, _n: Option<u64>) {}

    fn refused(&self) -> u64 {
        0
    }

    fn faults(&self) -> u64 {
        self.faults.count()
    }
}
