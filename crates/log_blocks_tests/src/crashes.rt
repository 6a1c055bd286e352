//! What a crash leaves, at each call of a flush.

use crate::fixture::{append, opened, payload_of};
use log_blocks::BlockLog;
use media::{Disk, Fuse};
use media_mem::MemDisk;
use std::alloc::Global;
use std::test::Fail;

/// A flush of some pending blocks behind some durable ones. Its first calls pass, and no later one; then the machine
/// stops, and the disk keeps the first of the bytes written since its last sync.
#[derive(Clone, Copy)]
struct Crash {
    durable: u32,
    pending: u32,
    passes: u32,
    keep: u32,
}

impl Crash {
    /// How many calls come before those of the first block: on a blank disk a closed gate is made.
    fn first(&self) -> u32 {
        if self.durable == 0 { 2 } else { 0 }
    }

    /// How many of the calls that write blocks pass.
    fn done(&self) -> u32 {
        self.passes.saturating_sub(self.first())
    }

    /// Whether all calls of the flush pass.
    fn flushes(&self) -> bool {
        self.passes >= self.first() && self.done() / 4 >= self.pending
    }

    /// How many blocks are there afterwards. The third call of a block opens its gate, and the fourth makes it durable.
    fn left(&self) -> u64 {
        let synced = self.durable as u64 + (self.done() / 4).min(self.pending) as u64;
        if self.keep > 0 && self.done() % 4 == 3 && !self.flushes() {
            synced + 1
        } else {
            synced
        }
    }
}

fn payload(i: u64) -> &'static [u8] {
    match i {
        0 => b"first",
        1 => b"second!",
        _ => b"3",
    }
}

/// So many more blocks join the pending ones.
fn add(alloc: Global, log: &mut BlockLog<Fuse<MemDisk>>, more: u32) -> Result<(), Fail> {
    for _ in 0..more {
        append(alloc, log, payload(log.blocks()))?;
    }
    Ok(())
}

/// Whether the flush passed, and the disk afterwards.
fn run(alloc: Global, crash: Crash) -> Result<(bool, MemDisk), Fail> {
    let mut log = opened(alloc, Fuse::new(MemDisk::new(alloc)))?;
    add(alloc, &mut log, crash.durable)?;
    log.flush()?;
    add(alloc, &mut log, crash.pending)?;
    log.fuse(Some(crash.passes as u64));
    let flushed = log.flush().is_ok();
    let mut disk = log.into_device().into_inner();
    disk.power_cycle(crash.keep as u64);
    Ok((flushed, disk))
}

/// How many blocks the disk has, where each of them is whole.
fn found(alloc: Global, disk: MemDisk) -> Result<Option<u64>, Fail> {
    let mut log = opened(alloc, disk)?;
    for i in 0..log.blocks() {
        if payload_of(alloc, &mut log, i)?.as_slice() != payload(i) {
            return Ok(None);
        }
    }
    Ok(Some(log.blocks()))
}

fn try_crash(alloc: Global, crash: Crash) -> Result<(), Fail> {
    let (flushed, disk) = run(alloc, crash)?;
    let found = found(alloc, disk)?;
    if flushed == crash.flushes() && found == Some(crash.left()) {
        return Ok(());
    }
    let Crash {
        durable,
        pending,
        passes,
        keep,
    } = crash;
    Err(Fail::new(format_args!(
        "{durable} and {pending} blocks, {passes} calls, {keep} bytes: {flushed}, {found:?}"
    )))
}

/// All of the 30 bytes of the longest write are kept, or fewer.
fn try_each_keep(alloc: Global, crash: Crash) -> Result<(), Fail> {
    for keep in 0..31u32 {
        try_crash(alloc, Crash { keep, ..crash })?;
    }
    Ok(())
}

/// All of the at most ten calls pass, or fewer.
fn try_each_call(alloc: Global, crash: Crash) -> Result<(), Fail> {
    for passes in 0..11u32 {
        try_each_keep(alloc, Crash { passes, ..crash })?;
    }
    Ok(())
}

#[test]
fn a_crash_leaves_whole_blocks_in_order(rt: HostRuntime) -> Result<(), Fail> {
    let alloc = rt.alloc();
    for (durable, pending) in [(0, 1), (0, 2), (1, 1), (1, 2)] {
        let crash = Crash {
            durable,
            pending,
            passes: 0,
            keep: 0,
        };
        try_each_call(alloc, crash)?;
    }
    Ok(())
}
