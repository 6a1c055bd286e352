//! A journal that tells that log, and enters that a segment is restored.
ghost use Rattle.std.specs.Prelude.{◌≡◌};

use crate::log::{PAGES, head_of, record_of};
use books::PageRight;
use front::Pass;
use page_ops::{Entered, Entering, Found, Ground, Group, Life, Listed, Rights};
use std::alloc::Global;
use std::marker::Model;
use std::sync::Wait;
use store_model::{Fault, Lsn, PageNo, Pos};
use untold_journal::{Counts, Untold, alone_in};
use wal_record::{Entry, PageHead, Record, Restored, Run};

/// What the journal tells, and what it refuses.
#[derive(Clone, Copy, Debug)]
pub(crate) struct Tells {
    /// So many pages were there as the device was lost.
    pub(crate) lost: u32,
    /// Up to this LSN the log has forgotten its records.
    pub(crate) forgotten: Lsn,
    /// The record of this LSN stands in a bad block; none at 0.
    pub(crate) bad: Lsn,
    /// Which of the calls that may want memory does; none at 0.
    pub(crate) refuse_at: u32,
}

/// What the journal was asked for.
#[derive(Clone, Copy, Debug)]
pub(crate) struct Asked {
    /// How many calls were made that may want memory.
    pub(crate) calls: u32,
    /// How many of them asked for a record.
    pub(crate) reads: u32,
    /// The last LSN up to which it was flushed.
    pub(crate) flushed: Lsn,
    /// How often it entered that a segment is restored, and the last one.
    pub(crate) entered: u32,
    pub(crate) segment: Option<u32>,
}

/// The segment of which the entry says that it is restored.
fn restored_by(entry: &Entry) -> Option<u32> {
    match entry {
        Entry::Rec {
            rec: Record::Restored(Restored { segment }),
            ..
        } => Some(*segment),
        _ => None,
    }
}

/// A journal of a life of which no opening log is known. Its log is the text's, and each segment is unrestored until it enters
/// that one is restored.
#[derive(Drop)]
pub(crate) struct Telling<'a, N: Life> {
    pub(crate) history: Untold<'a, N>,
    pub(crate) counts: Counts<N>,
    pub(crate) tells: Tells,
    pub(crate) asked: Asked,
}

impl<'a, N: Life> Model for Telling<'a, N> {
    ghost use Rattle.page_ops.specs.Causes.{IsUntold};
    ghost use Rattle.page_ops.specs.Seeing.{Account};

    ghost Value = { Account };

    ghost view = { λ j. j.counts };

    ghost invariant = { λ j. IsUntold N.opens };
}

impl<'a, N: Life> Telling<'a, N> {
    /// Counts a call that may want memory. Whether it does.
    fn wants_memory(&mut self) -> bool
        ensures { self.new ≡ self.old }
    {
        self.asked.calls = self.asked.calls.saturating_add(1);
        self.asked.calls == self.tells.refuse_at
    }
}

impl<'a, N: Life> Entering<N> for Telling<'a, N> {
    ghost account = { λ j. j };

    fn ground(&self) -> &Ground<N> {
        self.history.ground()
    }

    fn log_faults(&self) -> u64 {
        let _ = &self.counts.made;
        0
    }

    fn vault_faults(&self) -> u64 {
        let _ = &self.counts.made;
        0
    }

    #[tactic(auto, using(untold_journal::proofs::Upkeep::filled_in))]
    fn enter<R: Wait>(
        &mut self,
        _rt: &R,
        _alloc: Global,
        group: &mut Group,
        rights: &mut Rights<N>,
        pass: &mut Pass<Entry, N>,
    ) -> Result<Entered, Fault> {
        let lsn = 6;
        let Some(entry) = alone_in(group, lsn) else {
            self.history.see(rights, pass, &mut self.counts);
            return Err(Fault::Memory);
        };
        if self.wants_memory() {
            self.history.see(rights, pass, &mut self.counts);
            return Err(Fault::Memory);
        }
        let Some(pos) = self.history.enter(&entry, rights, pass, &mut self.counts) else {
            return Err(Fault::Memory);
        };
        group.lsn = lsn;
        self.asked.entered = self.asked.entered.saturating_add(1);
        self.asked.segment = restored_by(&entry);
        Ok(Entered::At(pos))
    }

    fn repaired<R: Wait>(
        &mut self,
        _rt: &R,
        _alloc: Global,
        _right: &PageRight<N>,
        pass: &mut Pass<Entry, N>,
    ) -> Result<Option<Pos>, Fault> {
        self.history.watch(pass, &mut self.counts);
        Err(Fault::Memory)
    }

    fn see<R: Wait>(&mut self, _rt: &R, rights: &mut Rights<N>, pass: &mut Pass<Entry, N>) {
        self.history.see(rights, pass, &mut self.counts);
    }

    fn flush<R: Wait>(
        &mut self,
        _rt: &R,
        lsn: Lsn,
        pass: &mut Pass<Entry, N>,
    ) -> Result<(), Fault> {
        self.history.watch(pass, &mut self.counts);
        self.asked.flushed = lsn;
        Ok(())
    }

    fn read<R: Wait>(
        &mut self,
        _rt: &R,
        alloc: Global,
        lsn: Lsn,
        pass: &mut Pass<Entry, N>,
    ) -> Result<Found, Fault> {
        self.history.watch(pass, &mut self.counts);
        self.asked.reads = self.asked.reads.saturating_add(1);
        if self.wants_memory() {
            return Err(Fault::Memory);
        }
        if lsn == self.tells.bad {
            return Err(Fault::LogBad { block: 3, byte: 17 });
        }
        if lsn <= self.tells.forgotten {
            return Ok(Found::Run(Run {
                run: 1,
                first: 1,
                last: self.tells.forgotten,
            }));
        }
        match record_of(alloc, lsn) {
            Some(record) => Ok(Found::Record(record)),
            None => Err(Fault::Memory),
        }
    }

    fn listed<R: Wait>(
        &mut self,
        _rt: &R,
        page: PageNo,
        pass: &mut Pass<Entry, N>,
    ) -> Result<Listed, Fault> {
        self.history.watch(pass, &mut self.counts);
        if self.wants_memory() {
            return Err(Fault::Memory);
        }
        Ok(Listed {
            ends: PageHead {
                head: head_of(page),
                written: 0,
                backup: 0,
                backup_lsn: 0,
            },
            unrestored: self.asked.entered == 0,
            lost: self.tells.lost,
        })
    }

    fn pages<R: Wait>(&mut self, _rt: &R, pass: &mut Pass<Entry, N>) -> u32 {
        self.history.watch(pass, &mut self.counts);
        PAGES
    }

    fn pending<R: Wait>(&mut self, _rt: &R, pass: &mut Pass<Entry, N>) -> u32 {
        self.history.watch(pass, &mut self.counts);
        0
    }
}
