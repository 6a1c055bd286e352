//! The journal of one thread.
ghost use Rattle.std.specs.Prelude.{◌≡◌, ◌≤◌, ◌-◌, ◌^◌, ℕ, List, Some, min, IfNone, IfSome};
ghost use mathlib.Core.List.{IsPrefix};
ghost use Rattle.journal.specs.State.{ArmsDisk, KnowsEnd, calls_of};
ghost use Rattle.journal.specs.Stops.{IsDurableUpto, Leaves};
ghost use Rattle.life_history.specs.Kept.{HasCause};
ghost use Rattle.own_journal.specs.Told.{told};
ghost use Rattle.page_ops.specs.Seeing.{HasTotals, Looks};
ghost use Rattle.wal_record.specs.declared.record.Record.{Record};

use crate::asking;
use books::PageRight;
use front::Pass;
use journal::Journal;
use life_history::Counts;
use media::Disk;
use page_ops::{Entered, Entering, Found, Ground, Group, Life, Listed, Rights};
use std::alloc::Global;
use std::sync::Wait;
use store_model::{Fault, Lsn, PageNo, Pos};
use wal_record::Entry;

/// A journal and the shares of the one thread that calls it. Where these know of an end, it is the journal's.
#[derive(Drop)]
pub struct OwnJournal<'a, L: Disk, N: Life> {
    pub journal: Journal<'a, L, N>,
    pub counts: Counts<N>,
    pub ghost knows: { KnowsEnd counts journal },
}

impl<'a, L: Disk, N: Life> OwnJournal<'a, L, N> {
    /// Arms the log disk's fuse, which lets n more calls pass, or renews it.
    pub fn fuse(&mut self, n: Option<u64>)
        ensures same { (self.new.journal.history ≡ self.old.journal.history) × (self.new.journal.ended ≡ self.old.journal.ended) × (self.new.journal.blocks ≡ self.old.journal.blocks) × (self.new.counts ≡ self.old.counts) }
        ensures calls { ArmsDisk L.fuses n self.old.journal.calls self.new.journal.calls }
    {
        self.journal.fuse(n);
    }

    /// How many calls the log disk's fuse has refused.
    pub fn refused(&self) -> u64
        ensures { result ≡ min self.now.journal.calls.refused (2 ^ 64 - 1) }
    {
        self.journal.refused()
    }

    /// The LSN up to which the log was durable as the life ended, if it has ended. As `Journal::end`.
    pub fn end(&self) -> Option<Lsn>
        ensures end { result ≡ self.now.journal.ended }
        ensures durable { (opening : List Record) → N.opens opening → IfSome self.now.journal.ended (IsDurableUpto opening self.now.journal.history) }
    {
        self.journal.end()
    }

    /// The LSN up to which the log was durable as the life ended, if it has ended; the pass has then seen the whole history. No
    /// fault of the log disk was counted where it hasn't. The counts learn nothing of an end. Where they knew of one, whoever has
    /// all parts of the ledger of the log disk's faults has counted a fault.
    pub fn end_seen(&mut self, pass: &mut Pass<Entry, N>) -> Option<Lsn>
        ensures same { (self.new.journal ≡ self.old.journal) × (self.new.counts ≡ self.old.counts) }
        ensures seen { Looks N.opens N.entries N.session_entries (told self.old.counts self.old.journal.calls) pass.old (told self.new.counts self.new.journal.calls) pass.new }
        ensures whole { pass.new.log ≡ self.old.journal.history }
        ensures end { result ≡ self.old.journal.ended }
        ensures durable { (opening : List Record) → N.opens opening → IfSome result (IsDurableUpto opening pass.new.log) }
        ensures none { IfNone result (self.old.counts.log_faults.amount ≡ 0) }
        ensures known { IfSome self.old.counts.ended (λ at. result ≡ Some at) }
        ensures some { IfSome self.old.counts.ended (λ at. HasCause N.log_faults self.old.counts.log_faults) }
    {
        let OwnJournal { journal, counts } = self;
        journal.see(&mut Rights::none(), pass, counts);
        let _known = counts.ended();
        match journal.end() {
            Some(at) => Some(at),
            None => {
                // Nothing is learnt, and no fault was counted.
                let _none = journal.ended(counts);
                None
            }
        }
    }

    /// The log disk, as it is: the life has stopped. As `Journal::into_device`. Whoever has all parts of the ledgers of entries
    /// has entered the whole history.
    pub fn into_device(self, pass: &mut Pass<Entry, N>) -> L
        ensures left { Leaves N.opens L.told L.may_leave self.entry.journal.history pass.new.durable result }
        ensures pass { pass.new.log ≡ self.entry.journal.history }
        ensures begins { IsPrefix pass.old.log pass.new.log }
        ensures before { pass.old.durable ≤ pass.new.durable }
        ensures totals { HasTotals N.entries N.session_entries self.entry.counts pass.new.log }
        ensures calls { calls_of L.passes L.refused L.own result ≡ self.entry.journal.calls }
    {
        let OwnJournal {
            journal,
            mut counts,
        } = self;
        journal.into_device(pass, &mut counts)
    }
}

impl<'a, L: Disk, N: Life> Entering<N> for OwnJournal<'a, L, N> {
    ghost account = { λ j. told j.counts j.journal.calls };

    fn ground(&self) -> &Ground<N> {
        self.journal.ground()
    }

    fn log_faults(&self) -> u64 {
        self.counts.log_faults()
    }

    fn vault_faults(&self) -> u64 {
        self.counts.vault_faults()
    }

    fn enter<R: Wait>(
        &mut self,
        _rt: &R,
        alloc: Global,
        group: &mut Group,
        rights: &mut Rights<N>,
        pass: &mut Pass<Entry, N>,
    ) -> Result<Entered, Fault> {
        let OwnJournal { journal, counts } = self;
        journal.enter(alloc, group, rights, pass, counts)
    }

    fn repaired<R: Wait>(
        &mut self,
        _rt: &R,
        _alloc: Global,
        right: &PageRight<N>,
        pass: &mut Pass<Entry, N>,
    ) -> Result<Option<Pos>, Fault> {
        let OwnJournal { journal, counts } = self;
        journal.repaired(right, pass, counts)
    }

    fn see<R: Wait>(&mut self, _rt: &R, rights: &mut Rights<N>, pass: &mut Pass<Entry, N>) {
        let OwnJournal { journal, counts } = self;
        journal.see(rights, pass, counts);
    }

    fn flush<R: Wait>(
        &mut self,
        _rt: &R,
        lsn: Lsn,
        pass: &mut Pass<Entry, N>,
    ) -> Result<(), Fault> {
        let OwnJournal { journal, counts } = self;
        journal.flush(lsn, pass, counts)
    }

    fn read<R: Wait>(
        &mut self,
        _rt: &R,
        alloc: Global,
        lsn: Lsn,
        pass: &mut Pass<Entry, N>,
    ) -> Result<Found, Fault> {
        let OwnJournal { journal, counts } = self;
        journal.read(alloc, lsn, pass, counts)
    }

    fn listed<R: Wait>(
        &mut self,
        _rt: &R,
        page: PageNo,
        pass: &mut Pass<Entry, N>,
    ) -> Result<Listed, Fault> {
        let OwnJournal { journal, counts } = self;
        asking::listed(journal, page, pass, counts)
    }

    fn pages<R: Wait>(&mut self, _rt: &R, pass: &mut Pass<Entry, N>) -> u32 {
        let OwnJournal { journal, counts } = self;
        journal.pages(pass, counts)
    }

    fn pending<R: Wait>(&mut self, _rt: &R, pass: &mut Pass<Entry, N>) -> u32 {
        let OwnJournal { journal, counts } = self;
        journal.pending(pass, counts)
    }
}
