//! A life is closed: its pages are written, and its log is made durable.
ghost use Rattle.std.specs.Prelude.{◌≡◌, ◌<◌, ◌≤◌, ℕ, List, None, IfErr, IfNone, IfOk, OnOk, length};
ghost use Rattle.wal_record.specs.History.{life_log};
ghost use Rattle.wal_record.specs.declared.record.Record.{Record};
ghost use Rattle.store_pages.specs.Pages.{AwaitsRedo, IsIdle, IsNextWritten, Lacks, OneLess, WritesPages, WritesUpto};
ghost use Rattle.own_life.specs.State.{Fails, FailsToFlush, GoesOn};

use crate::life::OwnLife;
use crate::seeing::see_whole;
use media::{Disk, PageDevice, Vault};
use page_ops::{Entering, Life};
use std::alloc::Global;
use std::sync::Wait;
use store_model::{Fault, PageNo};
use store_pages::StorePages;

impl<'a, L: Disk, N: Life> OwnLife<'a, L, N> {
    /// Writes the least dirty page above this one, and gives its number; none where no page above it is dirty.
    pub(crate) fn write_next<D: PageDevice, V: Vault, R: Wait>(
        &mut self,
        rt: &R,
        alloc: Global,
        pages: &mut StorePages<'a, D, V, N>,
        after: PageNo,
    ) -> Result<Option<PageNo>, Fault>
        requires idle { IsIdle pages.old.pool.out pages.old.pool.reserves }
        requires open { self.old.ended ≡ None }
        ensures idle { IsIdle pages.new.pool.out pages.new.pool.reserves }
        ensures next { IfOk result (IsNextWritten (Lacks pages.new.pool.frames) after) }
        ensures fewer { (page : ℕ) → Lacks pages.new.pool.frames page → Lacks pages.old.pool.frames page }
        ensures one { IfOk result (OneLess (Lacks pages.old.pool.frames) (Lacks pages.new.pool.frames)) }
        ensures awaits { (page : ℕ) → AwaitsRedo pages.new.pool.plan page → AwaitsRedo pages.old.pool.plan page }
        ensures written { WritesUpto 1 self.old.history self.new.history }
        ensures none { IfOk result (λ page. IfNone page (self.new.history ≡ self.old.history)) }
        ensures names { self.new.active ≡ self.old.active }
        ensures goes { OnOk result (GoesOn self.old self.new) }
        ensures counted { pages.new.pool.supply.bases.faults ≡ pages.old.pool.supply.bases.faults }
        ensures refused { IfErr result (Fails N.opens self.old self.new) }
    {
        let OwnLife { journal, life } = self;
        let written = pages.write_next(rt, alloc, journal, life, after);
        see_whole(journal, life);
        written
    }

    /// Makes the whole log durable.
    fn flush<R: Wait>(&mut self, rt: &R) -> Result<(), Fault>
        requires open { self.old.ended ≡ None }
        ensures same { self.new.history ≡ self.old.history }
        ensures names { self.new.active ≡ self.old.active }
        ensures durable { OnOk result ((opening : List Record) → N.opens opening → length (life_log opening self.new.history) ≤ self.new.durable) }
        ensures goes { OnOk result (GoesOn self.old self.new) }
        ensures refused { IfErr result (FailsToFlush N.opens self.old self.new) }
    {
        let OwnLife { journal, life } = self;
        let last = journal.journal.last();
        let flushed = journal.flush(rt, last, &mut life.pass);
        see_whole(journal, life);
        flushed
    }

    /// Writes each dirty page to the data device, and then makes the whole log durable, so that the next life finds it as it is and
    /// its pages on the device. A page that the device fails to take is dropped: the next life rebuilds it from the log.
    pub fn close<D: PageDevice, V: Vault, R: Wait>(
        &mut self,
        rt: &R,
        alloc: Global,
        pages: &mut StorePages<'a, D, V, N>,
    ) -> Result<(), Fault>
        requires idle { IsIdle pages.old.pool.out pages.old.pool.reserves }
        requires open { self.old.ended ≡ None }
        ensures idle { IsIdle pages.new.pool.out pages.new.pool.reserves }
        ensures written { WritesPages self.old.history self.new.history }
        ensures clean { OnOk result ((page : ℕ) → 0 < page → Lacks pages.new.pool.frames page → ⊥) }
        ensures names { self.new.active ≡ self.old.active }
        ensures durable { OnOk result ((opening : List Record) → N.opens opening → length (life_log opening self.new.history) ≤ self.new.durable) }
        ensures goes { OnOk result (GoesOn self.old self.new) }
        ensures refused { IfErr result (Fails N.opens self.old self.new) }
    {
        let mut after = 0;
        while let Some(page) = self.write_next(rt, alloc, pages, after)? {
            after = page;
        }
        self.flush(rt)
    }
}
