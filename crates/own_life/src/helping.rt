//! Help: what an opening has left to do, and what a close would have to, step by step.
ghost use Rattle.std.specs.Prelude.{◌≡◌, ◌⊎◌, ◌<◌, ◌≤◌, ℕ, None, IfErr, IfNone, IfOk, OnErr, OnOk};
ghost use Rattle.maintenance.specs.Steps.{AreAllOver};
ghost use Rattle.rollback.specs.Owners.{IsLoserOf};
ghost use Rattle.store_life.specs.Steps.{AddsUpkeep, StepsBack};
ghost use Rattle.store_pages.specs.Backed.{AreArchived, ArchivesNext, MakesUpto};
ghost use Rattle.own_life.specs.Helps.{AddsSteps, Helps, Undoes, UndoesSome};
ghost use Rattle.store_pages.specs.Pages.{AllBut, AreRestored, AwaitsRedo, IsIdle, Lacks, WritesUpto};
ghost use Rattle.own_life.specs.State.{Fails, FailsOver, GoesOn};

use crate::life::OwnLife;
use crate::seeing::see_whole;
use media::{Disk, PageDevice, Vault};
use page_ops::Life;
use std::alloc::Global;
use std::sync::Wait;
use store_model::{Fault, PageNo};
use store_pages::StorePages;

impl<'a, L: Disk, N: Life> OwnLife<'a, L, N> {
    /// Takes so many steps, or fewer where no step has work, and tells how many. A step is the first of these that has work: a
    /// write of the least loser is undone, or it is ended; the least segment that is unrestored is restored; the least page that
    /// awaits redo is brought; the least dirty page is written, and dropped where the device fails; the next archive run is made,
    /// which has work where at least 1,000 durable records wait for it and fewer than 1,024 runs stand. By one thread no work
    /// comes back of a kind that is done: a page that is brought or written, and a run, make no loser and lose no segment, one
    /// that is written awaits no redo, and a run touches no page.
    pub fn help<D: PageDevice, V: Vault, R: Wait>(
        &mut self,
        rt: &R,
        alloc: Global,
        pages: &mut StorePages<'a, D, V, N>,
        steps: u32,
    ) -> Result<u32, Fault>
        requires idle { IsIdle pages.old.pool.out pages.old.pool.reserves }
        requires open { self.old.ended ≡ None }
        ensures idle { IsIdle pages.new.pool.out pages.new.pool.reserves }
        ensures helps { Helps (IsLoserOf N.opens) steps self.old.history self.new.history }
        ensures taken { IfOk result (λ taken. taken ≤ steps) }
        ensures losers { IfOk result (λ taken. AreAllOver N.opens self.new.history ⊎ ((taken ≡ steps) × AddsSteps steps self.old.history self.new.history)) }
        ensures restored { IfOk result (λ taken. taken < steps → AreRestored N.opens self.new.history) }
        ensures redone { IfOk result (λ taken. taken < steps → (page : ℕ) → AwaitsRedo pages.new.pool.plan page → ⊥) }
        ensures written { IfOk result (λ taken. taken < steps → (page : ℕ) → 0 < page → Lacks pages.new.pool.frames page → ⊥) }
        ensures archived { IfOk result (λ taken. taken < steps → AreArchived N.opens self.old.durable self.new.durable self.new.history) }
        ensures names { self.new.active ≡ self.old.active }
        ensures goes { OnOk result (GoesOn self.old self.new) }
        ensures counted { pages.old.pool.supply.bases.faults ≤ pages.new.pool.supply.bases.faults }
        ensures refused { IfErr result (FailsOver N.opens pages.old.pool.supply.bases.faults pages.new.pool.supply.bases.faults self.old self.new) }
    {
        let undone = self.undo_losers(rt, alloc, pages, steps)?;
        let brought = self.bring_pages(rt, alloc, pages, steps - undone)?;
        let written = self.write_pages(rt, alloc, pages, steps - undone - brought)?;
        let left = steps - undone - brought - written;
        let archived = self.archive_runs(rt, alloc, pages, left)?;
        Ok(undone + brought + written + archived)
    }

    /// Undoes losers, the least first, in so many steps at most.
    fn undo_losers<D: PageDevice, V: Vault, R: Wait>(
        &mut self,
        rt: &R,
        alloc: Global,
        pages: &mut StorePages<'a, D, V, N>,
        steps: u32,
    ) -> Result<u32, Fault>
        requires idle { IsIdle pages.old.pool.out pages.old.pool.reserves }
        requires open { self.old.ended ≡ None }
        ensures idle { IsIdle pages.new.pool.out pages.new.pool.reserves }
        ensures few { IfOk result (λ taken. taken ≤ steps) }
        ensures undoes { IfOk result (λ taken. Undoes (IsLoserOf N.opens) taken self.old.history self.new.history) }
        ensures over { IfOk result (λ taken. taken < steps → AreAllOver N.opens self.new.history) }
        ensures some { OnErr result (UndoesSome (IsLoserOf N.opens) steps self.old.history self.new.history) }
        ensures names { self.new.active ≡ self.old.active }
        ensures goes { OnOk result (GoesOn self.old self.new) }
        ensures counted { pages.old.pool.supply.bases.faults ≤ pages.new.pool.supply.bases.faults }
        ensures refused { IfErr result (FailsOver N.opens pages.old.pool.supply.bases.faults pages.new.pool.supply.bases.faults self.old self.new) }
    {
        for taken in 0..steps {
            if !self.undo_next(rt, alloc, pages)? {
                return Ok(taken);
            }
        }
        Ok(steps)
    }

    /// Brings so many pages ahead of need at most: those of segments that are unrestored, and then those that await redo.
    fn bring_pages<D: PageDevice, V: Vault, R: Wait>(
        &mut self,
        rt: &R,
        alloc: Global,
        pages: &mut StorePages<'a, D, V, N>,
        steps: u32,
    ) -> Result<u32, Fault>
        requires idle { IsIdle pages.old.pool.out pages.old.pool.reserves }
        requires open { self.old.ended ≡ None }
        ensures idle { IsIdle pages.new.pool.out pages.new.pool.reserves }
        ensures few { IfOk result (λ taken. taken ≤ steps) }
        ensures restored { IfOk result (λ taken. taken < steps → AreRestored N.opens self.new.history) }
        ensures redone { IfOk result (λ taken. taken < steps → (page : ℕ) → AwaitsRedo pages.new.pool.plan page → ⊥) }
        ensures upkeep { AddsUpkeep self.old.history self.new.history }
        ensures names { self.new.active ≡ self.old.active }
        ensures goes { OnOk result (GoesOn self.old self.new) }
        ensures counted { pages.old.pool.supply.bases.faults ≤ pages.new.pool.supply.bases.faults }
        ensures refused { IfErr result (FailsOver N.opens pages.old.pool.supply.bases.faults pages.new.pool.supply.bases.faults self.old self.new) }
    {
        for taken in 0..steps {
            if self.bring_next(rt, alloc, pages)?.is_none() {
                return Ok(taken);
            }
        }
        Ok(steps)
    }

    /// Writes so many dirty pages at most, the least first.
    fn write_pages<D: PageDevice, V: Vault, R: Wait>(
        &mut self,
        rt: &R,
        alloc: Global,
        pages: &mut StorePages<'a, D, V, N>,
        steps: u32,
    ) -> Result<u32, Fault>
        requires idle { IsIdle pages.old.pool.out pages.old.pool.reserves }
        requires open { self.old.ended ≡ None }
        ensures idle { IsIdle pages.new.pool.out pages.new.pool.reserves }
        ensures few { IfOk result (λ taken. taken ≤ steps) }
        ensures stored { OnOk result (AllBut steps (Lacks pages.old.pool.frames) (Lacks pages.new.pool.frames)) }
        ensures clean { IfOk result (λ taken. taken < steps → (page : ℕ) → 0 < page → Lacks pages.new.pool.frames page → ⊥) }
        ensures awaits { (page : ℕ) → AwaitsRedo pages.new.pool.plan page → AwaitsRedo pages.old.pool.plan page }
        ensures written { WritesUpto steps self.old.history self.new.history }
        ensures taken { IfOk result (λ taken. WritesUpto taken self.old.history self.new.history) }
        ensures names { self.new.active ≡ self.old.active }
        ensures goes { OnOk result (GoesOn self.old self.new) }
        ensures counted { pages.new.pool.supply.bases.faults ≡ pages.old.pool.supply.bases.faults }
        ensures refused { IfErr result (Fails N.opens self.old self.new) }
    {
        for taken in 0..steps {
            if self.write_next(rt, alloc, pages, 0)?.is_none() {
                return Ok(taken);
            }
        }
        Ok(steps)
    }

    /// Makes so many archive runs at most, as long as they are due.
    fn archive_runs<D: PageDevice, V: Vault, R: Wait>(
        &mut self,
        rt: &R,
        alloc: Global,
        pages: &mut StorePages<'a, D, V, N>,
        steps: u32,
    ) -> Result<u32, Fault>
        requires idle { IsIdle pages.old.pool.out pages.old.pool.reserves }
        requires open { self.old.ended ≡ None }
        ensures idle { IsIdle pages.new.pool.out pages.new.pool.reserves }
        ensures few { IfOk result (λ taken. taken ≤ steps) }
        ensures archived { IfOk result (λ taken. taken < steps → AreArchived N.opens self.old.durable self.new.durable self.new.history) }
        ensures made { MakesUpto steps self.old.history self.new.history }
        ensures same { (pages.new.pool.frames ≡ pages.old.pool.frames) × (pages.new.pool.plan ≡ pages.old.pool.plan) }
        ensures names { self.new.active ≡ self.old.active }
        ensures goes { OnOk result (GoesOn self.old self.new) }
        ensures counted { pages.old.pool.supply.bases.faults ≤ pages.new.pool.supply.bases.faults }
        ensures refused { IfErr result (FailsOver N.opens pages.old.pool.supply.bases.faults pages.new.pool.supply.bases.faults self.old self.new) }
    {
        for taken in 0..steps {
            if !self.archive_next(rt, alloc, pages)? {
                return Ok(taken);
            }
        }
        Ok(steps)
    }

    /// Takes a step in undoing the least loser, if any is left.
    fn undo_next<D: PageDevice, V: Vault, R: Wait>(
        &mut self,
        rt: &R,
        alloc: Global,
        pages: &mut StorePages<'a, D, V, N>,
    ) -> Result<bool, Fault>
        requires idle { IsIdle pages.old.pool.out pages.old.pool.reserves }
        requires open { self.old.ended ≡ None }
        ensures idle { IsIdle pages.new.pool.out pages.new.pool.reserves }
        ensures steps { StepsBack N.opens result self.old.history self.new.history }
        ensures names { self.new.active ≡ self.old.active }
        ensures goes { OnOk result (GoesOn self.old self.new) }
        ensures counted { pages.old.pool.supply.bases.faults ≤ pages.new.pool.supply.bases.faults }
        ensures refused { IfErr result (FailsOver N.opens pages.old.pool.supply.bases.faults pages.new.pool.supply.bases.faults self.old self.new) }
    {
        let OwnLife { journal, life } = self;
        let undone = pages.undo_next(rt, alloc, journal, life);
        see_whole(journal, life);
        undone
    }

    /// Brings the next page ahead of need, and gives its number; none where no segment is unrestored and no page awaits redo.
    fn bring_next<D: PageDevice, V: Vault, R: Wait>(
        &mut self,
        rt: &R,
        alloc: Global,
        pages: &mut StorePages<'a, D, V, N>,
    ) -> Result<Option<PageNo>, Fault>
        requires idle { IsIdle pages.old.pool.out pages.old.pool.reserves }
        requires open { self.old.ended ≡ None }
        ensures idle { IsIdle pages.new.pool.out pages.new.pool.reserves }
        ensures restored { IfOk result (λ page. IfNone page (AreRestored N.opens self.new.history)) }
        ensures redone { IfOk result (λ page. IfNone page ((q : ℕ) → AwaitsRedo pages.new.pool.plan q → ⊥)) }
        ensures upkeep { AddsUpkeep self.old.history self.new.history }
        ensures names { self.new.active ≡ self.old.active }
        ensures goes { OnOk result (GoesOn self.old self.new) }
        ensures counted { pages.old.pool.supply.bases.faults ≤ pages.new.pool.supply.bases.faults }
        ensures refused { IfErr result (FailsOver N.opens pages.old.pool.supply.bases.faults pages.new.pool.supply.bases.faults self.old self.new) }
    {
        let OwnLife { journal, life } = self;
        let brought = pages.bring_next(rt, alloc, journal, life);
        see_whole(journal, life);
        brought
    }

    /// Makes the next archive run where it is due, and says whether it did.
    fn archive_next<D: PageDevice, V: Vault, R: Wait>(
        &mut self,
        rt: &R,
        alloc: Global,
        pages: &mut StorePages<'a, D, V, N>,
    ) -> Result<bool, Fault>
        requires idle { IsIdle pages.old.pool.out pages.old.pool.reserves }
        requires open { self.old.ended ≡ None }
        ensures idle { IsIdle pages.new.pool.out pages.new.pool.reserves }
        ensures archives { ArchivesNext N.opens result self.old.history self.new.history self.old.durable self.new.durable }
        ensures same { (pages.new.pool.frames ≡ pages.old.pool.frames) × (pages.new.pool.plan ≡ pages.old.pool.plan) }
        ensures names { self.new.active ≡ self.old.active }
        ensures goes { OnOk result (GoesOn self.old self.new) }
        ensures counted { pages.old.pool.supply.bases.faults ≤ pages.new.pool.supply.bases.faults }
        ensures refused { IfErr result (FailsOver N.opens pages.old.pool.supply.bases.faults pages.new.pool.supply.bases.faults self.old self.new) }
    {
        let OwnLife { journal, life } = self;
        let made = pages.archive_next(rt, alloc, journal, life);
        see_whole(journal, life);
        made
    }
}
