//! The pages of a life over its data device and its vault.
ghost use Rattle.std.specs.Prelude.{◌≡◌, ◌≤◌, ◌⊎◌, ℕ, Some, IfErr, IfNone, IfOk, OnOk, true};
ghost use mathlib.Core.List.{IsPrefix};
ghost use Rattle.command_laws.specs.Names.{Active, active_of, is_active};
ghost use Rattle.engine.specs.Answers.{FailsToAsk};
ghost use Rattle.engine.specs.Applies.{GivesNone};
ghost use Rattle.engine.specs.Requests.{IsRefusal, lock_of};
ghost use Rattle.engine.specs.Writes.{LacksRoom};
ghost use Rattle.media.specs.Cause.{Rose};
ghost use Rattle.media.specs.Counted.{Armed};
ghost use Rattle.media.specs.Images.{SameImages};
ghost use Rattle.page_ops.specs.Causes.{FailsToBring, FailsToReserve, MeetsNoEnd};
ghost use Rattle.page_ops.specs.Outcomes.{IsConflict};
ghost use Rattle.page_ops.specs.Seeing.{Keeps};
ghost use Rattle.page_repair.specs.Images.{AreWritten};
ghost use Rattle.segment_restore.specs.Faults.{no_faults, of_vault};
ghost use Rattle.store_life.specs.SoFar.{HasNames, Runs, actives, left_by};
ghost use Rattle.store_life.specs.Steps.{AddsUpkeep, StepsBack};
ghost use Rattle.store_life.specs.Turns.{Asks, EndsBy, IsTold};
ghost use Rattle.store_pages.specs.Backed.{Archives, ArchivesNext, BacksUp};
ghost use Rattle.store_pages.specs.Pages.{AreRestored, AwaitsRedo, IsEmptied, IsIdle, IsKnownRestored, IsNextRedone, IsNextWritten, Lacks, OneLess, WritesUpto};

use crate::supply::LifeSupply;
use archiving::{archive, archive_next};
use backups::backup;
use buffer_pool::PlainPool;
use engine::Answered;
use front::Pass;
use media::{PageDevice, Vault};
use named_objects::OwnObjects;
use operators::Operators;
use page_ops::{Entering, Journaling, Life, Pages, VaultFaults};
use page_repair::OwnImages;
use script::Name;
use std::alloc::Global;
use std::sync::Wait;
use store_life::StoreLife;
use store_model::{Fault, PageNo, Pos, Request, SEGMENT_PAGES};
use vault_bases::VaultBases;
use wal_record::Entry;

/// The pages of a life over a data device and a vault, with the operators that change their rows: a page that the device lacks,
/// or gives damaged or too old, is rebuilt from its last backup and from the log. No call of a log disk is made here but by the
/// journal. Each call wants no page in hand, and leaves none.
#[derive(Drop)]
pub struct StorePages<'a, D: PageDevice, V: Vault, N: Life> {
    pub(crate) pool: PlainPool<OwnImages<'a, D, N>, LifeSupply<'a, V, N>, N>,
}

impl<'a, D: PageDevice, V: Vault, N: Life> StorePages<'a, D, V, N> {
    /// The pages of a pool, over a supply that owns the vault.
    pub fn new(
        pages: PlainPool<OwnImages<'a, D, N>, (), N>,
        operators: &'a Operators,
        bases: VaultBases<OwnObjects<V, N>, VaultFaults<N>>,
    ) -> StorePages<'a, D, V, N>
        requires idle { IsIdle pages.out pages.reserves }
        ensures idle { IsIdle result.pool.out result.pool.reserves }
        ensures pages { (result.pool.frames ≡ pages.entry.frames) × (result.pool.plan ≡ pages.entry.plan) × (result.pool.images ≡ pages.entry.images) }
        ensures bases { result.pool.supply.bases ≡ bases }
    {
        let (pool, ()) = pages.resupplied(LifeSupply { operators, bases });
        StorePages { pool }
    }

    /// As `StoreLife::ask`, of an active transaction.
    pub fn ask<J: Journaling<N>, R: Wait>(
        &mut self,
        rt: &R,
        alloc: Global,
        journal: &mut J,
        life: &mut StoreLife<N>,
        name: &Name,
        request: Request,
    ) -> Result<Answered, Fault>
        requires idle { IsIdle self.old.pool.out self.old.pool.reserves }
        requires runs { Runs N.opens N.entries (J.account journal.old) life.old }
        requires active { is_active (actives life.old.named.items) name.now ≡ true }
        ensures idle { IsIdle self.new.pool.out self.new.pool.reserves }
        ensures runs { Runs N.opens N.entries (J.account journal.new) life.new }
        ensures asks { (a : Active) → active_of (actives life.old.named.items) name.now ≡ Some a → Asks N.opens a.session a.tx request result life.old.pass.log life.new.pass.log }
        ensures told { (a : Active) → active_of (actives life.old.named.items) name.now ≡ Some a → IfOk result (IsTold N.opens a.session a.tx request life.new.pass.log) }
        ensures names { actives life.new.named.items ≡ actives life.old.named.items }
        ensures named { HasNames life.old → HasNames life.new }
        ensures conflict { IfErr result (IsConflict N.opens life.new.pass.log (lock_of request)) }
        ensures full { IfErr result (LacksRoom N.opens life.new.pass.log) }
        ensures gives_none { IfErr result (GivesNone N.opens request life.new.pass.log) }
        ensures durable { life.old.pass.durable ≤ life.new.pass.durable }
        ensures keeps { Keeps (J.account journal.old) (J.account journal.new) }
        ensures open { OnOk result (MeetsNoEnd (J.account journal.old) (J.account journal.new)) }
        ensures counted { self.old.pool.supply.bases.faults ≤ self.new.pool.supply.bases.faults }
        ensures refused { IfErr result (FailsToAsk (IsRefusal request) N.opens N.log_faults N.made (of_vault self.old.pool.supply.bases.faults) (of_vault self.new.pool.supply.bases.faults) (J.account journal.old) (J.account journal.new) life.new.pass.log) }
    {
        let operators = self.pool.supply.operators;
        let pool = &mut self.pool;
        life.ask(rt, alloc, pool, journal, operators, name, request)
    }

    /// As `StoreLife::abort`, of an active transaction.
    pub fn abort<J: Journaling<N>, R: Wait>(
        &mut self,
        rt: &R,
        alloc: Global,
        journal: &mut J,
        life: &mut StoreLife<N>,
        name: &Name,
    ) -> Result<Pos, Fault>
        requires idle { IsIdle self.old.pool.out self.old.pool.reserves }
        requires runs { Runs N.opens N.entries (J.account journal.old) life.old }
        requires active { is_active (actives life.old.named.items) name.now ≡ true }
        ensures idle { IsIdle self.new.pool.out self.new.pool.reserves }
        ensures runs { Runs N.opens N.entries (J.account journal.new) life.new }
        ensures aborts { (a : Active) → active_of (actives life.old.named.items) name.now ≡ Some a → EndsBy N.opens a.tx result life.old.pass.log life.new.pass.log }
        ensures names { actives life.new.named.items ≡ left_by result (actives life.old.named.items) name.now }
        ensures named { HasNames life.old → HasNames life.new }
        ensures durable { life.old.pass.durable ≤ life.new.pass.durable }
        ensures keeps { Keeps (J.account journal.old) (J.account journal.new) }
        ensures open { OnOk result (MeetsNoEnd (J.account journal.old) (J.account journal.new)) }
        ensures counted { self.old.pool.supply.bases.faults ≤ self.new.pool.supply.bases.faults }
        ensures refused { IfErr result (FailsToBring N.opens N.log_faults N.made (of_vault self.old.pool.supply.bases.faults) (of_vault self.new.pool.supply.bases.faults) (J.account journal.old) (J.account journal.new) life.new.pass.log) }
    {
        life.abort(rt, alloc, &mut self.pool, journal, name)
    }

    /// As `StoreLife::undo_next`.
    pub fn undo_next<J: Journaling<N>, R: Wait>(
        &mut self,
        rt: &R,
        alloc: Global,
        journal: &mut J,
        life: &mut StoreLife<N>,
    ) -> Result<bool, Fault>
        requires idle { IsIdle self.old.pool.out self.old.pool.reserves }
        requires runs { Runs N.opens N.entries (J.account journal.old) life.old }
        ensures idle { IsIdle self.new.pool.out self.new.pool.reserves }
        ensures runs { Runs N.opens N.entries (J.account journal.new) life.new }
        ensures steps { StepsBack N.opens result life.old.pass.log life.new.pass.log }
        ensures names { life.new.named ≡ life.old.named }
        ensures named { HasNames life.old → HasNames life.new }
        ensures durable { life.old.pass.durable ≤ life.new.pass.durable }
        ensures keeps { Keeps (J.account journal.old) (J.account journal.new) }
        ensures open { OnOk result (MeetsNoEnd (J.account journal.old) (J.account journal.new)) }
        ensures counted { self.old.pool.supply.bases.faults ≤ self.new.pool.supply.bases.faults }
        ensures refused { IfErr result (FailsToBring N.opens N.log_faults N.made (of_vault self.old.pool.supply.bases.faults) (of_vault self.new.pool.supply.bases.faults) (J.account journal.old) (J.account journal.new) life.new.pass.log) }
    {
        life.undo_next(rt, alloc, &mut self.pool, journal)
    }

    /// Brings the next page ahead of need, and gives its number: the first page of the least segment that is unrestored, which is
    /// then restored; or the least page that awaits redo. None where no segment is unrestored and no page awaits redo.
    pub fn bring_next<J: Journaling<N>, R: Wait>(
        &mut self,
        rt: &R,
        alloc: Global,
        journal: &mut J,
        life: &mut StoreLife<N>,
    ) -> Result<Option<PageNo>, Fault>
        requires idle { IsIdle self.old.pool.out self.old.pool.reserves }
        requires runs { Runs N.opens N.entries (J.account journal.old) life.old }
        ensures idle { IsIdle self.new.pool.out self.new.pool.reserves }
        ensures runs { Runs N.opens N.entries (J.account journal.new) life.new }
        ensures restored { IfOk result (λ page. IfNone page (AreRestored N.opens life.new.pass.log)) }
        ensures redone { IfOk result (λ page. IfNone page ((q : ℕ) → AwaitsRedo self.new.pool.plan q → ⊥)) }
        ensures next { IfOk result (λ page. IsKnownRestored N.opens life.old.pass.log → IsNextRedone (AwaitsRedo self.old.pool.plan) (AwaitsRedo self.new.pool.plan) page) }
        ensures fewer { (page : ℕ) → AwaitsRedo self.new.pool.plan page → AwaitsRedo self.old.pool.plan page }
        ensures upkeep { AddsUpkeep life.old.pass.log life.new.pass.log }
        ensures names { life.new.named ≡ life.old.named }
        ensures named { HasNames life.old → HasNames life.new }
        ensures durable { life.old.pass.durable ≤ life.new.pass.durable }
        ensures keeps { Keeps (J.account journal.old) (J.account journal.new) }
        ensures open { OnOk result (MeetsNoEnd (J.account journal.old) (J.account journal.new)) }
        ensures counted { self.old.pool.supply.bases.faults ≤ self.new.pool.supply.bases.faults }
        ensures refused { IfErr result (FailsToBring N.opens N.log_faults N.made (of_vault self.old.pool.supply.bases.faults) (of_vault self.new.pool.supply.bases.faults) (J.account journal.old) (J.account journal.new) life.new.pass.log) }
    {
        let work = match journal.work(rt, &mut life.pass) {
            Ok(work) => work,
            Err(fault) => return Err(fault),
        };
        let next = match work.segment {
            Some(segment) => Some(segment.saturating_mul(SEGMENT_PAGES).saturating_add(1)),
            None => self.pool.next_redo(0),
        };
        let Some(page) = next else {
            return Ok(None);
        };
        // What is unrestored or awaits redo is there, in every log that is told.
        if page > journal.pages(rt, &mut life.pass) {
            return Err(Fault::Memory);
        }
        match self.pool.bring(rt, alloc, journal, page, &mut life.pass) {
            Ok(()) => Ok(Some(page)),
            Err(fault) => Err(fault),
        }
    }

    /// Writes the least dirty page above this one to the data device, once the log is durable up to its LSN, and gives its number;
    /// none where no page above it is dirty. Where the device fails the page is dropped, and no answer tells of it.
    pub fn write_next<J: Entering<N>, R: Wait>(
        &mut self,
        rt: &R,
        alloc: Global,
        journal: &mut J,
        life: &mut StoreLife<N>,
        after: PageNo,
    ) -> Result<Option<PageNo>, Fault>
        requires idle { IsIdle self.old.pool.out self.old.pool.reserves }
        requires runs { Runs N.opens N.entries (J.account journal.old) life.old }
        ensures idle { IsIdle self.new.pool.out self.new.pool.reserves }
        ensures runs { Runs N.opens N.entries (J.account journal.new) life.new }
        ensures next { IfOk result (IsNextWritten (Lacks self.new.pool.frames) after) }
        ensures fewer { (page : ℕ) → Lacks self.new.pool.frames page → Lacks self.old.pool.frames page }
        ensures one { IfOk result (OneLess (Lacks self.old.pool.frames) (Lacks self.new.pool.frames)) }
        ensures awaits { (page : ℕ) → AwaitsRedo self.new.pool.plan page → AwaitsRedo self.old.pool.plan page }
        ensures writes { WritesUpto 1 life.old.pass.log life.new.pass.log }
        ensures none { IfOk result (λ page. IfNone page (life.new.pass.log ≡ life.old.pass.log)) }
        ensures names { life.new.named ≡ life.old.named }
        ensures named { HasNames life.old → HasNames life.new }
        ensures durable { life.old.pass.durable ≤ life.new.pass.durable }
        ensures keeps { Keeps (J.account journal.old) (J.account journal.new) }
        ensures open { OnOk result (MeetsNoEnd (J.account journal.old) (J.account journal.new)) }
        ensures counted { self.new.pool.supply.bases.faults ≡ self.old.pool.supply.bases.faults }
        ensures refused { IfErr result (FailsToReserve N.opens N.log_faults N.made no_faults no_faults (J.account journal.old) (J.account journal.new) life.new.pass.log) }
    {
        let Some(page) = self.pool.next_dirty(after) else {
            return Ok(None);
        };
        match self
            .pool
            .write_out(rt, alloc, journal, page, &mut life.pass)
        {
            Ok(()) => Ok(Some(page)),
            Err(fault) => Err(fault),
        }
    }

    /// Makes a backup of all pages, and gives its number; as `backups::backup`.
    pub fn backup<J: Journaling<N>, R: Wait>(
        &mut self,
        rt: &R,
        alloc: Global,
        journal: &mut J,
        life: &mut StoreLife<N>,
    ) -> Result<u64, Fault>
        requires idle { IsIdle self.old.pool.out self.old.pool.reserves }
        requires runs { Runs N.opens N.entries (J.account journal.old) life.old }
        ensures idle { IsIdle self.new.pool.out self.new.pool.reserves }
        ensures runs { Runs N.opens N.entries (J.account journal.new) life.new }
        ensures backs_up { BacksUp N.opens result life.old.pass.log life.new.pass.log life.new.pass.durable }
        ensures names { life.new.named ≡ life.old.named }
        ensures named { HasNames life.old → HasNames life.new }
        ensures durable { life.old.pass.durable ≤ life.new.pass.durable }
        ensures keeps { Keeps (J.account journal.old) (J.account journal.new) }
        ensures open { OnOk result (MeetsNoEnd (J.account journal.old) (J.account journal.new)) }
        ensures counted { self.old.pool.supply.bases.faults ≤ self.new.pool.supply.bases.faults }
        ensures refused { IfErr result (FailsToBring N.opens N.log_faults N.made (of_vault self.old.pool.supply.bases.faults) (of_vault self.new.pool.supply.bases.faults) (J.account journal.old) (J.account journal.new) life.new.pass.log) }
    {
        backup(rt, alloc, &mut self.pool, journal, &mut life.pass)
    }

    /// Makes runs of the records that no run has yet, and gives how many; as `archiving::archive`. A fault of the vault is counted
    /// as one at a call for a page is.
    pub fn archive<J: Journaling<N>, R: Wait>(
        &mut self,
        rt: &R,
        alloc: Global,
        journal: &mut J,
        life: &mut StoreLife<N>,
    ) -> Result<u64, Fault>
        requires idle { IsIdle self.old.pool.out self.old.pool.reserves }
        requires runs { Runs N.opens N.entries (J.account journal.old) life.old }
        ensures idle { IsIdle self.new.pool.out self.new.pool.reserves }
        ensures runs { Runs N.opens N.entries (J.account journal.new) life.new }
        ensures archives { Archives N.opens result life.old.pass.log life.new.pass.log life.new.pass.durable }
        ensures names { life.new.named ≡ life.old.named }
        ensures named { HasNames life.old → HasNames life.new }
        ensures durable { life.old.pass.durable ≤ life.new.pass.durable }
        ensures keeps { Keeps (J.account journal.old) (J.account journal.new) }
        ensures open { OnOk result (MeetsNoEnd (J.account journal.old) (J.account journal.new)) }
        ensures counted { self.old.pool.supply.bases.faults ≤ self.new.pool.supply.bases.faults }
        ensures refused { IfErr result (FailsToBring N.opens N.log_faults N.made (of_vault self.old.pool.supply.bases.faults) (of_vault self.new.pool.supply.bases.faults) (J.account journal.old) (J.account journal.new) life.new.pass.log) }
    {
        let bases = &mut self.pool.supply.bases;
        let objects = &mut bases.objects;
        let made = archive(rt, alloc, journal, objects, &mut life.pass);
        if let Err(Fault::VaultFault) = &made {
            bases.faults.add();
        }
        made
    }

    /// Makes the next run where it is due, and says whether it did; as `archiving::archive_next`. A fault of the vault is counted as
    /// one at a call for a page is.
    pub fn archive_next<J: Journaling<N>, R: Wait>(
        &mut self,
        rt: &R,
        alloc: Global,
        journal: &mut J,
        life: &mut StoreLife<N>,
    ) -> Result<bool, Fault>
        requires idle { IsIdle self.old.pool.out self.old.pool.reserves }
        requires runs { Runs N.opens N.entries (J.account journal.old) life.old }
        ensures idle { IsIdle self.new.pool.out self.new.pool.reserves }
        ensures runs { Runs N.opens N.entries (J.account journal.new) life.new }
        ensures archives { ArchivesNext N.opens result life.old.pass.log life.new.pass.log life.old.pass.durable life.new.pass.durable }
        ensures same { (self.new.pool.frames ≡ self.old.pool.frames) × (self.new.pool.plan ≡ self.old.pool.plan) }
        ensures names { life.new.named ≡ life.old.named }
        ensures named { HasNames life.old → HasNames life.new }
        ensures durable { life.old.pass.durable ≤ life.new.pass.durable }
        ensures keeps { Keeps (J.account journal.old) (J.account journal.new) }
        ensures open { OnOk result (MeetsNoEnd (J.account journal.old) (J.account journal.new)) }
        ensures counted { self.old.pool.supply.bases.faults ≤ self.new.pool.supply.bases.faults }
        ensures refused { IfErr result (FailsToBring N.opens N.log_faults N.made (of_vault self.old.pool.supply.bases.faults) (of_vault self.new.pool.supply.bases.faults) (J.account journal.old) (J.account journal.new) life.new.pass.log) }
    {
        let bases = &mut self.pool.supply.bases;
        let objects = &mut bases.objects;
        let next = archive_next(rt, alloc, journal, objects, &mut life.pass);
        if let Err(Fault::VaultFault) = &next {
            bases.faults.add();
        }
        next
    }

    /// The data device is lost, and an empty one takes its place; where it fails, the old images may stay, and no answer tells of
    /// that. Each page that was in memory is dropped.
    pub fn lose<R: Wait>(&mut self, rt: &R)
        requires idle { IsIdle self.old.pool.out self.old.pool.reserves }
        ensures idle { IsIdle self.new.pool.out self.new.pool.reserves }
        ensures clean { (page : ℕ) → Lacks self.new.pool.frames page → ⊥ }
        ensures empty { D.tells → IsEmptied D.newest D.faults self.old.pool.images self.new.pool.images }
        ensures others { (self.new.pool.plan ≡ self.old.pool.plan) × (self.new.pool.supply ≡ self.old.pool.supply) }
    {
        let _ = self.pool.lose(rt);
    }

    /// Reads of the page from the data device fail verification until its next write. No answer tells whether the device did so.
    pub fn damage(&mut self, page: PageNo)
        requires idle { IsIdle self.old.pool.out self.old.pool.reserves }
        ensures idle { IsIdle self.new.pool.out self.new.pool.reserves }
        ensures damaged { D.tells → D.spoiled self.new.pool.images page ⊎ Rose (D.faults self.old.pool.images) (D.faults self.new.pool.images) }
        ensures same { D.tells → SameImages D.told D.newest self.old.pool.images self.new.pool.images }
        ensures others { (self.new.pool.frames ≡ self.old.pool.frames) × (self.new.pool.plan ≡ self.old.pool.plan) × (self.new.pool.supply ≡ self.old.pool.supply) }
    {
        let _ = self.pool.spoil(page);
    }

    /// Arms the data device's fuse, which lets n more calls pass, or renews it.
    pub fn fuse(&mut self, n: Option<u64>)
        requires idle { IsIdle self.old.pool.out self.old.pool.reserves }
        ensures idle { IsIdle self.new.pool.out self.new.pool.reserves }
        ensures fuse { Armed D.fuses D.passes D.refused D.own n self.old.pool.images self.new.pool.images }
        ensures same { D.tells → SameImages D.told D.newest self.old.pool.images self.new.pool.images }
        ensures others { (self.new.pool.frames ≡ self.old.pool.frames) × (self.new.pool.plan ≡ self.old.pool.plan) × (self.new.pool.supply ≡ self.old.pool.supply) }
    {
        self.pool.fuse(n);
    }

    /// The data device, as it is, and what has the vault. The pass then has seen what the images are made of.
    pub fn into_parts(self, pass: &mut Pass<Entry, N>) -> (D, OwnObjects<V, N>)
        ensures device { result.0 ≡ self.entry.pool.images }
        ensures vault { result.1.vault ≡ self.entry.pool.supply.bases.objects.vault }
        ensures written { D.tells → AreWritten N.opens D.told pass.new result.0 }
        ensures seen { IsPrefix pass.old.log pass.new.log × (pass.old.durable ≤ pass.new.durable) }
    {
        let StorePages { pool } = self;
        let (images, supply) = pool.into_parts();
        let LifeSupply { bases, .. } = supply;
        let VaultBases { objects, .. } = bases;
        (images.into_device(pass), objects)
    }
}
