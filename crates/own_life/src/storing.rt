//! What a life stores in its vault: backups of its pages, and runs of its log.
ghost use Rattle.std.specs.Prelude.{◌≡◌, ◌≤◌, None, IfErr, OnOk};
ghost use Rattle.store_pages.specs.Backed.{Archives, BacksUp};
ghost use Rattle.own_life.specs.State.{FailsOver, GoesOn};
ghost use Rattle.store_pages.specs.Pages.{IsIdle};

use crate::life::OwnLife;
use crate::seeing::see_whole;
use media::{Disk, PageDevice, Vault};
use page_ops::Life;
use std::alloc::Global;
use std::sync::Wait;
use store_model::Fault;
use store_pages::StorePages;

impl<'a, L: Disk, N: Life> OwnLife<'a, L, N> {
    /// Makes a backup of all pages, segment by segment, and gives its number; as `backups::backup`. After a refusal the segments
    /// that are done stay named.
    pub fn backup<D: PageDevice, V: Vault, R: Wait>(
        &mut self,
        rt: &R,
        alloc: Global,
        pages: &mut StorePages<'a, D, V, N>,
    ) -> Result<u64, Fault>
        requires idle { IsIdle pages.old.pool.out pages.old.pool.reserves }
        requires open { self.old.ended ≡ None }
        ensures idle { IsIdle pages.new.pool.out pages.new.pool.reserves }
        ensures backs_up { BacksUp N.opens result self.old.history self.new.history self.new.durable }
        ensures names { self.new.active ≡ self.old.active }
        ensures goes { OnOk result (GoesOn self.old self.new) }
        ensures counted { pages.old.pool.supply.bases.faults ≤ pages.new.pool.supply.bases.faults }
        ensures refused { IfErr result (FailsOver N.opens pages.old.pool.supply.bases.faults pages.new.pool.supply.bases.faults self.old self.new) }
    {
        let OwnLife { journal, life } = self;
        let made = pages.backup(rt, alloc, journal, life);
        see_whole(journal, life);
        made
    }

    /// Makes runs of the records that no run has yet, and gives how many; as `archiving::archive`. After a refusal those that
    /// are done stay named.
    pub fn archive<D: PageDevice, V: Vault, R: Wait>(
        &mut self,
        rt: &R,
        alloc: Global,
        pages: &mut StorePages<'a, D, V, N>,
    ) -> Result<u64, Fault>
        requires idle { IsIdle pages.old.pool.out pages.old.pool.reserves }
        requires open { self.old.ended ≡ None }
        ensures idle { IsIdle pages.new.pool.out pages.new.pool.reserves }
        ensures archives { Archives N.opens result self.old.history self.new.history self.new.durable }
        ensures names { self.new.active ≡ self.old.active }
        ensures goes { OnOk result (GoesOn self.old self.new) }
        ensures counted { pages.old.pool.supply.bases.faults ≤ pages.new.pool.supply.bases.faults }
        ensures refused { IfErr result (FailsOver N.opens pages.old.pool.supply.bases.faults pages.new.pool.supply.bases.faults self.old self.new) }
    {
        let OwnLife { journal, life } = self;
        let made = pages.archive(rt, alloc, journal, life);
        see_whole(journal, life);
        made
    }
}
