//! A supply of pages from the log and from the backups in the vault.
ghost use Rattle.std.specs.Prelude.{◌≡◌};
ghost use Rattle.segment_restore.specs.Faults.{of_vault};
ghost use Rattle.wal_record.specs.Upkeep.{segment_of};

use backups::VaultSupply;
use front::Pass;
use media::Vault;
use named_objects::{Naming, Objects, OwnObjects, name_object};
use operators::Operators;
use page_image::Sealed;
use page_ops::{Entering, Life, VaultFaults};
use page_repair::{Images, Supply};
use segment_restore::{Bases, mark_restored, rebuild_in_life, restore, sealed_of};
use std::alloc::Global;
use std::sync::Wait;
use store_model::{Fault, Lsn, PageNo, SEGMENT_PAGES};
use vault_bases::VaultBases;
use wal_record::Entry;

/// A supply of pages that are rebuilt from the image that is handed in, or from their last backup, or from nothing, and by what
/// the log and its archive runs keep. It owns the vault, and counts the vault's faults.
#[derive(Drop)]
pub struct LifeSupply<'a, V: Vault, N: Life> {
    pub(crate) operators: &'a Operators,
    pub(crate) bases: VaultBases<OwnObjects<V, N>, VaultFaults<N>>,
}

/// The segment that has the page.
fn segment_of(page: PageNo) -> u32
    ensures { result ≡ segment_of page }
{
    page.saturating_sub(1) / SEGMENT_PAGES
}

impl<'a, V: Vault, N: Life, J: Entering<N>> Supply<N, J> for LifeSupply<'a, V, N> {
    ghost faults = { λ s. of_vault s.bases.faults };

    fn log_faults(&self) -> u64 {
        0
    }

    fn vault_faults(&self) -> u64 {
        self.bases.faults.told()
    }

    fn ready<I: Images<N>, R: Wait>(
        &mut self,
        rt: &R,
        alloc: Global,
        journal: &mut J,
        images: &mut I,
        page: PageNo,
        pass: &mut Pass<Entry, N>,
    ) -> Result<(), Fault> {
        let listed = journal.listed(rt, page, pass)?;
        if !listed.unrestored {
            return Ok(());
        }
        let segment = segment_of(page);
        restore(
            rt,
            alloc,
            journal,
            images,
            &mut self.bases,
            segment,
            listed.lost,
            self.operators,
            pass,
        )?;
        mark_restored(rt, alloc, journal, segment, pass)
    }

    fn rebuilt<R: Wait>(
        &mut self,
        rt: &R,
        alloc: Global,
        journal: &mut J,
        page: PageNo,
        base: Option<Sealed>,
        head: Lsn,
        pass: &mut Pass<Entry, N>,
    ) -> Result<Sealed, Fault> {
        let operators = self.operators;
        let bases = &mut self.bases;
        if base.is_some() {
            return rebuild_in_life(rt, alloc, journal, bases, page, base, head, operators, pass);
        }
        let base = bases.base(rt, alloc, journal, page, head, pass)?;
        let base = sealed_of(base);
        rebuild_in_life(rt, alloc, journal, bases, page, base, head, operators, pass)
    }
}

impl<'a, V: Vault, N: Life, J: Entering<N>> VaultSupply<N, J> for LifeSupply<'a, V, N> {
    fn last_named<R: Wait>(&mut self, rt: &R, journal: &mut J, pass: &mut Pass<Entry, N>) -> Lsn {
        self.bases.objects.last_named(rt, journal, pass)
    }

    fn name_object<R: Wait>(
        &mut self,
        rt: &R,
        alloc: Global,
        journal: &mut J,
        since: Lsn,
        naming: Naming,
        bytes: &[u8],
        pass: &mut Pass<Entry, N>,
    ) -> Result<Lsn, Fault> {
        let objects = &mut self.bases.objects;
        let named = name_object(rt, alloc, journal, objects, since, naming, bytes, pass);
        if let Err(Fault::VaultFault) = &named {
            self.bases.faults.add();
        }
        named
    }
}
