//! A supply of pages from the log.
ghost use Rattle.segment_restore.specs.Faults.{of_vault};

use crate::base::sealed_of;
use crate::bases::Bases;
use crate::rebuilding::rebuild_in_life;
use crate::restoring::{mark_restored, restore, segment_of};
use front::Pass;
use operators::Operators;
use page_image::Sealed;
use page_ops::{Entering, Life};
use page_repair::{Images, Supply};
use std::alloc::Global;
use std::sync::Wait;
use store_model::{Fault, Lsn, PageNo};
use wal_record::Entry;

/// A supply of pages that are rebuilt from their bases, or from nothing, and from what the log and its archive runs keep.
#[derive(Drop)]
pub struct LogSupply<'a, B> {
    pub operators: &'a Operators,
    pub bases: B,
}

impl<'a, N: Life, J: Entering<N>, B: Bases<N, J>> Supply<N, J> for LogSupply<'a, B> {
    ghost faults = { λ s. of_vault (B.vault_faults s.bases) };

    fn log_faults(&self) -> u64 {
        0
    }

    fn vault_faults(&self) -> u64 {
        self.bases.vault_faults()
    }

    fn ready<I: Images<N>, R: Wait>(
        &mut self,
        rt: &R,
        alloc: Global,
        journal: &mut J,
        images: &mut I,
        page: PageNo,
        pass: &mut Pass<Entry, N>,
    ) -> Result<(), Fault> {
        let listed = journal.listed(rt, page, pass)?;
        if !listed.unrestored {
            return Ok(());
        }
        let segment = segment_of(page);
        restore(
            rt,
            alloc,
            journal,
            images,
            &mut self.bases,
            segment,
            listed.lost,
            self.operators,
            pass,
        )?;
        mark_restored(rt, alloc, journal, segment, pass)
    }

    fn rebuilt<R: Wait>(
        &mut self,
        rt: &R,
        alloc: Global,
        journal: &mut J,
        page: PageNo,
        base: Option<Sealed>,
        head: Lsn,
        pass: &mut Pass<Entry, N>,
    ) -> Result<Sealed, Fault> {
        let operators = self.operators;
        let bases = &mut self.bases;
        if base.is_some() {
            return rebuild_in_life(rt, alloc, journal, bases, page, base, head, operators, pass);
        }
        let base = bases.base(rt, alloc, journal, page, head, pass)?;
        let base = sealed_of(base);
        rebuild_in_life(rt, alloc, journal, bases, page, base, head, operators, pass)
    }
}
