//! A supply that rebuilds an empty leaf.
ghost use Rattle.std.specs.Prelude.{IfSome};
ghost use Rattle.wal_record.specs.State.{KeepsState};

use crate::telling::Telling;
use front::Pass;
use page_image::Sealed;
use page_ops::Life;
use page_repair::{Images, Supply};
use std::alloc::Global;
use std::sync::Wait;
use store_model::{Bound, Fault, List, Lsn, PageNo};
use wal_record::{Entry, PageState, Rows};

/// Rebuilds a page from its base, or else an empty leaf, and counts which it was.
#[derive(Drop)]
pub(crate) struct EmptyLeaf {
    pub(crate) from_base: u32,
    pub(crate) from_nothing: u32,
}

/// A leaf with all keys and no rows.
pub(crate) fn leaf_state(alloc: Global) -> Option<PageState>
    ensures { IfSome result KeepsState }
{
    Some(PageState {
        level: 0,
        low: Bound::at(&[])?,
        high: Bound::top(),
        foster: None,
        rows: Rows::Leaf(List::new(alloc)),
    })
}

impl<'a, N: Life> Supply<N, Telling<'a, N>> for EmptyLeaf {
    ghost faults = { λ s. record { log = 0; vault = 0 } };

    fn log_faults(&self) -> u64 {
        0
    }

    fn vault_faults(&self) -> u64 {
        0
    }

    #[tactic(auto, using(page_ops::proofs::Gaining::upheld, page_repair::proofs::Sparing::spares_same))]
    fn ready<I: Images<N>, R: Wait>(
        &mut self,
        _rt: &R,
        _alloc: Global,
        journal: &mut Telling<'a, N>,
        _images: &mut I,
        _page: PageNo,
        pass: &mut Pass<Entry, N>,
    ) -> Result<(), Fault> {
        journal.history.watch(pass, &mut journal.counts);
        Err(Fault::Memory)
    }

    #[tactic(auto, using(page_ops::proofs::Gaining::upheld))]
    fn rebuilt<R: Wait>(
        &mut self,
        _rt: &R,
        alloc: Global,
        journal: &mut Telling<'a, N>,
        _page: PageNo,
        base: Option<Sealed>,
        head: Lsn,
        pass: &mut Pass<Entry, N>,
    ) -> Result<Sealed, Fault> {
        journal.history.watch(pass, &mut journal.counts);
        if journal.wants_memory() {
            return Err(Fault::Memory);
        }
        let Some(base) = base else {
            self.from_nothing = self.from_nothing.saturating_add(1);
            let Some(state) = leaf_state(alloc) else {
                return Err(Fault::Memory);
            };
            return Ok(Sealed { state, lsn: head });
        };
        self.from_base = self.from_base.saturating_add(1);
        Ok(Sealed {
            state: base.state,
            lsn: head,
        })
    }
}
