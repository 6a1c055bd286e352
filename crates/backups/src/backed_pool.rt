//! A pool whose supply owns the vault.

use crate::backed_pages::BackedPages;
use crate::vault_supply::VaultSupply;
use buffer_pool::PlainPool;
use front::Pass;
use named_objects::Naming;
use page_ops::{Entering, Life};
use page_repair::Images;
use std::alloc::Global;
use std::sync::Wait;
use store_model::{Fault, Lsn};
use wal_record::Entry;

impl<N: Life, J: Entering<N>, I: Images<N>, S: VaultSupply<N, J>> BackedPages<N, J>
    for PlainPool<I, S, N> {
    fn last_named<R: Wait>(&mut self, rt: &R, journal: &mut J, pass: &mut Pass<Entry, N>) -> Lsn {
        self.supply.last_named(rt, journal, pass)
    }

    fn name_object<R: Wait>(
        &mut self,
        rt: &R,
        alloc: Global,
        journal: &mut J,
        since: Lsn,
        naming: Naming,
        bytes: &[u8],
        pass: &mut Pass<Entry, N>,
    ) -> Result<Lsn, Fault> {
        self.supply
            .name_object(rt, alloc, journal, since, naming, bytes, pass)
    }
}
