//! Images as a backup would have them, and records as runs would.
ghost use Rattle.std.specs.Prelude.{◌≡◌, IfSome};
ghost use Rattle.wal_record.specs.State.{KeepsState};

use crate::log::{FIRST, MADE, record_of, state_of};
use crate::telling::Telling;
use front::Pass;
use page_image::Sealed;
use page_ops::Life;
use segment_restore::{Base, Bases};
use std::alloc::Global;
use std::sync::Wait;
use store_model::{Fault, Lsn, PageNo};
use wal_record::{Entry, Record, Run};

/// The images of both pages behind the Split, if a backup has them, and the log's records, if runs have them.
#[derive(Drop)]
pub(crate) struct BehindSplit {
    pub(crate) has_both: bool,
    pub(crate) has_runs: bool,
}

/// The page behind the Split.
fn split_image(alloc: Global, page: PageNo) -> Option<Sealed>
    ensures keeps { IfSome result (λ image. KeepsState image.state) }
    ensures place { IfSome result (λ image. image.lsn ≡ 4) }
{
    let state = state_of(alloc, if page == 1 { FIRST } else { MADE })?;
    Some(Sealed { state, lsn: 4 })
}

impl<'a, N: Life> Bases<N, Telling<'a, N>> for BehindSplit {
    ghost vault_faults = { λ b. 0 };

    fn vault_faults(&self) -> u64 {
        0
    }

    #[tactic(auto, using(page_ops::proofs::Gaining::upheld))]
    fn base<R: Wait>(
        &mut self,
        _rt: &R,
        alloc: Global,
        journal: &mut Telling<'a, N>,
        page: PageNo,
        head: Lsn,
        pass: &mut Pass<Entry, N>,
    ) -> Result<Option<Base>, Fault> {
        journal.history.watch(pass, &mut journal.counts);
        if !self.has_both || head < 4 {
            return Ok(None);
        }
        match split_image(alloc, page) {
            Some(sealed) => Ok(Some(Base {
                sealed,
                bytes: None,
            })),
            None => Err(Fault::Memory),
        }
    }

    #[tactic(auto, using(page_ops::proofs::Gaining::upheld))]
    fn archived<R: Wait>(
        &mut self,
        _rt: &R,
        alloc: Global,
        journal: &mut Telling<'a, N>,
        _run: Run,
        _page: PageNo,
        lsn: Lsn,
        pass: &mut Pass<Entry, N>,
    ) -> Result<Record, Fault> {
        journal.history.watch(pass, &mut journal.counts);
        if !self.has_runs {
            return Err(Fault::Memory);
        }
        match record_of(alloc, lsn) {
            Some(record) => Ok(record),
            None => Err(Fault::Memory),
        }
    }
}
