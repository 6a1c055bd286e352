//! A journal that tells the ends of one page's traces, and enters what a pool does with the page.
ghost use Rattle.std.specs.Prelude.{◌≡◌};
ghost use Rattle.wal_record.specs.declared.entry.Entry.TheVariants.{Repaired};

use books::PageRight;
use front::Pass;
use page_ops::{Entered, Entering, Found, Ground, Group, Life, Listed, Rights};
use std::alloc::Global;
use std::marker::Model;
use std::sync::Wait;
use store_model::{Fault, Lsn, PageNo, Pos};
use untold_journal::{Counts, Untold, alone_in};
use wal_record::{Entry, PageHead, Record};

/// A journal of a life of which no opening log is known. It enters that a page was written or repaired, and tells these ends
/// of each page's traces; of every other group it says that it wants memory.
#[derive(Drop)]
pub(crate) struct Telling<'a, N: Life> {
    pub(crate) history: Untold<'a, N>,
    pub(crate) counts: Counts<N>,
    pub(crate) head: Lsn,
    pub(crate) written: Lsn,
    /// The last LSN up to which it was flushed.
    pub(crate) flushed: Lsn,
    /// How many calls were made that may want memory, and which of them does; none at 0.
    pub(crate) calls: u32,
    pub(crate) refuse_at: u32,
    /// How often it entered that the page was repaired.
    pub(crate) repairs: u32,
    /// How often it entered that the page was written.
    pub(crate) writes: u32,
}

impl<'a, N: Life> Model for Telling<'a, N> {
    ghost use Rattle.page_ops.specs.Causes.{IsUntold};
    ghost use Rattle.page_ops.specs.Seeing.{Account};

    ghost Value = { Account };

    ghost view = { λ j. j.counts };

    ghost invariant = { λ j. IsUntold N.opens };
}

impl<'a, N: Life> Telling<'a, N> {
    /// Counts a call that may want memory. Whether it does.
    pub(crate) fn wants_memory(&mut self) -> bool
        ensures { self.new ≡ self.old }
    {
        self.calls = self.calls.saturating_add(1);
        self.calls == self.refuse_at
    }
}

/// The entry that a page was repaired.
fn repaired_entry(page: PageNo) -> Entry
    ensures { result ≡ Repaired page }
{
    Entry::Repaired { page }
}

impl<'a, N: Life> Entering<N> for Telling<'a, N> {
    ghost account = { λ j. j };

    fn ground(&self) -> &Ground<N> {
        self.history.ground()
    }

    fn log_faults(&self) -> u64 {
        let _ = &self.counts.made;
        0
    }

    fn vault_faults(&self) -> u64 {
        let _ = &self.counts.made;
        0
    }

    #[tactic(auto, using(untold_journal::proofs::Upkeep::filled_in))]
    fn enter<R: Wait>(
        &mut self,
        _rt: &R,
        _alloc: Global,
        group: &mut Group,
        rights: &mut Rights<N>,
        pass: &mut Pass<Entry, N>,
    ) -> Result<Entered, Fault> {
        let lsn = self.history.count().saturating_add(self.head);
        let Some(entry) = alone_in(group, lsn) else {
            self.history.see(rights, pass, &mut self.counts);
            return Err(Fault::Memory);
        };
        if self.wants_memory() {
            self.history.see(rights, pass, &mut self.counts);
            return Err(Fault::Memory);
        }
        let Some(pos) = self.history.enter(&entry, rights, pass, &mut self.counts) else {
            return Err(Fault::Memory);
        };
        group.lsn = lsn;
        if let Entry::Rec {
            rec: Record::Written(written),
            ..
        } = &entry
        {
            self.writes = self.writes.saturating_add(1);
            self.written = written.lsn;
        }
        Ok(Entered::At(pos))
    }

    fn repaired<R: Wait>(
        &mut self,
        _rt: &R,
        _alloc: Global,
        right: &PageRight<N>,
        pass: &mut Pass<Entry, N>,
    ) -> Result<Option<Pos>, Fault> {
        let refused = self.wants_memory();
        if refused || self.written == 0 {
            self.history.watch(pass, &mut self.counts);
            return if refused {
                Err(Fault::Memory)
            } else {
                Ok(None)
            };
        }
        let entry = repaired_entry(right.page());
        let Some(pos) = self
            .history
            .enter(&entry, &mut Rights::none(), pass, &mut self.counts)
        else {
            return Err(Fault::Memory);
        };
        self.repairs = self.repairs.saturating_add(1);
        Ok(Some(pos))
    }

    fn see<R: Wait>(&mut self, _rt: &R, rights: &mut Rights<N>, pass: &mut Pass<Entry, N>) {
        self.history.see(rights, pass, &mut self.counts);
    }

    fn flush<R: Wait>(
        &mut self,
        _rt: &R,
        lsn: Lsn,
        pass: &mut Pass<Entry, N>,
    ) -> Result<(), Fault> {
        self.history.watch(pass, &mut self.counts);
        self.flushed = lsn;
        Ok(())
    }

    fn read<R: Wait>(
        &mut self,
        _rt: &R,
        _alloc: Global,
        _lsn: Lsn,
        pass: &mut Pass<Entry, N>,
    ) -> Result<Found, Fault> {
        self.history.watch(pass, &mut self.counts);
        Err(Fault::Memory)
    }

    fn listed<R: Wait>(
        &mut self,
        _rt: &R,
        _page: PageNo,
        pass: &mut Pass<Entry, N>,
    ) -> Result<Listed, Fault> {
        self.history.watch(pass, &mut self.counts);
        if self.wants_memory() {
            return Err(Fault::Memory);
        }
        Ok(Listed {
            ends: PageHead {
                head: self.head,
                written: self.written,
                backup: 0,
                backup_lsn: 0,
            },
            unrestored: false,
            lost: 0,
        })
    }

    fn pages<R: Wait>(&mut self, _rt: &R, pass: &mut Pass<Entry, N>) -> u32 {
        self.history.watch(pass, &mut self.counts);
        1
    }

    fn pending<R: Wait>(&mut self, _rt: &R, pass: &mut Pass<Entry, N>) -> u32 {
        self.history.watch(pass, &mut self.counts);
        0
    }
}
