//! A journal that tells what last backup each page has, and which records a run has.

use crate::objects::RUN;
use books::PageRight;
use front::Pass;
use life_history::{Counts, History};
use page_ops::{Entered, Entering, Found, Ground, Group, Life, Listed, Rights};
use std::alloc::Global;
use std::marker::Model;
use std::sync::Wait;
use store_model::{Fault, Lsn, PageNo, Pos};
use wal_record::{Entry, PageHead, Run};

/// A journal without records, of a life of which no opening log is known. It tells of each page that this backup has it, at this
/// LSN, and of each record up to an LSN that a run has it. For all that it would have to enter it says that it wants memory.
#[derive(Drop)]
pub(crate) struct Telling<'a, N: Life> {
    pub(crate) history: History<'a, N>,
    pub(crate) counts: Counts<N>,
    pub(crate) backup: u64,
    pub(crate) lsn: Lsn,
    /// The last LSN that the run has, 0 for none.
    pub(crate) archived: Lsn,
}

impl<'a, N: Life> Model for Telling<'a, N> {
    ghost use Rattle.page_ops.specs.Causes.{IsOpen, IsUntold};
    ghost use Rattle.page_ops.specs.Seeing.{Account};

    ghost Value = { Account };

    ghost view = { λ j. j.counts };

    ghost invariant = { λ j. IsUntold N.opens × IsOpen j.counts };
}

impl<'a, N: Life> Entering<N> for Telling<'a, N> {
    ghost account = { λ j. j };

    fn ground(&self) -> &Ground<N> {
        self.history.ground()
    }

    fn log_faults(&self) -> u64 {
        self.counts.log_faults()
    }

    fn vault_faults(&self) -> u64 {
        self.counts.vault_faults()
    }

    fn enter<R: Wait>(
        &mut self,
        _rt: &R,
        _alloc: Global,
        _group: &mut Group,
        rights: &mut Rights<N>,
        pass: &mut Pass<Entry, N>,
    ) -> Result<Entered, Fault> {
        self.history.see(rights, pass, &mut self.counts);
        Err(Fault::Memory)
    }

    fn repaired<R: Wait>(
        &mut self,
        _rt: &R,
        _alloc: Global,
        _right: &PageRight<N>,
        pass: &mut Pass<Entry, N>,
    ) -> Result<Option<Pos>, Fault> {
        self.history.look(pass, &mut self.counts);
        Err(Fault::Memory)
    }

    fn see<R: Wait>(&mut self, _rt: &R, rights: &mut Rights<N>, pass: &mut Pass<Entry, N>) {
        self.history.see(rights, pass, &mut self.counts);
    }

    fn flush<R: Wait>(
        &mut self,
        _rt: &R,
        _lsn: Lsn,
        pass: &mut Pass<Entry, N>,
    ) -> Result<(), Fault> {
        self.history.look(pass, &mut self.counts);
        Ok(())
    }

    fn read<R: Wait>(
        &mut self,
        _rt: &R,
        _alloc: Global,
        lsn: Lsn,
        pass: &mut Pass<Entry, N>,
    ) -> Result<Found, Fault> {
        self.history.look(pass, &mut self.counts);
        if lsn > self.archived {
            return Err(Fault::Memory);
        }
        Ok(Found::Run(Run {
            run: RUN,
            first: 1,
            last: self.archived,
        }))
    }

    fn listed<R: Wait>(
        &mut self,
        _rt: &R,
        _page: PageNo,
        pass: &mut Pass<Entry, N>,
    ) -> Result<Listed, Fault> {
        self.history.look(pass, &mut self.counts);
        Ok(Listed {
            ends: PageHead {
                head: 0,
                written: 0,
                backup: self.backup,
                backup_lsn: self.lsn,
            },
            unrestored: false,
            lost: 0,
        })
    }

    fn pages<R: Wait>(&mut self, _rt: &R, pass: &mut Pass<Entry, N>) -> u32 {
        self.history.look(pass, &mut self.counts);
        0
    }

    fn pending<R: Wait>(&mut self, _rt: &R, pass: &mut Pass<Entry, N>) -> u32 {
        self.history.look(pass, &mut self.counts);
        0
    }
}
