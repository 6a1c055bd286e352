//! The rest of the journal's calls, for one thread.
use crate::asking;
use crate::own::OwnJournal;
use books::SessionRight;
use front::Pass;
use media::Disk;
use page_ops::{Committed, Grant, Journaling, Life, Survey, Work};
use std::alloc::Global;
use std::sync::Wait;
use store_model::{Fault, KeyRange, Lsn, Mode, Pos, Request, TxId};
use wal_record::{Entry, Record};

impl<'a, L: Disk, N: Life> Journaling<N> for OwnJournal<'a, L, N> {
    fn session<R: Wait>(
        &mut self,
        _rt: &R,
        _alloc: Global,
        pass: &mut Pass<Entry, N>,
    ) -> Result<SessionRight<N>, Fault> {
        let OwnJournal { journal, counts } = self;
        journal.session(pass, counts)
    }

    fn begin<R: Wait>(
        &mut self,
        _rt: &R,
        _alloc: Global,
        s: &mut SessionRight<N>,
        pass: &mut Pass<Entry, N>,
    ) -> Result<TxId, Fault> {
        let OwnJournal { journal, counts } = self;
        journal.begin(s, pass, counts)
    }

    fn lock<R: Wait>(
        &mut self,
        _rt: &R,
        alloc: Global,
        s: &mut SessionRight<N>,
        range: &KeyRange,
        mode: Mode,
        pass: &mut Pass<Entry, N>,
    ) -> Result<Grant, Fault> {
        let OwnJournal { journal, counts } = self;
        journal.lock(alloc, s, range, mode, pass, counts)
    }

    fn last_open<R: Wait>(
        &mut self,
        _rt: &R,
        alloc: Global,
        tx: TxId,
        pass: &mut Pass<Entry, N>,
    ) -> Result<Option<Record>, Fault> {
        let OwnJournal { journal, counts } = self;
        asking::last_open(journal, alloc, tx, pass, counts)
    }

    fn refuse<R: Wait>(
        &mut self,
        _rt: &R,
        _alloc: Global,
        s: &mut SessionRight<N>,
        request: Request,
        pass: &mut Pass<Entry, N>,
    ) -> Result<Pos, Fault> {
        let OwnJournal { journal, counts } = self;
        journal.refuse(s, request, pass, counts)
    }

    fn commit<R: Wait>(
        &mut self,
        _rt: &R,
        s: &mut SessionRight<N>,
        pass: &mut Pass<Entry, N>,
    ) -> Result<Committed, Fault> {
        let OwnJournal { journal, counts } = self;
        journal.commit(s, pass, counts)
    }

    fn survey<R: Wait>(
        &mut self,
        _rt: &R,
        alloc: Global,
        pass: &mut Pass<Entry, N>,
    ) -> Result<Survey, Fault> {
        let OwnJournal { journal, counts } = self;
        asking::survey(journal, alloc, pass, counts)
    }

    fn work<R: Wait>(&mut self, _rt: &R, pass: &mut Pass<Entry, N>) -> Result<Work, Fault> {
        let OwnJournal { journal, counts } = self;
        asking::work(journal, pass, counts)
    }

    fn recycle<R: Wait>(&mut self, _rt: &R, pass: &mut Pass<Entry, N>) -> Result<Lsn, Fault> {
        let OwnJournal { journal, counts } = self;
        journal.recycle(pass, counts)
    }

    fn length<R: Wait>(&mut self, _rt: &R, pass: &mut Pass<Entry, N>) -> Pos {
        let OwnJournal { journal, counts } = self;
        journal.length(pass, counts)
    }

    fn ended<R: Wait>(&mut self, _rt: &R) -> Option<Lsn> {
        let OwnJournal { journal, counts } = self;
        journal.ended(counts)
    }

    fn desk<R: Wait>(&mut self, _rt: &R, pass: &mut Pass<Entry, N>) -> Result<(), Fault> {
        let OwnJournal { journal, counts } = self;
        journal.desk(pass, counts)
    }
}
