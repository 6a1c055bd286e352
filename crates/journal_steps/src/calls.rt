//! The calls of a journal by one session of several.
use crate::answers::{begun_text, committed_text, grant_text};
use books::{PageRight, SessionRight};
use front::Pass;
use page_ops::{Committed, Grant, Journaling, Life, Rights};
use std::alloc::Global;
use std::sync::Wait;
use store_model::{Fault, KeyRange, Memory, Mode, TxId};
use wal_record::Entry;

/// The rights to page 1 and to the sessions of a life.
#[derive(Drop)]
pub struct Hands<N: Life> {
    pub page: Option<PageRight<N>>,
    pub sessions: Vec<SessionRight<N>>,
}

/// Where the session of a transaction is.
fn place_of<N: Life>(sessions: &[SessionRight<N>], tx: TxId) -> Option<usize> {
    let mut place = 0usize;
    for s in sessions {
        if s.tx() == tx {
            return Some(place);
        }
        place = place.saturating_add(1);
    }
    None
}

impl<N: Life> Hands<N> {
    /// Those of a life without sessions.
    pub fn new(alloc: Global, page: Option<PageRight<N>>) -> Hands<N> {
        Hands {
            page,
            sessions: Vec::new(alloc),
        }
    }

    /// The right to the session of a transaction.
    pub fn take(&mut self, tx: TxId) -> Option<SessionRight<N>> {
        let place = place_of(&self.sessions, tx)?;
        if place < self.sessions.len() {
            Some(self.sessions.swap_remove(place))
        } else {
            None
        }
    }

    /// Takes the rights back that were handed in.
    pub(crate) fn take_back(&mut self, rights: Rights<N>) -> Result<(), Memory> {
        let Rights {
            a,
            b: _,
            c: _,
            s,
            m: _,
        } = rights;
        if a.is_some() {
            self.page = a;
        }
        match s {
            Some(s) => Ok(self.sessions.push(s)?),
            None => Ok(()),
        }
    }
}

/// A new session begins a transaction. It is kept, also where it has none.
pub(crate) fn begin_one<N: Life, J: Journaling<N>, R: Wait>(
    rt: &R,
    alloc: Global,
    journal: &mut J,
    hands: &mut Hands<N>,
    pass: &mut Pass<Entry, N>,
) -> Result<TxId, Fault> {
    hands.sessions.reserve(1)?;
    let mut s = journal.session(rt, alloc, pass)?;
    let begun = journal.begin(rt, alloc, &mut s, pass);
    hands.sessions.push(s)?;
    begun
}

/// A new session begins a transaction.
pub(crate) fn begin<N: Life, J: Journaling<N>, R: Wait>(
    rt: &R,
    alloc: Global,
    journal: &mut J,
    hands: &mut Hands<N>,
    pass: &mut Pass<Entry, N>,
) -> Result<String, Fault> {
    let begun = begin_one(rt, alloc, journal, hands, pass);
    begun_text(alloc, begun)
}

/// As many begin as may, up to 100. What the next one is told.
pub(crate) fn begin_all<N: Life, J: Journaling<N>, R: Wait>(
    rt: &R,
    alloc: Global,
    journal: &mut J,
    hands: &mut Hands<N>,
    pass: &mut Pass<Entry, N>,
) -> Result<String, Fault> {
    for _ in 0..100 {
        let told = begin(rt, alloc, journal, hands, pass)?;
        if told.as_str() == "too many" {
            return Ok(told);
        }
    }
    Ok(format!(in alloc; "all begin")?)
}

/// Locks a range for the session's transaction.
pub fn lock_by<N: Life, J: Journaling<N>, R: Wait>(
    rt: &R,
    alloc: Global,
    journal: &mut J,
    s: &mut SessionRight<N>,
    range: &KeyRange,
    mode: Mode,
    pass: &mut Pass<Entry, N>,
) -> Result<Grant, Fault> {
    if s.tx() == 0 {
        return Err(Fault::NotActive);
    }
    journal.lock(rt, alloc, s, range, mode, pass)
}

/// Locks a range for a transaction.
pub fn lock_one<N: Life, J: Journaling<N>, R: Wait>(
    rt: &R,
    alloc: Global,
    journal: &mut J,
    hands: &mut Hands<N>,
    tx: TxId,
    range: &KeyRange,
    mode: Mode,
    pass: &mut Pass<Entry, N>,
) -> Result<Grant, Fault> {
    let Some(mut s) = hands.take(tx) else {
        return Err(Fault::NotActive);
    };
    let granted = lock_by(rt, alloc, journal, &mut s, range, mode, pass);
    hands.sessions.push(s)?;
    granted
}

/// Locks a range for a transaction. The answer as text.
pub(crate) fn lock<N: Life, J: Journaling<N>, R: Wait>(
    rt: &R,
    alloc: Global,
    journal: &mut J,
    hands: &mut Hands<N>,
    tx: TxId,
    range: &KeyRange,
    mode: Mode,
    pass: &mut Pass<Entry, N>,
) -> Result<String, Fault> {
    let granted = lock_one(rt, alloc, journal, hands, tx, range, mode, pass);
    grant_text(alloc, granted)
}

/// Commits a transaction.
pub fn commit_one<N: Life, J: Journaling<N>, R: Wait>(
    rt: &R,
    journal: &mut J,
    hands: &mut Hands<N>,
    tx: TxId,
    pass: &mut Pass<Entry, N>,
) -> Result<Committed, Fault> {
    let Some(mut s) = hands.take(tx) else {
        return Err(Fault::NotActive);
    };
    if s.tx() == 0 {
        return Err(Fault::NotActive);
    }
    let committed = journal.commit(rt, &mut s, pass);
    hands.sessions.push(s)?;
    committed
}

/// Commits a transaction. The answer as text.
pub(crate) fn commit<N: Life, J: Journaling<N>, R: Wait>(
    rt: &R,
    alloc: Global,
    journal: &mut J,
    hands: &mut Hands<N>,
    tx: TxId,
    pass: &mut Pass<Entry, N>,
) -> Result<String, Fault> {
    let committed = commit_one(rt, journal, hands, tx, pass);
    committed_text(alloc, committed)
}
