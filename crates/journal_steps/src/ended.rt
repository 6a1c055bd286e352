//! Each call of a journal that may be refused, in a life that has ended.
ghost use Rattle.std.specs.Prelude.{List};
ghost use Rattle.wal_record.specs.declared.record.Record.{Record};

use crate::answers::ends_text;
use crate::calls::Hands;
use crate::groups::alone;
use books::{PageRight, SessionRight};
use front::Pass;
use page_ops::{Journaling, Life, Rights};
use std::alloc::Global;
use std::sync::Wait;
use store_model::{Fault, Key, KeyRange, Lsn, Mode, Request, TxId};
use wal_record::{Entry, Lost, Record};

/// Counts the answers that are an end, and keeps the LSN of the first.
#[derive(Clone, Copy)]
struct Ends {
    count: u64,
    at: Option<Lsn>,
}

impl Ends {
    /// Counts an answer, if it is an end with the LSN of those before it.
    fn note<T: Drop>(self, answer: Result<T, Fault>) -> Ends {
        match (answer, self.at) {
            (Err(Fault::Ended { at }), None) => Ends {
                count: 1,
                at: Some(at),
            },
            (Err(Fault::Ended { at }), Some(first)) if at == first => Ends {
                count: self.count.saturating_add(1),
                at: self.at,
            },
            _ => self,
        }
    }
}

/// Those of sessions, and of a session's transaction or, where it has none, its beginning.
fn of_session<N: Life, J: Journaling<N>, R: Wait>(
    rt: &R,
    alloc: Global,
    journal: &mut J,
    s: &mut SessionRight<N>,
    pass: &mut Pass<Entry, N>,
    ends: Ends,
) -> Ends
    requires untold { (opening : List Record) → N.opens opening → ⊥ }
{
    let Some(key) = Key::new(b"a") else {
        return ends;
    };
    let ends = ends.note(journal.session(rt, alloc, pass));
    let ends = ends.note(journal.last_open(rt, alloc, s.tx(), pass));
    if s.tx() == 0 {
        return ends.note(journal.begin(rt, alloc, s, pass));
    }
    let range = KeyRange::point(&key);
    let ends = ends.note(journal.lock(rt, alloc, s, &range, Mode::Shared, pass));
    let ends = ends.note(journal.refuse(rt, alloc, s, Request::Get(key), pass));
    ends.note(journal.commit(rt, s, pass))
}

/// The entering of a group without a session.
fn of_group<N: Life, J: Journaling<N>, R: Wait>(
    rt: &R,
    alloc: Global,
    journal: &mut J,
    pass: &mut Pass<Entry, N>,
    ends: Ends,
) -> Ends
    requires untold { (opening : List Record) → N.opens opening → ⊥ }
{
    let Ok(mut group) = alone(alloc, Record::Lost(Lost { pages: 0 })) else {
        return ends;
    };
    let mut rights = Rights::none();
    ends.note(journal.enter(rt, alloc, &mut group, &mut rights, pass))
}

/// Those that write or read the log.
fn of_log<N: Life, J: Journaling<N>, R: Wait>(
    rt: &R,
    alloc: Global,
    journal: &mut J,
    page: &Option<PageRight<N>>,
    pass: &mut Pass<Entry, N>,
    ends: Ends,
) -> Ends
    requires untold { (opening : List Record) → N.opens opening → ⊥ }
{
    let ends = match page {
        Some(page) => ends.note(journal.repaired(rt, alloc, page, pass)),
        None => ends,
    };
    let ends = ends.note(journal.flush(rt, 2, pass));
    let ends = ends.note(journal.read(rt, alloc, 1, pass));
    ends.note(journal.recycle(rt, pass))
}

/// Those that ask what is known.
fn of_listing<N: Life, J: Journaling<N>, R: Wait>(
    rt: &R,
    alloc: Global,
    journal: &mut J,
    pass: &mut Pass<Entry, N>,
    ends: Ends,
) -> Ends {
    let ends = ends.note(journal.listed(rt, 1, pass));
    let ends = ends.note(journal.survey(rt, alloc, pass));
    let ends = ends.note(journal.work(rt, pass));
    ends.note(journal.desk(rt, pass))
}

/// Whether each call of a journal that may be refused is answered as ended, and with the same LSN: how many of them are.
pub(crate) fn calls_ended<N: Life, J: Journaling<N>, R: Wait>(
    rt: &R,
    alloc: Global,
    journal: &mut J,
    hands: &mut Hands<N>,
    tx: TxId,
    pass: &mut Pass<Entry, N>,
) -> Result<String, Fault>
    requires untold { (opening : List Record) → N.opens opening → ⊥ }
{
    let Some(mut s) = hands.take(tx) else {
        return Err(Fault::NotActive);
    };
    let ends = Ends { count: 0, at: None };
    let ends = of_session(rt, alloc, journal, &mut s, pass, ends);
    let ends = of_group(rt, alloc, journal, pass, ends);
    let ends = of_log(rt, alloc, journal, &hands.page, pass, ends);
    let ends = of_listing(rt, alloc, journal, pass, ends);
    hands.sessions.push(s)?;
    ends_text(alloc, ends.count, ends.at.unwrap_or(0))
}
