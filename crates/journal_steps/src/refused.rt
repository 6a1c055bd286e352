//! A put and its commit whose calls may lack memory. Nothing is told as text, which takes some.
ghost use Rattle.std.specs.Prelude.{List};
ghost use Rattle.wal_record.specs.declared.record.Record.{Record};

use crate::calls::{Hands, begin_one, commit_one, lock_one};
use crate::entering::{Change, put_lsn};
use books::PageRight;
use front::Pass;
use page_ops::{Committed, Grant, Journaling, Life};
use std::alloc::Global;
use std::sync::Wait;
use store_model::{Fault, Key, KeyRange, Mode, Pos, Value};
use wal_record::Entry;

/// What became of the calls.
#[derive(Clone, Copy, Debug, PartialEq, Eq)]
pub enum Made {
    /// Each answered and entered what it should.
    Once,
    /// So did each, but that one lacked memory, had entered nothing then, and was made once more.
    Again,
    /// One lacked memory twice, and had entered nothing.
    Lacked,
    /// The commit was refused.
    Uncommitted,
    /// One answered or entered something else.
    Other,
}

/// A call before the commit.
#[derive(Clone, Copy)]
enum Call {
    Begin,
    Lock,
    Put,
}

/// Transaction 1 locks the key.
fn lock_key<N: Life, J: Journaling<N>, R: Wait>(
    rt: &R,
    alloc: Global,
    journal: &mut J,
    hands: &mut Hands<N>,
    key: &Key,
    pass: &mut Pass<Entry, N>,
) -> Result<bool, Fault> {
    let range = KeyRange::point(key);
    match lock_one(rt, alloc, journal, hands, 1, &range, Mode::Exclusive, pass)? {
        Grant::Held(_) => Ok(true),
        Grant::Loser(_) => Ok(false),
    }
}

/// Transaction 1 gives the key, which has none, a value.
fn put_value<N: Life, J: Journaling<N>, R: Wait>(
    rt: &R,
    alloc: Global,
    journal: &mut J,
    hands: &mut Hands<N>,
    key: &Key,
    pass: &mut Pass<Entry, N>,
) -> Result<bool, Fault>
    requires untold { (opening : List Record) → N.opens opening → ⊥ }
{
    let write = Change {
        key,
        old: &None,
        new: &Some(Value::empty()),
    };
    let lsn = put_lsn(rt, alloc, journal, hands, 1, write, pass)?;
    Ok(lsn == Some(2))
}

/// Whether the call answers what it should: with transaction 1, with the lock, and with record 2.
fn make<N: Life, J: Journaling<N>, R: Wait>(
    rt: &R,
    alloc: Global,
    journal: &mut J,
    hands: &mut Hands<N>,
    call: Call,
    key: &Key,
    pass: &mut Pass<Entry, N>,
) -> Result<bool, Fault>
    requires untold { (opening : List Record) → N.opens opening → ⊥ }
{
    match call {
        Call::Begin => Ok(begin_one(rt, alloc, journal, hands, pass)? == 1),
        Call::Lock => lock_key(rt, alloc, journal, hands, key, pass),
        Call::Put => put_value(rt, alloc, journal, hands, key, pass),
    }
}

/// What becomes of a call that is made once, behind which there are so many entries.
fn make_once<N: Life, J: Journaling<N>, R: Wait>(
    rt: &R,
    alloc: Global,
    journal: &mut J,
    hands: &mut Hands<N>,
    call: Call,
    behind: Pos,
    key: &Key,
    pass: &mut Pass<Entry, N>,
) -> Made
    requires untold { (opening : List Record) → N.opens opening → ⊥ }
{
    let before = journal.length(rt, pass);
    match make(rt, alloc, journal, hands, call, key, pass) {
        Ok(true) if journal.length(rt, pass) == behind => Made::Once,
        Err(Fault::Memory) if journal.length(rt, pass) == before => Made::Lacked,
        _ => Made::Other,
    }
}

/// The same where it is made once more if it lacks memory.
fn make_again<N: Life, J: Journaling<N>, R: Wait>(
    rt: &R,
    alloc: Global,
    journal: &mut J,
    hands: &mut Hands<N>,
    call: Call,
    behind: Pos,
    key: &Key,
    pass: &mut Pass<Entry, N>,
) -> Made
    requires untold { (opening : List Record) → N.opens opening → ⊥ }
{
    match make_once(rt, alloc, journal, hands, call, behind, key, pass) {
        Made::Lacked => match make_once(rt, alloc, journal, hands, call, behind, key, pass) {
            Made::Once => Made::Again,
            made => made,
        },
        made => made,
    }
}

/// Each call before the commit.
fn make_calls<N: Life, J: Journaling<N>, R: Wait>(
    rt: &R,
    alloc: Global,
    journal: &mut J,
    hands: &mut Hands<N>,
    key: &Key,
    pass: &mut Pass<Entry, N>,
) -> Made
    requires untold { (opening : List Record) → N.opens opening → ⊥ }
{
    let mut all = Made::Once;
    for (call, behind) in [(Call::Begin, 1), (Call::Lock, 2), (Call::Put, 4)] {
        match make_again(rt, alloc, journal, hands, call, behind, key, pass) {
            Made::Once => {}
            Made::Again => all = Made::Again,
            made => return made,
        }
    }
    all
}

/// Whether transaction 1 commits, as the first one.
fn commit_first<N: Life, J: Journaling<N>, R: Wait>(
    rt: &R,
    journal: &mut J,
    hands: &mut Hands<N>,
    pass: &mut Pass<Entry, N>,
) -> bool {
    match commit_one(rt, journal, hands, 1, pass) {
        Ok(Committed { pos: _, number }) => number == 1 && journal.length(rt, pass) == 6,
        Err(_) => false,
    }
}

/// A session begins transaction 1, locks a key, puts it on page 1 and commits, in a life that has just begun on a log of one
/// record, with the right to page 1. A call that lacks memory is made once more.
pub fn put_and_commit<N: Life, J: Journaling<N>, R: Wait>(
    rt: &R,
    alloc: Global,
    journal: &mut J,
    page: Option<PageRight<N>>,
    pass: &mut Pass<Entry, N>,
) -> Made
    requires untold { (opening : List Record) → N.opens opening → ⊥ }
{
    let Some(key) = Key::new(b"x") else {
        return Made::Other;
    };
    let mut hands = Hands::new(alloc, page);
    let made = make_calls(rt, alloc, journal, &mut hands, &key, pass);
    let calls_made = made == Made::Once || made == Made::Again;
    if calls_made && !commit_first(rt, journal, &mut hands, pass) {
        return Made::Uncommitted;
    }
    made
}
