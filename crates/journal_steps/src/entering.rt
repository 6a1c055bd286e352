//! Groups that are entered.
ghost use Rattle.std.specs.Prelude.{◌≡◌, List, Some, None, IfOk, IfSome, IsTrue};
ghost use Rattle.page_ops.specs.Claims.{IsInRange};
ghost use Rattle.page_ops.specs.Groups.{HasRights, IsGroup};
ghost use Rattle.wal_record.specs.Rules.{HasSpelling, is_change, is_number};
ghost use Rattle.wal_record.specs.declared.record.Record.{Record};

use crate::answers::entered_text;
use crate::calls::Hands;
use crate::groups::{absent, alone, applied, taken_back, written};
use books::{PageRight, SessionRight};
use front::Pass;
use page_ops::{Entered, Group, Journaling, Life, Rights};
use std::alloc::Global;
use std::sync::Wait;
use store_model::{Fault, HIGHEST, Key, Lsn, MOST_PAGES, Memory, OpValue, TxId, Value};
use wal_record::{End, Entry, Lost, Record, Restored, Undo};

/// What became of a group, the LSN of its first record, and the rights.
#[derive(Drop)]
struct Came<N: Life> {
    entered: Result<Entered, Fault>,
    lsn: Lsn,
    rights: Rights<N>,
}

/// Whether the number of a page and its LSN are in their ranges.
fn is_in_range<N: Life>(page: &PageRight<N>) -> bool
    ensures { IsTrue result → IsInRange page.now }
{
    let (number, lsn) = (page.page(), page.lsn());
    0 < number && number <= MOST_PAGES && 0 < lsn && lsn <= HIGHEST
}

/// Enters a group, if it could be made.
fn enter_made<N: Life, J: Journaling<N>, R: Wait>(
    rt: &R,
    alloc: Global,
    journal: &mut J,
    made: Result<Group, Memory>,
    mut rights: Rights<N>,
    pass: &mut Pass<Entry, N>,
) -> Came<N>
    requires untold { (opening : List Record) → N.opens opening → ⊥ }
    requires group { IfOk made IsGroup }
    requires rights { IfOk made (HasRights N.opens pass.old.log rights) }
{
    let Ok(mut group) = made else {
        return Came {
            entered: Err(Fault::Memory),
            lsn: 0,
            rights,
        };
    };
    let entered = journal.enter(rt, alloc, &mut group, &mut rights, pass);
    Came {
        entered,
        lsn: group.lsn,
        rights,
    }
}

/// The rights come back, and the text says what became of the group.
fn come_back<N: Life>(alloc: Global, hands: &mut Hands<N>, came: Came<N>) -> Result<String, Fault> {
    let Came {
        entered,
        lsn,
        rights,
    } = came;
    hands.take_back(rights)?;
    entered_text(alloc, entered, lsn)
}

/// What a put writes: a key that has a value, or none, and has another one then, or none.
#[derive(Clone, Copy)]
pub struct Change<'a> {
    pub key: &'a Key,
    pub old: &'a Option<Value>,
    pub new: &'a Option<Value>,
}

/// What an operator is applied to, a key that has a value, or none, and its argument.
#[derive(Clone, Copy)]
pub(crate) struct Operation<'a> {
    pub(crate) key: &'a Key,
    pub(crate) old: &'a Option<Value>,
    pub(crate) operator: u8,
    pub(crate) argument: &'a OpValue,
}

/// The rights to the page and to the session of a transaction.
fn writer<N: Life>(hands: &mut Hands<N>, tx: TxId) -> Result<(PageRight<N>, SessionRight<N>), Fault>
    ensures page { IfOk result (λ (page, s). IsInRange page) }
    ensures number { IfOk result (λ (page, s). IsTrue (is_number s.tx)) }
{
    let (Some(page), Some(s)) = (hands.page.take(), hands.take(tx)) else {
        return Err(Fault::NotActive);
    };
    if !is_in_range(&page) || s.tx() == 0 || HIGHEST < s.tx() {
        return Err(Fault::NotActive);
    }
    Ok((page, s))
}

/// The rights to the page and to the session.
fn rights_of<N: Life>(page: PageRight<N>, s: SessionRight<N>) -> Rights<N>
    requires page { IsInRange page }
    ensures { result ≡ record { a = Some page; b = None; c = None; s = Some s; m = None } }
{
    let mut rights = Rights::none();
    rights.a = Some(page);
    rights.s = Some(s);
    rights
}

/// Writes a key for a transaction.
fn put_one<N: Life, J: Journaling<N>, R: Wait>(
    rt: &R,
    alloc: Global,
    journal: &mut J,
    hands: &mut Hands<N>,
    tx: TxId,
    write: Change<'_>,
    pass: &mut Pass<Entry, N>,
) -> Result<Came<N>, Fault>
    requires untold { (opening : List Record) → N.opens opening → ⊥ }
    requires change { IsTrue (is_change write.old.now write.new.now) }
{
    let (page, s) = writer(hands, tx)?;
    let (session, tx, number) = (s.session(), s.tx(), page.page());
    let made = written(alloc, session, tx, number, write.key, write.old, write.new);
    Ok(enter_made(rt, alloc, journal, made, rights_of(page, s), pass))
}

/// Writes a key for a transaction. What became of it as text.
pub(crate) fn put<N: Life, J: Journaling<N>, R: Wait>(
    rt: &R,
    alloc: Global,
    journal: &mut J,
    hands: &mut Hands<N>,
    tx: TxId,
    write: Change<'_>,
    pass: &mut Pass<Entry, N>,
) -> Result<String, Fault>
    requires untold { (opening : List Record) → N.opens opening → ⊥ }
    requires change { IsTrue (is_change write.old.now write.new.now) }
{
    let came = put_one(rt, alloc, journal, hands, tx, write, pass)?;
    come_back(alloc, hands, came)
}

/// Applies an operator for a transaction.
pub(crate) fn apply<N: Life, J: Journaling<N>, R: Wait>(
    rt: &R,
    alloc: Global,
    journal: &mut J,
    hands: &mut Hands<N>,
    tx: TxId,
    asked: Operation<'_>,
    pass: &mut Pass<Entry, N>,
) -> Result<String, Fault>
    requires untold { (opening : List Record) → N.opens opening → ⊥ }
{
    let (page, s) = writer(hands, tx)?;
    let (session, tx, number) = (s.session(), s.tx(), page.page());
    let Operation {
        key,
        old,
        operator,
        argument,
    } = asked;
    let made = applied(alloc, session, tx, number, key, old, operator, argument);
    let came = enter_made(rt, alloc, journal, made, rights_of(page, s), pass);
    come_back(alloc, hands, came)
}

/// Writes a key for a transaction. The LSN of its record, where it was entered and no other one came first.
pub fn put_lsn<N: Life, J: Journaling<N>, R: Wait>(
    rt: &R,
    alloc: Global,
    journal: &mut J,
    hands: &mut Hands<N>,
    tx: TxId,
    write: Change<'_>,
    pass: &mut Pass<Entry, N>,
) -> Result<Option<Lsn>, Fault>
    requires untold { (opening : List Record) → N.opens opening → ⊥ }
    requires change { IsTrue (is_change write.old.now write.new.now) }
{
    let Came {
        entered,
        lsn,
        rights,
    } = put_one(rt, alloc, journal, hands, tx, write, pass)?;
    hands.take_back(rights)?;
    match entered? {
        Entered::At(_) => Ok(Some(lsn)),
        _ => Ok(None),
    }
}

/// Says that a key wasn't there, by the session's transaction.
fn miss_by<N: Life, J: Journaling<N>, R: Wait>(
    rt: &R,
    alloc: Global,
    journal: &mut J,
    s: SessionRight<N>,
    key: &Key,
    pass: &mut Pass<Entry, N>,
) -> Came<N>
    requires untold { (opening : List Record) → N.opens opening → ⊥ }
{
    let mut rights = Rights::none();
    let mut group = absent(alloc, s.session(), s.tx(), key);
    rights.s = Some(s);
    let entered = journal.enter(rt, alloc, &mut group, &mut rights, pass);
    Came {
        entered,
        lsn: 0,
        rights,
    }
}

/// Says for a transaction that a key wasn't there to delete. There is no record of that: its LSN is told as 0.
pub(crate) fn miss<N: Life, J: Journaling<N>, R: Wait>(
    rt: &R,
    alloc: Global,
    journal: &mut J,
    hands: &mut Hands<N>,
    tx: TxId,
    key: &Key,
    pass: &mut Pass<Entry, N>,
) -> Result<String, Fault>
    requires untold { (opening : List Record) → N.opens opening → ⊥ }
{
    let Some(s) = hands.take(tx) else {
        return Err(Fault::NotActive);
    };
    let came = miss_by(rt, alloc, journal, s, key, pass);
    come_back(alloc, hands, came)
}

/// Takes back this write.
fn undo_write<N: Life, J: Journaling<N>, R: Wait>(
    rt: &R,
    alloc: Global,
    journal: &mut J,
    hands: &mut Hands<N>,
    write: &Record,
    pass: &mut Pass<Entry, N>,
) -> Result<String, Fault>
    requires untold { (opening : List Record) → N.opens opening → ⊥ }
    requires spelled { HasSpelling write.now }
{
    let (Some(undo), Some(page)) = (taken_back(write), hands.page.take()) else {
        return Err(Fault::NotActive);
    };
    if !is_in_range(&page) || page.page() != undo.page {
        return Err(Fault::NotActive);
    }
    let mut rights = Rights::none();
    rights.a = Some(page);
    rights.s = hands.take(undo.tx);
    let made = alone(alloc, Record::Undo(undo));
    let came = enter_made(rt, alloc, journal, made, rights, pass);
    come_back(alloc, hands, came)
}

/// Takes back what was found as the last open write, as often as there are askers that have seen it. What each was told.
fn undo_found<N: Life, J: Journaling<N>, R: Wait>(
    rt: &R,
    alloc: Global,
    journal: &mut J,
    hands: &mut Hands<N>,
    found: &Option<Record>,
    askers: u32,
    pass: &mut Pass<Entry, N>,
) -> Result<String, Fault>
    requires untold { (opening : List Record) → N.opens opening → ⊥ }
    requires spelled { IfSome found.now HasSpelling }
{
    let Some(write) = found else {
        return Ok(format!(in alloc; "no open write")?);
    };
    let mut out = undo_write(rt, alloc, journal, hands, write, pass)?;
    for _ in 1..askers {
        let told = undo_write(rt, alloc, journal, hands, write, pass)?;
        out.push_str(", ")?;
        out.push_str(told.as_str())?;
    }
    Ok(out)
}

/// Takes back the last open write of a transaction, as often as there are askers that have seen it. What each was told.
pub(crate) fn undo<N: Life, J: Journaling<N>, R: Wait>(
    rt: &R,
    alloc: Global,
    journal: &mut J,
    hands: &mut Hands<N>,
    tx: TxId,
    askers: u32,
    pass: &mut Pass<Entry, N>,
) -> Result<String, Fault>
    requires untold { (opening : List Record) → N.opens opening → ⊥ }
{
    let found = journal.last_open(rt, alloc, tx, pass)?;
    undo_found(rt, alloc, journal, hands, &found, askers, pass)
}

/// Ends a transaction.
pub(crate) fn end<N: Life, J: Journaling<N>, R: Wait>(
    rt: &R,
    alloc: Global,
    journal: &mut J,
    hands: &mut Hands<N>,
    tx: TxId,
    pass: &mut Pass<Entry, N>,
) -> Result<String, Fault>
    requires untold { (opening : List Record) → N.opens opening → ⊥ }
{
    if tx == 0 || HIGHEST < tx {
        return Err(Fault::NotActive);
    }
    let mut rights = Rights::none();
    rights.s = hands.take(tx);
    let made = alone(alloc, Record::End(End { tx, prev: 0 }));
    let came = enter_made(rt, alloc, journal, made, rights, pass);
    come_back(alloc, hands, came)
}

/// Says that the data device was lost.
pub(crate) fn lose<N: Life, J: Journaling<N>, R: Wait>(
    rt: &R,
    alloc: Global,
    journal: &mut J,
    pass: &mut Pass<Entry, N>,
) -> Result<String, Fault>
    requires untold { (opening : List Record) → N.opens opening → ⊥ }
{
    let made = alone(alloc, Record::Lost(Lost { pages: 0 }));
    let came = enter_made(rt, alloc, journal, made, Rights::none(), pass);
    entered_text(alloc, came.entered, came.lsn)
}

/// Says that the first segment is restored.
pub(crate) fn restore<N: Life, J: Journaling<N>, R: Wait>(
    rt: &R,
    alloc: Global,
    journal: &mut J,
    pass: &mut Pass<Entry, N>,
) -> Result<String, Fault>
    requires untold { (opening : List Record) → N.opens opening → ⊥ }
{
    let made = alone(alloc, Record::Restored(Restored { segment: 0 }));
    let came = enter_made(rt, alloc, journal, made, Rights::none(), pass);
    entered_text(alloc, came.entered, came.lsn)
}
