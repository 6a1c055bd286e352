//! Tables of steps with what they answer.
ghost use Rattle.std.specs.Prelude.{List};
ghost use Rattle.wal_record.specs.declared.record.Record.{Record};

use crate::calls::{Hands, begin, begin_all, commit, lock};
use crate::ended::calls_ended;
use crate::entering::{Change, Operation, apply, end, lose, miss, put, restore, undo};
use books::PageRight;
use front::Pass;
use page_ops::{Journaling, Life};
use std::alloc::Global;
use std::sync::Wait;
use store_model::{Bound, Fault, Key, KeyRange, Mode, OpValue, TxId, Value};
use wal_record::Entry;

/// What is asked. The number is that of a transaction.
#[derive(Clone, Copy)]
pub enum Step<'a> {
    /// A new session begins a transaction.
    Begin,
    /// As many begin as may, up to 100. What the next one is told.
    Begins,
    /// Locks a key.
    Lock(TxId, Mode, &'a str),
    /// Locks the keys from one on and below another, or above all where that is empty.
    Scan(TxId, Mode, &'a str, &'a str),
    /// Writes a key that has a value: puts another one, or deletes the key. An empty one stands for none.
    Put(TxId, &'a str, &'a str, &'a str),
    /// Applies the operator of this number to a key that has a value, or none, which an empty text stands for; with an
    /// argument.
    Apply(TxId, u8, &'a str, &'a str, &'a str),
    /// So many take back the last open write, which they have seen.
    Undo(TxId, u32),
    End(TxId),
    Commit(TxId),
    /// The data device was lost.
    Lose,
    /// The first segment is restored.
    Restore,
    /// Each call that may be refused, by the session of the transaction.
    Calls(TxId),
}

/// A step, and what it answers with the number of entries behind it.
pub type Line<'a> = (Step<'a>, &'a str);

/// The keys from one on and below another, or all from it on.
fn range_of(low: &str, high: &str) -> Option<KeyRange> {
    let high = match high {
        "" => Bound::top(),
        text => Bound::at(text.as_bytes())?,
    };
    KeyRange::new(Bound::at(low.as_bytes())?, high)
}

/// Locks a range, if it is one.
fn lock_range<N: Life, J: Journaling<N>, R: Wait>(
    rt: &R,
    alloc: Global,
    journal: &mut J,
    hands: &mut Hands<N>,
    tx: TxId,
    range: Option<KeyRange>,
    mode: Mode,
    pass: &mut Pass<Entry, N>,
) -> Result<String, Fault> {
    match range {
        Some(range) => lock(rt, alloc, journal, hands, tx, &range, mode, pass),
        None => Err(Fault::NotActive),
    }
}

/// Locks a key, if it is one.
fn lock_key<N: Life, J: Journaling<N>, R: Wait>(
    rt: &R,
    alloc: Global,
    journal: &mut J,
    hands: &mut Hands<N>,
    tx: TxId,
    key: &str,
    mode: Mode,
    pass: &mut Pass<Entry, N>,
) -> Result<String, Fault> {
    match Key::new(key.as_bytes()) {
        Some(key) => lock(
            rt,
            alloc,
            journal,
            hands,
            tx,
            &KeyRange::point(&key),
            mode,
            pass,
        ),
        None => Err(Fault::NotActive),
    }
}

/// An empty text stands for none.
fn value_of(text: &str) -> Option<Value> {
    if text.is_empty() {
        None
    } else {
        Value::new(text.as_bytes())
    }
}

/// Writes a key.
fn write<N: Life, J: Journaling<N>, R: Wait>(
    rt: &R,
    alloc: Global,
    journal: &mut J,
    hands: &mut Hands<N>,
    tx: TxId,
    texts: (&str, &str, &str),
    pass: &mut Pass<Entry, N>,
) -> Result<String, Fault>
    requires untold { (opening : List Record) → N.opens opening → ⊥ }
{
    let (key, old, new) = texts;
    let (old, new) = (value_of(old), value_of(new));
    let Some(key) = Key::new(key.as_bytes()) else {
        return Err(Fault::NotActive);
    };
    if old.is_none() && new.is_none() {
        return miss(rt, alloc, journal, hands, tx, &key, pass);
    }
    let write = Change {
        key: &key,
        old: &old,
        new: &new,
    };
    put(rt, alloc, journal, hands, tx, write, pass)
}

/// Applies an operator to a key.
fn operate<N: Life, J: Journaling<N>, R: Wait>(
    rt: &R,
    alloc: Global,
    journal: &mut J,
    hands: &mut Hands<N>,
    tx: TxId,
    operator: u8,
    texts: (&str, &str, &str),
    pass: &mut Pass<Entry, N>,
) -> Result<String, Fault>
    requires untold { (opening : List Record) → N.opens opening → ⊥ }
{
    let (key, old, argument) = texts;
    let old = value_of(old);
    let Some(key) = Key::new(key.as_bytes()) else {
        return Err(Fault::NotActive);
    };
    let Some(argument) = OpValue::new(argument.as_bytes()) else {
        return Err(Fault::NotActive);
    };
    let asked = Operation {
        key: &key,
        old: &old,
        operator,
        argument: &argument,
    };
    apply(rt, alloc, journal, hands, tx, asked, pass)
}

/// What a step answers.
fn answer<N: Life, J: Journaling<N>, R: Wait>(
    rt: &R,
    alloc: Global,
    journal: &mut J,
    hands: &mut Hands<N>,
    step: Step<'_>,
    pass: &mut Pass<Entry, N>,
) -> Result<String, Fault>
    requires untold { (opening : List Record) → N.opens opening → ⊥ }
{
    match step {
        Step::Begin => begin(rt, alloc, journal, hands, pass),
        Step::Begins => begin_all(rt, alloc, journal, hands, pass),
        Step::Lock(tx, mode, key) => lock_key(rt, alloc, journal, hands, tx, key, mode, pass),
        Step::Scan(tx, mode, low, high) => {
            let range = range_of(low, high);
            lock_range(rt, alloc, journal, hands, tx, range, mode, pass)
        }
        Step::Put(tx, key, old, new) => {
            write(rt, alloc, journal, hands, tx, (key, old, new), pass)
        }
        Step::Apply(tx, operator, key, old, argument) => {
            let texts = (key, old, argument);
            operate(rt, alloc, journal, hands, tx, operator, texts, pass)
        }
        Step::Undo(tx, askers) => undo(rt, alloc, journal, hands, tx, askers, pass),
        Step::End(tx) => end(rt, alloc, journal, hands, tx, pass),
        Step::Commit(tx) => commit(rt, alloc, journal, hands, tx, pass),
        Step::Lose => lose(rt, alloc, journal, pass),
        Step::Restore => restore(rt, alloc, journal, pass),
        Step::Calls(tx) => calls_ended(rt, alloc, journal, hands, tx, pass),
    }
}

/// What a step answers, and once more where that lacks memory and has entered nothing; and how many entries there are then.
fn tell<N: Life, J: Journaling<N>, R: Wait>(
    rt: &R,
    alloc: Global,
    journal: &mut J,
    hands: &mut Hands<N>,
    step: Step<'_>,
    pass: &mut Pass<Entry, N>,
) -> Result<String, Fault>
    requires untold { (opening : List Record) → N.opens opening → ⊥ }
{
    let before = journal.length(rt, pass);
    let text = match answer(rt, alloc, journal, hands, step, pass) {
        Err(Fault::Memory) if journal.length(rt, pass) == before => {
            answer(rt, alloc, journal, hands, step, pass)?
        }
        told => told?,
    };
    let behind = journal.length(rt, pass);
    Ok(format!(in alloc; "{text} at {behind}")?)
}

/// The first step that answers otherwise than it should, counted from 1, and what it answers. Nothing where each answers as it
/// should.
fn first_other<N: Life, J: Journaling<N>, R: Wait>(
    rt: &R,
    alloc: Global,
    journal: &mut J,
    hands: &mut Hands<N>,
    lines: &[Line<'_>],
    pass: &mut Pass<Entry, N>,
) -> Result<String, Fault>
    requires untold { (opening : List Record) → N.opens opening → ⊥ }
{
    let mut number = 0u64;
    for (step, wanted) in lines {
        number = number.saturating_add(1);
        let told = tell(rt, alloc, journal, hands, *step, pass)?;
        if told.as_str() != *wanted {
            return Ok(format!(in alloc; "step {number}: {told}")?);
        }
    }
    Ok(String::new(alloc))
}

/// Plays the lines in a life that has just begun, with the right to page 1 if it has that page. As [`first_other`].
pub fn play<N: Life, J: Journaling<N>, R: Wait>(
    rt: &R,
    alloc: Global,
    journal: &mut J,
    page: Option<PageRight<N>>,
    lines: &[Line<'_>],
    pass: &mut Pass<Entry, N>,
) -> Result<String, Fault>
    requires untold { (opening : List Record) → N.opens opening → ⊥ }
{
    let mut hands = Hands::new(alloc, page);
    first_other(rt, alloc, journal, &mut hands, lines, pass)
}
