//! A put, entered through any journal.
ghost use Rattle.std.specs.Prelude.{◌≡◌, ◌≤◌, Some, IfOk, IfErr, IsTrue};
ghost use Rattle.std.specs.List.{list_any};
ghost use mathlib.Core.List.{IsPrefix};
ghost use Rattle.group_laws.specs.Puts.{EntersPut, claims_of, put_of, put_group, put_write};
ghost use Rattle.page_ops.specs.Causes.{Ends, FailsToEnter, OrFull};
ghost use Rattle.page_ops.specs.Claims.{SessionAgrees};
ghost use Rattle.page_ops.specs.Outcomes.{IsAnswer, IsFull};
ghost use Rattle.page_ops.specs.Seeing.{known};
ghost use Rattle.wal_record.specs.History.{Live, phase};
ghost use Rattle.wal_record.specs.Images.{IsLeafOf, with_value};
ghost use Rattle.wal_record.specs.Locks.{covers_write, taken_locks};
ghost use Rattle.wal_record.specs.Rules.{KeepsWrite, is_number, is_page};
ghost use Rattle.wal_record.specs.State.{leaf_rows, live, page_room, state_size};

use books::SessionRight;
use front::Pass;
use page_ops::{Entered, Entering, Group, Held, Life, Rights, Said};
use std::alloc::Global;
use std::sync::Wait;
use store_model::{Fault, Key, List, Memory, PageNo, Reply, Request, TxId, Value};
use wal_record::{Entry, Record, Write};

/// Enters the put of a key into its leaf, which is in hand, for a transaction that has locked the key. The old value is
/// that of the leaf's row. The rights come back, that to the page first. Where there is no memory for the group the journal
/// is asked for nothing.
pub fn enter_put<N: Life, J: Entering<N>, R: Wait>(
    rt: &R,
    alloc: Global,
    journal: &mut J,
    leaf: Held<N>,
    session: SessionRight<N>,
    key: &Key,
    old: &Option<Value>,
    value: &Value,
    pass: &mut Pass<Entry, N>,
) -> (Result<Entered, Fault>, Rights<N>)
    requires begins { IsPrefix leaf.pass.log pass.old.log }
    requires agrees { SessionAgrees pass.old.log session }
    requires number { IsTrue (is_number session.tx) }
    requires live { phase pass.old.log session.tx ≡ Live }
    requires locked { IsTrue (list_any (covers_write key.now) (taken_locks pass.old.log session.tx)) }
    requires leaf { IsLeafOf key.now leaf.state }
    requires old { old.now ≡ live (leaf_rows leaf.state.rows) key.now }
    requires fits { state_size (with_value key.now (Some value.now) leaf.state) ≤ page_room }
    ensures entered { EntersPut N.opens N.entries N.session_entries (put_of session leaf key.now old.now value.now) result.0 (known (J.account journal.old) pass.old (claims_of leaf session)) (known (J.account journal.new) pass.new result.1) }
    ensures answer { IfOk result.0 (IsAnswer N.opens pass.new.log (put_of session leaf key.now old.now value.now)) }
    ensures full { IfErr result.0 (IsFull N.opens pass.new.log (put_of session leaf key.now old.now value.now)) }
    ensures refused { IfErr result.0 (FailsToEnter OrFull) }
    ensures ends { Ends N.opens N.log_faults N.made (J.account journal.old) (J.account journal.new) pass.new.log result.0 }
{
    let mut rights = Rights::none();
    let (number, tx) = (session.session(), session.tx());
    let made = group_of(alloc, number, tx, leaf.page, key, old, value);
    rights.a = leaf.right;
    rights.s = Some(session);
    let Ok(mut group) = made else {
        journal.see(rt, &mut rights, pass);
        return (Err(Fault::Memory), rights);
    };
    let entered = journal.enter(rt, alloc, &mut group, &mut rights, pass);
    (entered, rights)
}

/// The group of the put, with what the journal fills in left open.
fn group_of(
    alloc: Global,
    session: u32,
    tx: TxId,
    page: PageNo,
    key: &Key,
    old: &Option<Value>,
    value: &Value,
) -> Result<Group, Memory>
    requires tx { IsTrue (is_number tx) }
    requires page { IsTrue (is_page page) }
    ensures is { IfOk result (λ group. group ≡ put_group session tx page key.now old.now value.now) }
    ensures spelled { KeepsWrite (put_write tx page key.now old.now value.now) }
{
    let mut recs = List::new(alloc);
    recs.push(Record::Write(Write {
        tx,
        prev: 0,
        page,
        page_prev: 0,
        key: key.copied(),
        old: copy_of(old),
        new: Some(value.copied()),
    }))?;
    Ok(Group {
        recs,
        said: Some(Said {
            session,
            tx,
            request: Request::Put(key.copied(), value.copied()),
            reply: Reply::Was(copy_of(old)),
        }),
        room: true,
        lsn: 0,
    })
}

fn copy_of(value: &Option<Value>) -> Option<Value>
    ensures { result ≡ value.now }
{
    match value {
        Some(value) => Some(value.copied()),
        None => None,
    }
}
