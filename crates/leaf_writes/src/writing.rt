//! A change of a key's row on its leaf, which has room for it.
ghost use Rattle.std.specs.Prelude.{◌≡◌, ◌≤◌, ◌<◌, length, true, false, IfOk, IfErr, OnOk, vec_capacity, vec_len};
ghost use mathlib.Core.List.{IsPrefix};
ghost use Rattle.wal_record.specs.Images.{IsLeafOf, with_value};
ghost use Rattle.wal_record.specs.State.{page_room, state_size};
ghost use Rattle.page_ops.specs.Causes.{Ends, FailsToEnter, OrFull};
ghost use Rattle.page_ops.specs.Outcomes.{IsAnswer, IsFull, OnEntered};
ghost use Rattle.page_ops.specs.Seeing.{known};
ghost use Rattle.smo.specs.Asked.{Asked};
ghost use Rattle.smo.specs.Settled.{IsSettled, claims_of};
ghost use Rattle.leaf_writes.specs.Changes.{IsSpelledChange, UnlessEntered, change_group};
ghost use Rattle.leaf_writes.specs.MayChange.{MayChange};
ghost use Rattle.leaf_writes.specs.Owners.{KeepsOwner};

use crate::change::Change;
use crate::placing::{place, row_of, taken_rows};
use books::SessionRight;
use front::Pass;
use page_ops::{Entered, Entering, Group, Held, Life, Rights};
use page_rows::search;
use smo::ask;
use std::alloc::Global;
use std::sync::Wait;
use store_model::{Fault, List, Memory, PageNo};
use wal_record::{Entry, LeafRow, Rows};

/// Enters a change of a key's row on its leaf, which is in hand and has room for the new value, and gives the leaf that
/// value. A write is entered with its answer, by the right of its session; an undo by that of its own session, or by none
/// where it takes a loser's write back. Where in the history the last entry stands; or `Late`, where another thread has
/// undone the loser's write. A write is refused with `Full` where there is no room for it, whereupon its request is entered
/// as declined. Where the change isn't entered the leaf is as before.
pub fn write_leaf<N: Life, J: Entering<N>, R: Wait>(
    rt: &R,
    alloc: Global,
    journal: &mut J,
    leaf: &mut Held<N>,
    owner: &mut Option<SessionRight<N>>,
    change: &Change,
    pass: &mut Pass<Entry, N>,
) -> Result<Entered, Fault>
    requires begins { IsPrefix leaf.old.pass.log pass.old.log }
    requires may { MayChange N.opens pass.old.log leaf.old.state change.now owner.old }
    requires leaf { IsLeafOf change.now.key leaf.old.state }
    requires fits { state_size (with_value change.now.key change.now.new leaf.old.state) ≤ page_room }
    ensures done { OnEntered result (IsSettled (with_value change.now.key change.now.new leaf.old.state) pass.new leaf.old leaf.new) }
    ensures same { UnlessEntered result (leaf.new ≡ leaf.old) }
    ensures asked { Asked N.opens N.entries N.session_entries (change_group change.now owner.old leaf.old.page) result (known (J.account journal.old) pass.old (claims_of leaf.old owner.old)) (known (J.account journal.new) pass.new (claims_of leaf.new owner.new)) }
    ensures owner { KeepsOwner result owner.old owner.new }
    ensures answer { IfOk result (IsAnswer N.opens pass.new.log (change_group change.now owner.old leaf.old.page)) }
    ensures full { IfErr result (IsFull N.opens pass.new.log (change_group change.now owner.old leaf.old.page)) }
    ensures refused { IfErr result (FailsToEnter OrFull) }
    ensures ends { Ends N.opens N.log_faults N.made (J.account journal.old) (J.account journal.new) pass.new.log result }
{
    change.read();
    let spot = search(&leaf.state, &change.key);
    let row = row_of(&change.key, &change.new);
    let mut rows = taken_rows(alloc, &mut leaf.state.rows);
    let made = make_group(alloc, &mut rows, owner, leaf.page, change);
    let mut rights = Rights::none();
    rights.a = leaf.right.take();
    rights.s = owner.take();
    let answer = ask(rt, alloc, journal, made, &mut rights, pass);
    *owner = rights.s.take();
    let Some(right) = rights.a.take() else {
        unreachable!()
    };
    leaf.lsn = right.lsn();
    leaf.right = Some(right);
    if !is_entered(&answer) {
        leaf.state.rows = Rows::Leaf(List::from_vec(rows));
        return answer;
    }
    place(&mut rows, spot, row);
    leaf.state.rows = Rows::Leaf(List::from_vec(rows));
    leaf.pass = pass.copy(&journal.ground().board);
    leaf.dirty = true;
    answer
}

/// Whether the group was entered.
pub(crate) fn is_entered(answer: &Result<Entered, Fault>) -> bool
    ensures some { result ≡ true → UnlessEntered answer.now ⊥ }
    ensures none { result ≡ false → OnEntered answer.now ⊥ }
{
    matches!(answer, Ok(Entered::At(_)))
}

/// The group of the change, with what the journal fills in left open, and room for a row more.
fn make_group<N: Life>(
    alloc: Global,
    rows: &mut Vec<LeafRow>,
    owner: &Option<SessionRight<N>>,
    page: PageNo,
    change: &Change,
) -> Result<Group, Memory>
    ensures is { IfOk result (λ group. group ≡ change_group change.now owner.now page) }
    ensures same { rows.new.items ≡ rows.old.items }
    ensures room { OnOk result (vec_len rows.new < vec_capacity rows.new) }
{
    rows.reserve(1)?;
    let mut recs = Vec::with_capacity(alloc, 1)?;
    recs.push(change.on(page))?;
    Ok(Group {
        recs: List::from_vec(recs),
        said: change.said(owner),
        room: change.is_told(),
        lsn: 0,
    })
}
