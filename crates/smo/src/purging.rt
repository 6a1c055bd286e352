//! A leaf without its tombstones.
ghost use Rattle.std.specs.Prelude.{◌≡◌, filter, length, IfOk, IfErr, IsTrue, None, OnErr};
ghost use mathlib.Core.List.{IsPrefix};
ghost use Rattle.wal_record.specs.Images.{is_live_row, purged};
ghost use Rattle.wal_record.specs.State.{leaf_rows};
ghost use Rattle.wal_record.specs.declared.page.Rows.TheVariants.{Leaf};
ghost use Rattle.foster_laws.specs.Purges.{has_tombstone};
ghost use Rattle.page_ops.specs.Causes.{Ends, FailsToEnter, NoOther};
ghost use Rattle.page_ops.specs.Seeing.{known};
ghost use Rattle.smo.specs.Purges.{EntersPurge, purge_group};
ghost use Rattle.smo.specs.Settled.{IsSettled, claims_of};

use crate::asking::ask;
use front::Pass;
use page_ops::{Entered, Entering, Group, Held, Life, Rights};
use std::alloc::Global;
use std::mem;
use std::sync::Wait;
use store_model::{Fault, List, Lsn, Memory, PageNo, Pos};
use wal_record::{Entry, LeafRow, Purge, Record, Rows};

/// Enters the purge of the leaf in hand, which has a tombstone, in a group of its own, and takes the tombstones' rows out.
/// Where in the history it stands. After a refusal the leaf is as before.
pub fn purge<N: Life, J: Entering<N>, R: Wait>(
    rt: &R,
    alloc: Global,
    journal: &mut J,
    leaf: &mut Held<N>,
    pass: &mut Pass<Entry, N>,
) -> Result<Pos, Fault>
    requires begins { IsPrefix leaf.old.pass.log pass.old.log }
    requires leaf { leaf.old.state.rows ≡ Leaf (leaf_rows leaf.old.state.rows) }
    requires some { IsTrue (has_tombstone leaf.old.state) }
    ensures purged { IfOk result (λ pos. IsSettled (purged leaf.old.state) pass.new leaf.old leaf.new) }
    ensures same { OnErr result (leaf.new ≡ leaf.old) }
    ensures entered { EntersPurge N.opens N.entries N.session_entries leaf.old.page result (known (J.account journal.old) pass.old (claims_of leaf.old None)) (known (J.account journal.new) pass.new (claims_of leaf.new None)) }
    ensures last { IfOk result (λ pos. pos ≡ length pass.new.log) }
    ensures refused { IfErr result (FailsToEnter NoOther) }
    ensures ends { Ends N.opens N.log_faults N.made (J.account journal.old) (J.account journal.new) pass.new.log result }
{
    let mut rights = Rights::none();
    rights.a = leaf.right.take();
    let made = group_of(alloc, leaf.page, leaf.lsn);
    let entered = ask(rt, alloc, journal, made, &mut rights, pass);
    let back = rights.a.take();
    drop(rights);
    let Some(right) = back else { unreachable!() };
    leaf.lsn = right.lsn();
    leaf.right = Some(right);
    let Entered::At(pos) = entered? else {
        unreachable!()
    };
    keep_live(alloc, &mut leaf.state.rows);
    leaf.pass = pass.copy(&journal.ground().board);
    leaf.dirty = true;
    Ok(pos)
}

/// The group of the purge, with what the journal fills in left open.
fn group_of(alloc: Global, page: PageNo, page_prev: Lsn) -> Result<Group, Memory>
    ensures { IfOk result (λ group. group ≡ purge_group page page_prev) }
{
    let mut recs = List::new(alloc);
    recs.push(Record::Purge(Purge { page, page_prev }))?;
    Ok(Group {
        recs,
        said: None,
        room: false,
        lsn: 0,
    })
}

/// Takes the tombstones out. It takes no memory.
fn keep_live(alloc: Global, rows: &mut Rows)
    requires { rows.old ≡ Leaf (leaf_rows rows.old) }
    ensures { rows.new ≡ Leaf (filter is_live_row (leaf_rows rows.old)) }
{
    match rows {
        Rows::Leaf(rows) => {
            let all = mem::replace(rows, List::new(alloc)).into_vec();
            *rows = List::from_vec(live_of(all));
        }
        Rows::Branch(_) => {}
    }
}

/// The rows that are no tombstones.
fn live_of(mut rows: Vec<LeafRow>) -> Vec<LeafRow>
    ensures { result.items ≡ filter is_live_row rows.items }
{
    rows.retain(|row| !row.tombstone);
    rows
}
