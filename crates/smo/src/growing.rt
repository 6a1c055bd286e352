//! A root that grows.
ghost use Rattle.std.specs.Prelude.{◌≡◌, ◌+◌, ◌<◌, IfErr, IfNone, IfOk, IfSome, IsOk, IsTrue, List, [], ◌∷◌, None, OnErr, Some, is_some, true};
ghost use mathlib.Core.List.{IsPrefix};
ghost use Rattle.foster_laws.specs.Tidy.{IsFull};
ghost use Rattle.page_ops.specs.Causes.{Ends, FailsToEnter, NoOther};
ghost use Rattle.page_ops.specs.Seeing.{known};
ghost use Rattle.smo.specs.Settled.{IsSettled, claims_of};
ghost use Rattle.smo.specs.Splits.{EntersMade, desk_after, grow_by, grow_group};
ghost use Rattle.wal_record.specs.History.{life_log};
ghost use Rattle.wal_record.specs.Images.{grown};
ghost use Rattle.wal_record.specs.State.{is_child};
ghost use Rattle.wal_record.specs.declared.page.Rows.TheVariants.{Branch};
ghost use Rattle.wal_record.specs.declared.record.Record.{Record};

use crate::asking::ask;
use crate::making::put_made;
use front::Pass;
use page_ops::{Entered, Entering, Group, Held, Life, Pages, Rights};
use page_rows::copied_state;
use std::alloc::Global;
use std::mem;
use std::sync::Wait;
use store_model::{Bound, Fault, List, Memory, PageNo};
use wal_record::{BranchRow, Entry, Grow, PageState, Record, Rows};

/// Makes the root in hand, which has a foster child, one level higher, in a group of its own: what it has goes to a new
/// page, its only child, which is put into the frame that is reserved for it. The number of the new page, or none where
/// there is no room for a page more. Then, and after a refusal, the root is as before, and the frame is still reserved.
pub fn grow<N: Life, J: Entering<N>, P: Pages<N, J>, R: Wait>(
    rt: &R,
    alloc: Global,
    pages: &mut P,
    journal: &mut J,
    root: &mut Held<N>,
    pass: &mut Pass<Entry, N>,
) -> Result<Option<PageNo>, Fault>
    requires begins { IsPrefix root.old.pass.log pass.old.log }
    requires root { root.old.page ≡ 1 }
    requires foster { IsTrue (is_some root.old.state.foster) }
    requires level { root.old.state.level < 255 }
    requires reserved { (P.desk pages.old).reserves ≡ true }
    ensures grown { IfOk result (λ made. IfSome made (λ child. IsSettled (grown child root.old.state) pass.new root.old root.new)) }
    ensures number { IfOk result (λ made. IfSome made (λ child. IsTrue (is_child child))) }
    ensures none { IfOk result (λ made. IfNone made (root.new ≡ root.old)) }
    ensures room { IfOk result (λ made. IfNone made ((opening : List Record) → N.opens opening → IsFull (life_log opening pass.new.log))) }
    ensures same { OnErr result (root.new ≡ root.old) }
    ensures entered { EntersMade N.opens N.entries N.session_entries (grow_by root.old.state) result (known (J.account journal.old) pass.old (claims_of root.old None)) (known (J.account journal.new) pass.new (claims_of root.new None)) }
    ensures desk { P.desk pages.new ≡ desk_after (P.desk pages.old) result }
    ensures refused { IfErr result (FailsToEnter NoOther) }
    ensures ends { Ends N.opens N.log_faults N.made (J.account journal.old) (J.account journal.new) pass.new.log result }
{
    let rows = only_row(alloc);
    let made = group_of(alloc, &root.state, &rows);
    let mut rights = Rights::none();
    rights.a = root.right.take();
    let entered = ask(rt, alloc, journal, made, &mut rights, pass);
    let (back, new) = (rights.a.take(), rights.c.take());
    drop(rights);
    let Some(right) = back else { unreachable!() };
    root.lsn = right.lsn();
    root.right = Some(right);
    match entered? {
        Entered::At(_) => {}
        Entered::NoRoom => return Ok(None),
        Entered::Late(_) => unreachable!(),
    }
    let Ok(rows) = rows else { unreachable!() };
    let Some(right) = new else { unreachable!() };
    let child = right.page();
    let above = root_above(root.state.level, rows, child);
    let old = mem::replace(&mut root.state, above);
    root.pass = pass.copy(&journal.ground().board);
    root.dirty = true;
    put_made(rt, pages, old, right, pass.copy(&journal.ground().board));
    Ok(Some(child))
}

/// The row that covers all keys. Its child isn't known yet.
fn only_row(alloc: Global) -> Result<List<BranchRow>, Memory>
    ensures { IfOk result (λ rows. rows ≡ record { low = Some []; child = 0 } ∷ []) }
{
    let mut rows = List::new(alloc);
    rows.push(BranchRow {
        low: bottom(),
        child: 0,
    })?;
    Ok(rows)
}

/// The root above a page of this level, which is its only child. It takes no memory.
fn root_above(level: u8, mut rows: List<BranchRow>, child: PageNo) -> PageState
    requires level { level < 255 }
    requires rows { rows ≡ record { low = Some []; child = 0 } ∷ [] }
    ensures { result ≡ record { level = level + 1; low = Some []; high = None; foster = None; rows = Branch (record { low = Some []; child = child } ∷ []) } }
{
    let row = BranchRow {
        low: bottom(),
        child,
    };
    let _unknown = rows.replace(0, row);
    PageState {
        level: level + 1,
        low: bottom(),
        high: Bound::top(),
        foster: None,
        rows: Rows::Branch(rows),
    }
}

/// The bound below all keys.
fn bottom() -> Bound
    ensures { result ≡ Some [] }
{
    match Bound::at(&[]) {
        Some(bound) => bound,
        None => Bound::top(),
    }
}

/// The group of the growth, with what the journal fills in left open, where there was memory for the new root's row.
fn group_of(
    alloc: Global,
    state: &PageState,
    rows: &Result<List<BranchRow>, Memory>,
) -> Result<Group, Memory>
    ensures is { IfOk result (λ group. group ≡ grow_group state.now) }
    ensures made { IfOk result (λ group. IsOk rows.now) }
{
    let Ok(_) = rows else {
        return Err(Memory);
    };
    let mut recs = List::new(alloc);
    recs.push(Record::Grow(Grow {
        page_prev: 0,
        child: 0,
        child_state: copied_state(alloc, state)?,
    }))?;
    Ok(Group {
        recs,
        said: None,
        room: true,
        lsn: 0,
    })
}
