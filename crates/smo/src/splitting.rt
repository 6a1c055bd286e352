//! A branch that is split.
ghost use Rattle.std.specs.Prelude.{◌≡◌, ◌<◌, IfErr, IfNone, IfOk, IfSome, IsOk, IsTrue, List, [], ◌∷◌, None, OnErr, false, true};
ghost use mathlib.Core.List.{IsPrefix};
ghost use Rattle.foster_laws.specs.Tidy.{IsFull};
ghost use Rattle.page_halves.specs.Parts.{lower_with};
ghost use Rattle.page_ops.specs.Causes.{Ends, FailsToEnter, NoOther};
ghost use Rattle.page_ops.specs.Seeing.{known};
ghost use Rattle.smo.specs.Settled.{IsSettled, claims_of};
ghost use Rattle.smo.specs.Splits.{EntersMade, desk_after, split_by};
ghost use Rattle.wal_record.specs.History.{life_log};
ghost use Rattle.wal_record.specs.State.{branch_rows, free_bytes, is_child};
ghost use Rattle.wal_record.specs.declared.page.Rows.TheVariants.{Branch};
ghost use Rattle.wal_record.specs.declared.record.Record.{Record};
ghost use Rattle.wal_record.specs.declared.record.Record.TheVariants as kinds;

use crate::asking::ask;
use crate::making::put_made;
use front::Pass;
use page_halves::{keep_lower, upper_half};
use page_ops::{Entered, Entering, Group, Held, Life, Pages, Rights};
use page_rows::copied_state;
use std::alloc::Global;
use std::sync::Wait;
use store_model::{Fault, List, Memory, PageNo};
use wal_record::{Entry, PageState, Record, Split};

/// Splits the branch in hand, which the longest row may not fit into, in a group of its own: its upper rows go to a new
/// page, which is put into the frame that is reserved for it. The number of the new page, or none where there is no room
/// for a page more. Then, and after a refusal, the branch is as before, and the frame is still reserved.
pub fn split<N: Life, J: Entering<N>, P: Pages<N, J>, R: Wait>(
    rt: &R,
    alloc: Global,
    pages: &mut P,
    journal: &mut J,
    branch: &mut Held<N>,
    pass: &mut Pass<Entry, N>,
) -> Result<Option<PageNo>, Fault>
    requires begins { IsPrefix branch.old.pass.log pass.old.log }
    requires branch { branch.old.state.rows ≡ Branch (branch_rows branch.old.state.rows) }
    requires crowded { free_bytes branch.old.state < 69 }
    requires reserved { (P.desk pages.old).reserves ≡ true }
    ensures split { IfOk result (λ made. IfSome made (λ child. IsSettled (lower_with child branch.old.state) pass.new branch.old branch.new)) }
    ensures number { IfOk result (λ made. IfSome made (λ child. IsTrue (is_child child))) }
    ensures none { IfOk result (λ made. IfNone made (branch.new ≡ branch.old)) }
    ensures room { IfOk result (λ made. IfNone made ((opening : List Record) → N.opens opening → IsFull (life_log opening pass.new.log))) }
    ensures same { OnErr result (branch.new ≡ branch.old) }
    ensures entered { EntersMade N.opens N.entries N.session_entries (split_by branch.old.page branch.old.state) result (known (J.account journal.old) pass.old (claims_of branch.old None)) (known (J.account journal.new) pass.new (claims_of branch.new None)) }
    ensures desk { P.desk pages.new ≡ desk_after (P.desk pages.old) result }
    ensures refused { IfErr result (FailsToEnter NoOther) }
    ensures ends { Ends N.opens N.log_faults N.made (J.account journal.old) (J.account journal.new) pass.new.log result }
{
    let upper = upper_half(alloc, &branch.state);
    let made = group_of(alloc, branch.page, &upper);
    let mut rights = Rights::none();
    rights.a = branch.right.take();
    let entered = ask(rt, alloc, journal, made, &mut rights, pass);
    let (back, new) = (rights.a.take(), rights.c.take());
    drop(rights);
    let Some(right) = back else { unreachable!() };
    branch.lsn = right.lsn();
    branch.right = Some(right);
    match entered? {
        Entered::At(_) => {}
        Entered::NoRoom => return Ok(None),
        Entered::Late(_) => unreachable!(),
    }
    let Ok(upper) = upper else { unreachable!() };
    let Some(right) = new else { unreachable!() };
    let child = right.page();
    keep_lower(alloc, &mut branch.state, child);
    branch.pass = pass.copy(&journal.ground().board);
    branch.dirty = true;
    put_made(rt, pages, upper, right, pass.copy(&journal.ground().board));
    Ok(Some(child))
}

/// The group of the split, with what the journal fills in left open, where there was memory for its upper half.
fn group_of(alloc: Global, page: PageNo, upper: &Result<PageState, Memory>) -> Result<Group, Memory>
    ensures is { IfOk result (λ group. IfOk upper.now (λ u. group ≡ record { recs = kinds.Split (record { page = page; page_prev = 0; child = 0; child_state = u }) ∷ []; said = None; room = true; lsn = 0 })) }
    ensures made { IfOk result (λ group. IsOk upper.now) }
{
    let Ok(upper) = upper else {
        return Err(Memory);
    };
    let mut recs = List::new(alloc);
    recs.push(Record::Split(Split {
        page,
        page_prev: 0,
        child: 0,
        child_state: copied_state(alloc, upper)?,
    }))?;
    Ok(Group {
        recs,
        said: None,
        room: true,
        lsn: 0,
    })
}
