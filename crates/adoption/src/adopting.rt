//! A parent that takes the foster child of one of its children.
ghost use Rattle.std.specs.Prelude.{◌≡◌, ◌≤◌, [], ◌∷◌, IfErr, IfOk, IfSome, IsOk, None, OnErr, OnOk, Some, false};
ghost use mathlib.Core.List.{IsPrefix};
ghost use Rattle.wal_record.specs.State.{branch_rows, free_bytes};
ghost use Rattle.wal_record.specs.declared.page.Rows.TheVariants.{Branch};
ghost use Rattle.wal_record.specs.declared.record.Record.TheVariants as kinds;
ghost use Rattle.page_ops.specs.Causes.{Ends, FailsToEnter, NoOther};
ghost use Rattle.page_ops.specs.Seeing.{known};
ghost use Rattle.smo.specs.Settled.{IsSettled};
ghost use Rattle.adoption.specs.Adoptions.{EntersAdoption, EntersByAnswer, IsAnswerOf, Leads, OnAdopted, OnAsked, UnlessAdopted, adopt_of, claims_of_both, row_bytes, with_row_for, without_child};

use crate::outcome::Adoption;
use crate::placing::with_row_for;
use front::Pass;
use page_ops::{Entered, Entering, Group, Held, Life, Rights};
use page_rows::{copied_foster, free_bytes};
use smo::ask;
use std::alloc::Global;
use std::sync::Wait;
use store_model::{Bound, Fault, List, Lsn, Memory, PageNo};
use wal_record::{Adopt, Entry, Foster, PageState, Record};

/// Moves the pointer to the foster child of a page in hand to its parent in hand, one of whose rows leads to that page, in
/// a group of its own: the parent gets a row for the child, and the foster parent ends where the child begins. It is done
/// exactly where there is a foster child and the parent has room for the row. Where it isn't done, and after a refusal,
/// both pages are as before.
pub fn try_adopt<N: Life, J: Entering<N>, R: Wait>(
    rt: &R,
    alloc: Global,
    journal: &mut J,
    parent: &mut Held<N>,
    fosterer: &mut Held<N>,
    pass: &mut Pass<Entry, N>,
) -> Result<Adoption, Fault>
    requires begins { IsPrefix parent.old.pass.log pass.old.log }
    requires begins_too { IsPrefix fosterer.old.pass.log pass.old.log }
    requires branch { parent.old.state.rows ≡ Branch (branch_rows parent.old.state.rows) }
    requires child { Leads parent.old.state fosterer.old.page fosterer.old.state }
    ensures answer { IfOk result (IsAnswerOf parent.old.state fosterer.old.state) }
    ensures taken { OnAdopted result (IfSome fosterer.old.state.foster (λ f. IsSettled (with_row_for f parent.old.state) pass.new parent.old parent.new)) }
    ensures given { OnAdopted result (IfSome fosterer.old.state.foster (λ f. IsSettled (without_child f fosterer.old.state) pass.new fosterer.old fosterer.new)) }
    ensures same { UnlessAdopted result (parent.new ≡ parent.old) }
    ensures same_too { UnlessAdopted result (fosterer.new ≡ fosterer.old) }
    ensures entered { EntersByAnswer N.opens N.entries N.session_entries parent.old.page fosterer.old.page fosterer.old.state.foster result (known (J.account journal.old) pass.old (claims_of_both parent.old fosterer.old)) (known (J.account journal.new) pass.new (claims_of_both parent.new fosterer.new)) }
    ensures refused { IfErr result (FailsToEnter NoOther) }
    ensures ends { OnAsked result (Ends N.opens N.log_faults N.made (J.account journal.old) (J.account journal.new) pass.new.log result) }
{
    let Some(foster) = copied_foster(&fosterer.state.foster) else {
        return Ok(Adoption::NothingToAdopt);
    };
    let free = free_bytes(&parent.state);
    let needed = row_bytes(&foster);
    if free < needed {
        return Ok(Adoption::NoRoom { free, needed });
    }
    adopt(rt, alloc, journal, parent, fosterer, &foster, pass)?;
    Ok(Adoption::Adopted)
}

/// How many bytes the row of the child has.
fn row_bytes(foster: &Foster) -> u32
    ensures { result ≡ row_bytes foster.now }
{
    5 + foster.key.as_bytes().len() as u32
}

/// The same, where there is this foster child, and room.
fn adopt<N: Life, J: Entering<N>, R: Wait>(
    rt: &R,
    alloc: Global,
    journal: &mut J,
    parent: &mut Held<N>,
    fosterer: &mut Held<N>,
    foster: &Foster,
    pass: &mut Pass<Entry, N>,
) -> Result<(), Fault>
    requires begins { IsPrefix parent.old.pass.log pass.old.log }
    requires begins_too { IsPrefix fosterer.old.pass.log pass.old.log }
    requires branch { parent.old.state.rows ≡ Branch (branch_rows parent.old.state.rows) }
    requires child { Leads parent.old.state fosterer.old.page fosterer.old.state }
    requires foster { fosterer.old.state.foster ≡ Some foster.now }
    requires room { row_bytes foster.now ≤ free_bytes parent.old.state }
    ensures taken { OnOk result (IsSettled (with_row_for foster.now parent.old.state) pass.new parent.old parent.new) }
    ensures given { OnOk result (IsSettled (without_child foster.now fosterer.old.state) pass.new fosterer.old fosterer.new) }
    ensures same { OnErr result (parent.new ≡ parent.old) }
    ensures same_too { OnErr result (fosterer.new ≡ fosterer.old) }
    ensures entered { EntersAdoption N.opens N.entries N.session_entries parent.old.page fosterer.old.page foster.now result (known (J.account journal.old) pass.old (claims_of_both parent.old fosterer.old)) (known (J.account journal.new) pass.new (claims_of_both parent.new fosterer.new)) }
    ensures refused { IfErr result (FailsToEnter NoOther) }
    ensures ends { Ends N.opens N.log_faults N.made (J.account journal.old) (J.account journal.new) pass.new.log result }
{
    let (page, prev) = (fosterer.page, fosterer.lsn);
    let larger = with_row_for(alloc, &parent.state, foster);
    let made = group_of(alloc, parent.page, parent.lsn, page, prev, foster, &larger);
    let mut rights = Rights::none();
    rights.a = parent.right.take();
    rights.b = fosterer.right.take();
    let entered = ask(rt, alloc, journal, made, &mut rights, pass);
    let Some(right) = rights.a.take() else {
        unreachable!()
    };
    let Some(other) = rights.b.take() else {
        unreachable!()
    };
    parent.lsn = right.lsn();
    parent.right = Some(right);
    fosterer.lsn = other.lsn();
    fosterer.right = Some(other);
    let Entered::At(_) = entered? else {
        unreachable!()
    };
    let Ok(larger) = larger else { unreachable!() };
    parent.state = larger;
    parent.pass = pass.copy(&journal.ground().board);
    parent.dirty = true;
    fosterer.state.foster = None;
    fosterer.state.high = Bound::of_key(&foster.key);
    fosterer.pass = pass.copy(&journal.ground().board);
    fosterer.dirty = true;
    Ok(())
}

/// The group of the adoption, where there was memory for the parent's rows.
fn group_of(
    alloc: Global,
    parent: PageNo,
    parent_prev: Lsn,
    fosterer: PageNo,
    fosterer_prev: Lsn,
    foster: &Foster,
    larger: &Result<PageState, Memory>,
) -> Result<Group, Memory>
    ensures is { IfOk result (λ group. group ≡ record { recs = kinds.Adopt (adopt_of parent parent_prev fosterer fosterer_prev foster.now) ∷ []; said = None; room = false; lsn = 0 }) }
    ensures made { IfOk result (λ group. IsOk larger.now) }
{
    let Ok(_) = larger else {
        return Err(Memory);
    };
    let mut recs = List::new(alloc);
    recs.push(Record::Adopt(Adopt {
        parent,
        parent_prev,
        fosterer,
        fosterer_prev,
        child: foster.child,
        key: foster.key.copied(),
    }))?;
    Ok(Group {
        recs,
        said: None,
        room: false,
        lsn: 0,
    })
}
