//! A change of a key's row for which its leaf is split.
ghost use Rattle.std.specs.Prelude.{◌≡◌, ◌<◌, IfErr, IfOk, IsOk, OnErr, Some, false, if◌then◌else◌, true};
ghost use mathlib.Core.List.{IsPrefix};
ghost use Rattle.foster_laws.specs.Purges.{has_tombstone};
ghost use Rattle.page_ops.specs.Causes.{Ends, FailsToEnter, OrFull};
ghost use Rattle.page_ops.specs.Outcomes.{IsAnswer, IsFull};
ghost use Rattle.page_ops.specs.Seeing.{known};
ghost use Rattle.smo.specs.Settled.{claims_of};
ghost use Rattle.store_model.specs.Range.{is_below};
ghost use Rattle.wal_record.specs.Images.{IsLeafOf, with_value};
ghost use Rattle.wal_record.specs.State.{KeepsState, page_room, state_size};
ghost use Rattle.leaf_writes.specs.Changes.{UnlessEntered, split_change_group};
ghost use Rattle.leaf_writes.specs.Halves.{SplitsLeaf, desk_behind, lower_written, numbered, upper_written};
ghost use Rattle.leaf_writes.specs.MayChange.{MayChange};
ghost use Rattle.leaf_writes.specs.Owners.{KeepsOwner};

use crate::change::Change;
use crate::placing::with_row;
use crate::writing::is_entered;
use books::SessionRight;
use front::Pass;
use page_halves::{keep_lower, upper_half};
use page_ops::{Entered, Entering, Group, Held, Life, Pages, Rights};
use page_rows::copied_state;
use smo::{ask, put_made};
use std::alloc::Global;
use std::sync::Wait;
use store_model::{Fault, Key, List, Memory, PageNo};
use wal_record::{Entry, PageState, Record, Split};

/// Splits the leaf of a key, which is in hand and has no tombstone, since the new value doesn't fit into it, and enters the
/// split and the change of the key's row in one group, a write with its answer. The key gets its new value in the half
/// whose own part has it; the upper half is a new page, which is put into the frame that is reserved for it. What is
/// answered is as `write_leaf` says. Where the group isn't entered the leaf is as before, and the frame is still reserved.
pub fn split_leaf<N: Life, J: Entering<N>, P: Pages<N, J>, R: Wait>(
    rt: &R,
    alloc: Global,
    pages: &mut P,
    journal: &mut J,
    leaf: &mut Held<N>,
    owner: &mut Option<SessionRight<N>>,
    change: &Change,
    pass: &mut Pass<Entry, N>,
) -> Result<Entered, Fault>
    requires begins { IsPrefix leaf.old.pass.log pass.old.log }
    requires may { MayChange N.opens pass.old.log leaf.old.state change.now owner.old }
    requires leaf { IsLeafOf change.now.key leaf.old.state }
    requires purged { has_tombstone leaf.old.state ≡ false }
    requires full { page_room < state_size (with_value change.now.key change.now.new leaf.old.state) }
    requires reserved { (P.desk pages.old).reserves ≡ true }
    ensures split { SplitsLeaf N.opens N.entries N.session_entries (split_change_group change.now owner.old leaf.old.page leaf.old.state) change.now.key change.now.new pass.new leaf.old leaf.new result (known (J.account journal.old) pass.old (claims_of leaf.old owner.old)) (known (J.account journal.new) pass.new (claims_of leaf.new owner.new)) }
    ensures same { UnlessEntered result (leaf.new ≡ leaf.old) }
    ensures owner { KeepsOwner result owner.old owner.new }
    ensures answer { IfOk result (IsAnswer N.opens pass.new.log (split_change_group change.now owner.old leaf.old.page leaf.old.state)) }
    ensures full { IfErr result (IsFull N.opens pass.new.log (split_change_group change.now owner.old leaf.old.page leaf.old.state)) }
    ensures desk { P.desk pages.new ≡ desk_behind (P.desk pages.old) result }
    ensures refused { IfErr result (FailsToEnter OrFull) }
    ensures ends { Ends N.opens N.log_faults N.made (J.account journal.old) (J.account journal.new) pass.new.log result }
{
    change.read();
    let halves = halves_with(alloc, &leaf.state, change);
    let made = group_of(alloc, &leaf.state, &halves, owner, leaf.page, change);
    let mut rights = Rights::none();
    rights.a = leaf.right.take();
    rights.s = owner.take();
    let answer = ask(rt, alloc, journal, made, &mut rights, pass);
    *owner = rights.s.take();
    let Some(right) = rights.a.take() else {
        unreachable!()
    };
    leaf.lsn = right.lsn();
    leaf.right = Some(right);
    if !is_entered(&answer) {
        return answer;
    }
    let Ok(Halves { lower, upper }) = halves else {
        unreachable!()
    };
    let Some(right) = rights.c.take() else {
        unreachable!()
    };
    leaf.state = with_child(lower, right.page());
    leaf.pass = pass.copy(&journal.ground().board);
    leaf.dirty = true;
    put_made(rt, pages, upper, right, pass.copy(&journal.ground().board));
    answer
}

/// The halves of a leaf, with the new value in the one whose own part has the key.
#[derive(Drop)]
struct Halves {
    lower: PageState,
    upper: PageState,
}

/// Both halves. As long as the number of the new page isn't known, it goes by the least one that it may have.
fn halves_with(alloc: Global, state: &PageState, change: &Change) -> Result<Halves, Memory>
    requires keeps { KeepsState state.now }
    requires leaf { IsLeafOf change.now.key state.now }
    requires purged { has_tombstone state.now ≡ false }
    requires full { page_room < state_size (with_value change.now.key change.now.new state.now) }
    ensures lower { IfOk result (λ halves. halves.lower ≡ lower_written 2 change.now.key change.now.new state.now) }
    ensures upper { IfOk result (λ halves. halves.upper ≡ upper_written change.now.key change.now.new state.now) }
{
    change.read();
    let upper = upper_half(alloc, state)?;
    let mut lower = copied_state(alloc, state)?;
    keep_lower(alloc, &mut lower, 2);
    if upper.low.is_above(&change.key) {
        let lower = with_row(alloc, lower, &change.key, &change.new)?;
        return Ok(Halves { lower, upper });
    }
    let upper = with_row(alloc, upper, &change.key, &change.new)?;
    Ok(Halves { lower, upper })
}

/// The page with this number for its foster child.
fn with_child(mut state: PageState, child: PageNo) -> PageState
    ensures { result ≡ numbered child state }
{
    if let Some(foster) = &mut state.foster {
        foster.child = child;
    }
    state
}

/// The group of the split and the change, with what the journal fills in left open, where there was memory for the halves.
fn group_of<N: Life>(
    alloc: Global,
    state: &PageState,
    halves: &Result<Halves, Memory>,
    owner: &Option<SessionRight<N>>,
    page: PageNo,
    change: &Change,
) -> Result<Group, Memory>
    requires keeps { KeepsState state.now }
    requires leaf { IsLeafOf change.now.key state.now }
    requires purged { has_tombstone state.now ≡ false }
    requires full { page_room < state_size (with_value change.now.key change.now.new state.now) }
    ensures is { IfOk result (λ group. group ≡ split_change_group change.now owner.now page state.now) }
    ensures made { IfOk result (λ group. IsOk halves.now) }
{
    change.read();
    let Ok(_) = halves else {
        return Err(Memory);
    };
    let upper = upper_half(alloc, state)?;
    let half = half_page(page, &upper, &change.key);
    let mut recs = List::new(alloc);
    recs.push(Record::Split(Split {
        page,
        page_prev: 0,
        child: 0,
        child_state: upper,
    }))?;
    recs.push(change.on(half))?;
    Ok(Group {
        recs,
        said: change.said(owner),
        room: change.is_told(),
        lsn: 0,
    })
}

/// The page, or the number by which the new one goes in the group: whichever half has the key.
fn half_page(page: PageNo, upper: &PageState, key: &Key) -> PageNo
    ensures { result ≡ (if is_below (Some key.now) upper.now.low then page else 0) }
{
    if upper.low.is_above(key) { page } else { 0 }
}
