//! Records that split a page, or grow the root: they move rows to a new page.
ghost use Rattle.std.specs.Prelude.{◌≡◌, ◌≤◌, ◌<◌, ◌+◌, ◌↔◌, length, take, None, Some, IfOk, OnErr, IfSome, IfNone, IsTrue, true, false, ◌∷◌, []};
ghost use Rattle.std.specs.List.{sum_by};
ghost use Rattle.std.specs.List.Sorted.{IsPartitionPoint};
ghost use Rattle.store_model.specs.Range.{is_below};
ghost use Rattle.wal_record.specs.State.{KeepsState, rises, leaf_below, branch_below, leaf_row_size, branch_row_size, rows_size, high_size, text_of, state_size, page_room};
ghost use Rattle.wal_record.specs.Images.{CanSplit, CanGrow, lower_half, grown, lower_rows, leaf_under, branch_under};
ghost use Rattle.page_rows.specs.Rows.{Rise};
ghost use Rattle.page_rows.specs.Redo.{Changed, IsCut, CanCut, first_rows, Made, IsSameFrame};
ghost use Rattle.wal_record.specs.declared.page.Rows.TheVariants.{Leaf, Branch};

use crate::copied::copied_state;
use crate::same::{same_bound, same_branch_rows, same_foster, same_leaf_rows, same_state};
use crate::sizes::{branch_rows_bytes, high_bytes, leaf_rows_bytes};
use std::alloc::Global;
use std::mem;
use store_model::{Bound, Key, List, Memory, PageNo, STATE_BYTES};
use wal_record::{BranchRow, Foster, Grow, LeafRow, PageState, Rows, Split};

/// Makes the new page of a split or of a grown root.
pub(crate) fn make(
    alloc: Global,
    state: &mut Option<PageState>,
    made: &PageState,
) -> Result<bool, Memory>
    ensures done { IfOk result (Made made.now state.old state.new) }
    ensures err { OnErr result (state.new ≡ state.old) }
{
    if state.is_some() {
        return Ok(false);
    }
    *state = Some(copied_state(alloc, made)?);
    Ok(true)
}

/// Redoes a split of the page that keeps its lower rows. It takes no memory.
pub(crate) fn split(alloc: Global, state: &mut PageState, split: &Split) -> bool
    requires rules { KeepsState state.old }
    requires child { KeepsState split.now.child_state }
    ensures { Changed (CanSplit split.now) (lower_half split.now) state.old state.new result }
{
    let child = &split.child_state;
    if !same_frame(child, state) {
        return false;
    }
    let Some(kept) = cut_point(&state.rows, &child.low, &child.rows) else {
        return false;
    };
    let Some(key) = Key::new(child.low.text()) else {
        return false;
    };
    if halved_bytes(state, &key, kept) > STATE_BYTES {
        return false;
    }
    keep_first(alloc, &mut state.rows, kept);
    state.foster = Some(Foster {
        key,
        child: split.child,
    });
    true
}

fn same_frame(child: &PageState, state: &PageState) -> bool
    ensures { (result ≡ true) ↔ IsSameFrame child.now state.now }
{
    child.level == state.level
        && same_bound(&child.high, &state.high)
        && same_foster(&child.foster, &state.foster)
}

/// How many bytes a state has that keeps its first rows and gets a foster child at this key.
fn halved_bytes(state: &PageState, key: &Key, kept: usize) -> usize
    requires { state_size state.now ≤ page_room }
    ensures { result ≡ 10 + length (text_of state.now.low) + high_size state.now.high + length key.now + rows_size (first_rows kept state.now.rows) }
{
    10 + state.low.text().len()
        + high_bytes(&state.high)
        + key.as_bytes().len()
        + first_rows_bytes(&state.rows, kept)
}

/// How many rows stand below a bound, if the others are these, and some stand on either side.
fn cut_point(rows: &Rows, at: &Bound, upper: &Rows) -> Option<usize>
    requires { Rise rows.now }
    ensures some { IfSome result (IsCut at.now rows.now upper.now) }
    ensures none { IfNone result (CanCut at.now rows.now upper.now → ⊥) }
{
    match (rows, upper) {
        (Rows::Leaf(rows), Rows::Leaf(upper)) => {
            leaf_cut_point(rows.as_slice(), at, upper.as_slice())
        }
        (Rows::Branch(rows), Rows::Branch(upper)) => {
            branch_cut_point(rows.as_slice(), at, upper.as_slice())
        }
        _ => None,
    }
}

fn leaf_cut_point(rows: &[LeafRow], at: &Bound, upper: &[LeafRow]) -> Option<usize>
    requires { IsTrue (rises leaf_below rows.now) }
    ensures some { IfSome result (IsCut at.now (Leaf rows.now) (Leaf upper.now)) }
    ensures none { IfNone result (CanCut at.now (Leaf rows.now) (Leaf upper.now) → ⊥) }
{
    let kept = leaf_rows_below(rows, at);
    if kept == 0 {
        return None;
    }
    if kept == rows.len() {
        return None;
    }
    let (_, others) = rows.split_at(kept);
    if !same_leaf_rows(others, upper) {
        return None;
    }
    Some(kept)
}

fn branch_cut_point(rows: &[BranchRow], at: &Bound, upper: &[BranchRow]) -> Option<usize>
    requires { IsTrue (rises branch_below rows.now) }
    ensures some { IfSome result (IsCut at.now (Branch rows.now) (Branch upper.now)) }
    ensures none { IfNone result (CanCut at.now (Branch rows.now) (Branch upper.now) → ⊥) }
{
    let kept = branch_rows_below(rows, at);
    if kept == 0 {
        return None;
    }
    if kept == rows.len() {
        return None;
    }
    let (_, others) = rows.split_at(kept);
    if !same_branch_rows(others, upper) {
        return None;
    }
    Some(kept)
}

fn leaf_rows_below(rows: &[LeafRow], at: &Bound) -> usize
    requires { IsTrue (rises leaf_below rows.now) }
    ensures within { result ≤ length rows.now }
    ensures below { IsPartitionPoint (λ row. leaf_under at.now row ≡ true) (λ row. leaf_under at.now row ≡ false) rows.now result }
{
    rows.partition_point(|row| at.is_above(&row.key))
}

fn branch_rows_below(rows: &[BranchRow], at: &Bound) -> usize
    requires { IsTrue (rises branch_below rows.now) }
    ensures within { result ≤ length rows.now }
    ensures below { IsPartitionPoint (λ row. branch_under at.now row ≡ true) (λ row. branch_under at.now row ≡ false) rows.now result }
{
    rows.partition_point(|row| row.low.is_below(at))
}

/// How many bytes the first rows have.
fn first_rows_bytes(rows: &Rows, n: usize) -> usize
    requires { rows_size rows.now ≤ page_room }
    ensures size { result ≡ rows_size (first_rows n rows.now) }
    ensures small { result ≤ page_room }
{
    match rows {
        Rows::Leaf(rows) => leaf_rows_bytes(first_of(rows.as_slice(), n)),
        Rows::Branch(rows) => branch_rows_bytes(first_of(rows.as_slice(), n)),
    }
}

/// At most the first n items.
fn first_of<X>(items: &[X], n: usize) -> &[X]
    ensures { result.now ≡ take n items.now }
{
    if n < items.len() {
        let (front, _) = items.split_at(n);
        front
    } else {
        items
    }
}

/// Drops all rows but the first n.
fn keep_first(alloc: Global, rows: &mut Rows, n: usize)
    ensures { rows.new ≡ first_rows n rows.old }
{
    match rows {
        Rows::Leaf(rows) => keep_first_items(alloc, rows, n),
        Rows::Branch(rows) => keep_first_items(alloc, rows, n),
    }
}

fn keep_first_items<X: Drop>(alloc: Global, items: &mut List<X>, n: usize)
    ensures { items.new ≡ take n items.old }
{
    let mut kept = mem::replace(items, List::new(alloc)).into_vec();
    kept.truncate(n);
    *items = List::from_vec(kept);
}

/// Redoes the growth of the root, whose content went to its new child.
pub(crate) fn grow(alloc: Global, state: &mut PageState, grow: &Grow) -> Result<bool, Memory>
    requires { KeepsState state.old }
    ensures done { IfOk result (Changed (CanGrow grow.now) (grown grow.now.child) state.old state.new) }
    ensures err { OnErr result (state.new ≡ state.old) }
{
    if state.foster.is_none() || state.level == 255 || !same_state(&grow.child_state, state) {
        return Ok(false);
    }
    let rows = only_child(alloc, grow.child)?;
    state.level += 1;
    state.low = bottom();
    state.high = Bound::top();
    state.foster = None;
    state.rows = Rows::Branch(rows);
    Ok(true)
}

/// The rows of a root with one child, which has all keys.
fn only_child(alloc: Global, child: PageNo) -> Result<List<BranchRow>, Memory>
    ensures { IfOk result (λ rows. rows ≡ record { low = Some []; child = child } ∷ []) }
{
    let mut rows = List::new(alloc);
    rows.push(BranchRow {
        low: bottom(),
        child,
    })?;
    Ok(rows)
}

/// The bound below all keys.
pub(crate) fn bottom() -> Bound
    ensures { result ≡ Some [] }
{
    match Bound::at(&[]) {
        Some(bound) => bound,
        None => Bound::top(),
    }
}
