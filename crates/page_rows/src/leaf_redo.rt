//! Records that change rows of a leaf.
ghost use Rattle.std.specs.Prelude.{◌≡◌, ◌≤◌, ◌<◌, ◌+◌, ◌↔◌, ◌⊎◌, length, filter, IfOk, OnErr, IfSome, IfNone, Some, None, true, is_some, ◌||◌, IsTrue, option_and_then, slice_get, if◌then◌else◌};
ghost use Rattle.std.specs.Option.{option_copied};
ghost use Rattle.std.specs.List.{sum_by, list_any};
ghost use Rattle.store_model.specs.Operator.{meaning};
ghost use Rattle.wal_record.specs.State.{KeepsState, has_own, own_end, leaf_row_size, leaf_rows, live_value, row_of, state_size, page_room};
ghost use Rattle.wal_record.specs.Images.{IsLeafOf, CanWrite, CanUndo, CanPurge, with_value, purged, is_live_row};
ghost use Rattle.page_rows.specs.Rows.{IsLeaf, IsSpot, row_count, IsWithin};
ghost use Rattle.page_rows.specs.Redo.{Changed, Always, placed, with_row, live_in, CanApplyTo, Placed, IsNoLonger, is_tombstone};

use crate::sizes::{leaf_row_bytes, state_bytes};
use crate::spot::{Spot, leaf_spot};
use operators::Operators;
use std::alloc::Global;
use std::mem;
use store_model::{Key, List, Memory, STATE_BYTES, Value};
use wal_record::{Apply, LeafRow, PageState, Rows, Undo, Write};

/// Redoes a write.
pub(crate) fn write(state: &mut PageState, write: &Write) -> Result<bool, Memory>
    requires { KeepsState state.old }
    ensures done { IfOk result (Changed (CanWrite write.now.key write.now.old) (with_value write.now.key write.now.new) state.old state.new) }
    ensures err { OnErr result (state.new ≡ state.old) }
{
    let Some(spot) = own_spot(state, &write.key) else {
        return Ok(false);
    };
    if !is_value(live_in(state, spot), &write.old) {
        return Ok(false);
    }
    put_row(state, spot, row_of(&write.key, &write.new))
}

/// Redoes an operator.
pub(crate) fn apply(
    state: &mut PageState,
    apply: &Apply,
    operators: &Operators,
) -> Result<bool, Memory>
    requires { KeepsState state.old }
    ensures done { IfOk result (Changed (CanApplyTo apply.now) (with_value apply.now.key (meaning apply.now.operator apply.now.old apply.now.argument)) state.old state.new) }
    ensures err { OnErr result (state.new ≡ state.old) }
{
    let Some(spot) = own_spot(state, &apply.key) else {
        return Ok(false);
    };
    if !is_value(live_in(state, spot), &apply.old) {
        return Ok(false);
    }
    let made = made_by(operators, apply);
    if made.is_none() {
        return Ok(false);
    }
    put_row(state, spot, row_of(&apply.key, &made))
}

/// What the operator makes of the old value.
fn made_by(operators: &Operators, apply: &Apply) -> Option<Value>
    ensures { result ≡ meaning apply.now.operator apply.now.old apply.now.argument }
{
    match operators.apply(apply.operator, apply.old.as_ref(), &apply.argument) {
        Some(made) => Value::new(made.as_bytes()),
        None => None,
    }
}

/// Redoes the taking back of a write.
pub(crate) fn undo(state: &mut PageState, undo: &Undo) -> Result<bool, Memory>
    requires { KeepsState state.old }
    ensures done { IfOk result (Changed (CanUndo undo.now.key undo.now.restores) (with_value undo.now.key undo.now.restores) state.old state.new) }
    ensures err { OnErr result (state.new ≡ state.old) }
{
    let Some(spot) = own_spot(state, &undo.key) else {
        return Ok(false);
    };
    if !is_change(&undo.restores, live_in(state, spot)) {
        return Ok(false);
    }
    put_row(state, spot, row_of(&undo.key, &undo.restores))
}

/// Where the key stands, if the page is a leaf whose own part has it.
fn own_spot(state: &PageState, key: &Key) -> Option<Spot>
    requires { KeepsState state.now }
    ensures some { IfSome result (λ spot. IsLeafOf key.now state.now × IsSpot key.now state.now.rows spot) }
    ensures none { IfNone result (IsLeafOf key.now state.now → ⊥) }
{
    match &state.rows {
        Rows::Leaf(rows) => {
            if has_own(state, key) {
                Some(leaf_spot(rows.as_slice(), key))
            } else {
                None
            }
        }
        Rows::Branch(_) => None,
    }
}

/// Whether the key lies in the page's own part.
pub(crate) fn has_own(state: &PageState, key: &Key) -> bool
    ensures { result ≡ has_own state.now key.now }
{
    let above = match &state.foster {
        Some(foster) => key.cmp(&foster.key).is_lt(),
        None => state.high.is_above(key),
    };
    !state.low.is_above(key) && above
}

/// The live value of the row at this spot.
fn live_in(state: &PageState, spot: Spot) -> Option<&Value>
    ensures { option_copied result ≡ live_in state.now.rows spot }
{
    match (&state.rows, spot) {
        (Rows::Leaf(rows), Spot::Here(i)) => match rows.as_slice().get(i) {
            Some(row) => {
                if row.tombstone {
                    None
                } else {
                    Some(&row.value)
                }
            }
            None => None,
        },
        _ => None,
    }
}

fn is_value(live: Option<&Value>, value: &Option<Value>) -> bool
    ensures { (result ≡ true) ↔ (option_copied live.entry ≡ value.now) }
{
    match (live, value) {
        (None, None) => true,
        (Some(live), Some(value)) => live == value,
        _ => false,
    }
}

/// Whether the key gets a value, or has one.
fn is_change(restores: &Option<Value>, live: Option<&Value>) -> bool
    ensures { result ≡ (is_some restores.now || is_some (option_copied live.entry)) }
{
    restores.is_some() || live.is_some()
}

/// The row of a key with this value, or its tombstone.
fn row_of(key: &Key, value: &Option<Value>) -> LeafRow
    ensures { result ≡ row_of key.now value.now }
{
    let key = key.copied();
    match value {
        Some(value) => LeafRow {
            key,
            tombstone: false,
            value: value.copied(),
        },
        None => LeafRow {
            key,
            tombstone: true,
            value: Value::empty(),
        },
    }
}

/// Puts a row at the spot of its key in a leaf, if it fits.
fn put_row(state: &mut PageState, spot: Spot, row: LeafRow) -> Result<bool, Memory>
    requires leaf { IsLeaf state.old.rows }
    requires size { state_size state.old ≤ page_room }
    requires place { IsWithin spot (row_count state.old.rows) }
    ensures done { IfOk result (Changed Always (with_row row spot) state.old state.new) }
    ensures err { OnErr result (state.new ≡ state.old) }
{
    let free = room_for(state, spot, &row);
    match &mut state.rows {
        Rows::Leaf(rows) => place(rows, free, spot, row),
        Rows::Branch(_) => Ok(false),
    }
}

/// By how many bytes the rows may grow where this row is put at its spot. A row that makes them no longer needs no room,
/// and the state isn't counted for it.
fn room_for(state: &PageState, spot: Spot, row: &LeafRow) -> usize
    requires leaf { IsLeaf state.now.rows }
    requires size { state_size state.now ≤ page_room }
    requires place { IsWithin spot (row_count state.now.rows) }
    ensures most { state_size state.now + result ≤ page_room }
    ensures all { (state_size state.now + result ≡ page_room) ⊎ IsNoLonger row.now spot state.now }
{
    if is_no_longer(state, spot, row) {
        0
    } else {
        STATE_BYTES - state_bytes(state)
    }
}

/// Whether a row takes the place of one that is as long.
fn is_no_longer(state: &PageState, spot: Spot, row: &LeafRow) -> bool
    ensures { result ≡ true → IsNoLonger row.now spot state.now }
{
    match (&state.rows, spot) {
        (Rows::Leaf(rows), Spot::Here(i)) => match rows.as_slice().get(i) {
            Some(old) => leaf_row_bytes(row) <= leaf_row_bytes(old),
            None => false,
        },
        _ => false,
    }
}

/// Puts a row at the spot of its key, if that makes the rows no more than `free` bytes longer.
fn place(rows: &mut List<LeafRow>, free: usize, spot: Spot, row: LeafRow) -> Result<bool, Memory>
    requires small { free ≤ page_room }
    requires place { IsWithin spot (length rows.old) }
    ensures done { IfOk result (Placed row spot free rows.old rows.new) }
    ensures err { OnErr result (rows.new ≡ rows.old) }
{
    match spot {
        Spot::Here(i) => {
            if leaf_row_bytes(&row) > free + leaf_row_bytes(&rows.as_slice()[i]) {
                return Ok(false);
            }
            rows.replace(i, row);
            Ok(true)
        }
        Spot::Gap(i) => {
            if leaf_row_bytes(&row) > free {
                return Ok(false);
            }
            rows.insert(i, row)?;
            Ok(true)
        }
    }
}

/// Redoes a purge. It takes no memory.
pub(crate) fn purge(alloc: Global, state: &mut PageState) -> bool
    requires { KeepsState state.old }
    ensures { Changed CanPurge purged state.old state.new result }
{
    match &mut state.rows {
        Rows::Leaf(rows) => purge_rows(alloc, rows),
        Rows::Branch(_) => false,
    }
}

fn purge_rows(alloc: Global, rows: &mut List<LeafRow>) -> bool
    ensures any { result ≡ list_any is_tombstone rows.old }
    ensures rows { rows.new ≡ filter is_live_row rows.old }
{
    if !has_tombstone(rows.as_slice()) {
        return false;
    }
    let all = mem::replace(rows, List::new(alloc)).into_vec();
    *rows = List::from_vec(live_of(all));
    true
}

fn has_tombstone(rows: &[LeafRow]) -> bool
    ensures { result ≡ list_any is_tombstone rows.now }
{
    rows.iter().any(|row| row.tombstone)
}

/// The rows that are no tombstones.
fn live_of(mut rows: Vec<LeafRow>) -> Vec<LeafRow>
    ensures { result.items ≡ filter is_live_row rows.items }
{
    rows.retain(|row| !row.tombstone);
    rows
}
