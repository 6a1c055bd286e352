//! Reading the rows of a page.
ghost use Rattle.std.specs.Prelude.{◌≡◌, ◌≤◌, ◌+◌, ℕ, List, [], length, IfOk, Some};
ghost use Rattle.std.specs.List.{sum_by};
ghost use Rattle.std.specs.Int.{w16};
ghost use Rattle.store_model.specs.Range.{Interval};
ghost use Rattle.wal_record.specs.State.{leaf_row_size, branch_row_size, page_room};
ghost use Rattle.wal_record.specs.Reading.{number_at, text_at, key_follows, row_key_at, flag_at, row_value_at, leaf_row_at, separator_follows, separator_at, branch_row_at, is_row_count, items_at, rows_at};
ghost use Rattle.state_codec.specs.Gives.{Gives};

use crate::fault::FieldFault;
use crate::field::{argument_at, child_at, key_at, u16_in_front, value_at};
use crate::state::bound_of;
use std::alloc::Global;
use store_model::{Bound, Key, List, OpValue, STATE_BYTES, Value};
use wal_record::{BranchRow, LeafRow, Rows};

fn key_follows(low: &Bound, end: &Bound, before: &[LeafRow], key: &Key) -> bool
    ensures { result ≡ key_follows (record { low = low.now; high = end.now }) before.now key.now }
{
    let inside = !low.is_above(key) && end.is_above(key);
    match before.last() {
        None => inside,
        Some(row) => inside && row.key.cmp(key).is_lt(),
    }
}

/// A key of the part, above that of the row before it.
#[tactic(auto, unfolding(wal_record::specs::Reading::row_key_at))]
fn row_key_at<'a>(
    low: &Bound,
    end: &Bound,
    before: &[LeafRow],
    bytes: &'a [u8],
) -> Result<(Key, &'a [u8]), FieldFault>
    ensures { Gives (λ x. (x.0, x.1.now)) result (row_key_at (record { low = low.now; high = end.now }) before.now bytes.now) }
{
    let (key, rest) = key_at(bytes)?;
    if !key_follows(low, end, before, &key) {
        return Err(FieldFault::Bad { left: bytes.len() });
    }
    Ok((key, rest))
}

#[tactic(auto, unfolding(wal_record::specs::Reading::flag_at))]
fn flag_at(bytes: &[u8]) -> Result<(bool, &[u8]), FieldFault>
    ensures { Gives (λ x. (x.0, x.1.now)) result (flag_at bytes.now) }
{
    match bytes {
        [0, rest @ ..] => Ok((false, rest)),
        [1, rest @ ..] => Ok((true, rest)),
        _ => Err(FieldFault::Bad { left: bytes.len() }),
    }
}

/// The value of a row; a tombstone has the empty one.
#[tactic(auto, unfolding(wal_record::specs::Reading::row_value_at))]
fn row_value_at(tombstone: bool, bytes: &[u8]) -> Result<(Value, &[u8]), FieldFault>
    ensures { Gives (λ x. (x.0, x.1.now)) result (row_value_at tombstone bytes.now) }
{
    let (value, rest) = value_at(bytes)?;
    if tombstone && !value.as_bytes().is_empty() {
        return Err(FieldFault::Bad { left: bytes.len() });
    }
    Ok((value, rest))
}

fn leaf_row_bytes(row: &LeafRow) -> usize
    ensures size { result ≡ leaf_row_size row.now }
    ensures small { result ≤ 324 }
{
    4 + row.key.as_bytes().len() + row.value.as_bytes().len()
}

/// A row of a leaf that is `taken` bytes long with the rows before it.
#[tactic(auto, unfolding(wal_record::specs::Reading::leaf_row_at))]
fn leaf_row_at<'a>(
    low: &Bound,
    end: &Bound,
    _used: usize,
    taken: usize,
    before: &[LeafRow],
    bytes: &'a [u8],
) -> Result<(LeafRow, &'a [u8]), FieldFault>
    requires so_far { taken ≡ _used + sum_by leaf_row_size before.now }
    requires small { taken ≤ page_room }
    ensures size { IfOk result (λ x. taken + leaf_row_size x.0 ≤ page_room) }
    ensures row { Gives (λ x. (x.0, x.1.now)) result (leaf_row_at (record { low = low.now; high = end.now }) _used before.now bytes.now) }
{
    let (key, rest) = row_key_at(low, end, before, bytes)?;
    let (tombstone, rest) = flag_at(rest)?;
    let (value, rest) = row_value_at(tombstone, rest)?;
    let row = LeafRow {
        key,
        tombstone,
        value,
    };
    if taken + leaf_row_bytes(&row) > STATE_BYTES {
        return Err(FieldFault::Bad { left: bytes.len() });
    }
    Ok((row, rest))
}

fn separator_follows(low: &Bound, end: &Bound, before: &[BranchRow], at: &Bound) -> bool
    ensures { (text : List ℕ) → at.now ≡ Some text → result ≡ separator_follows (record { low = low.now; high = end.now }) before.now text }
{
    match before.last() {
        None => !(at.is_below(low) || low.is_below(at)) && at.is_below(end),
        Some(row) => row.low.is_below(at) && at.is_below(end),
    }
}

/// A separator: the first is the low fence, each other one is above the one before it.
#[tactic(auto, unfolding(wal_record::specs::Reading::separator_at))]
fn separator_at<'a>(
    low: &Bound,
    end: &Bound,
    before: &[BranchRow],
    bytes: &'a [u8],
) -> Result<(OpValue, &'a [u8]), FieldFault>
    ensures { Gives (λ x. (x.0, x.1.now)) result (separator_at (record { low = low.now; high = end.now }) before.now bytes.now) }
{
    let (text, rest) = argument_at(bytes)?;
    if !separator_follows(low, end, before, &bound_of(&text)) {
        return Err(FieldFault::Bad { left: bytes.len() });
    }
    Ok((text, rest))
}

/// A row of a branch that is `taken` bytes long with the rows before it, and the bytes of the row.
#[tactic(auto, unfolding(wal_record::specs::Reading::branch_row_at))]
fn branch_row_at<'a>(
    low: &Bound,
    end: &Bound,
    _used: usize,
    taken: usize,
    before: &[BranchRow],
    bytes: &'a [u8],
) -> Result<(BranchRow, usize, &'a [u8]), FieldFault>
    requires so_far { taken ≡ _used + sum_by branch_row_size before.now }
    requires small { taken ≤ page_room }
    ensures size { IfOk result (λ x. (x.1 ≡ branch_row_size x.0) × (taken + x.1 ≤ page_room)) }
    ensures row { Gives (λ x. (x.0, x.2.now)) result (branch_row_at (record { low = low.now; high = end.now }) _used before.now bytes.now) }
{
    let (text, rest) = separator_at(low, end, before, bytes)?;
    let (child, rest) = child_at(rest)?;
    let size = 5 + text.as_bytes().len();
    if taken + size > STATE_BYTES {
        return Err(FieldFault::Bad { left: bytes.len() });
    }
    let low = bound_of(&text);
    Ok((BranchRow { low, child }, size, rest))
}

/// How many rows there are; a branch has at least one.
#[tactic(auto, unfolding(wal_record::specs::Reading::number_at))]
fn row_count_at(level: u8, bytes: &[u8]) -> Result<(u16, &[u8]), FieldFault>
    ensures { Gives (λ x. (x.0, x.1.now)) result (number_at w16 (is_row_count level) bytes.now) }
{
    match u16_in_front(bytes) {
        Some((count, rest)) if level == 0 || count >= 1 => Ok((count, rest)),
        _ => Err(FieldFault::Bad { left: bytes.len() }),
    }
}

fn leaf_rows<'a>(
    alloc: Global,
    low: &Bound,
    end: &Bound,
    used: usize,
    count: u16,
    bytes: &'a [u8],
) -> Result<(List<LeafRow>, &'a [u8]), FieldFault>
    requires { used ≤ 204 }
    ensures { Gives (λ x. (x.0, x.1.now)) result (items_at (leaf_row_at (record { low = low.now; high = end.now }) used) count [] bytes.now) }
{
    let mut found = List::new(alloc);
    let mut rest = bytes;
    let mut taken = used;
    for _ in 0..count {
        let (item, after) = leaf_row_at(low, end, used, taken, found.as_slice(), rest)?;
        taken += leaf_row_bytes(&item);
        found.push(item)?;
        rest = after;
    }
    Ok((found, rest))
}

fn branch_rows<'a>(
    alloc: Global,
    low: &Bound,
    end: &Bound,
    used: usize,
    count: u16,
    bytes: &'a [u8],
) -> Result<(List<BranchRow>, &'a [u8]), FieldFault>
    requires { used ≤ 204 }
    ensures { Gives (λ x. (x.0, x.1.now)) result (items_at (branch_row_at (record { low = low.now; high = end.now }) used) count [] bytes.now) }
{
    let mut found = List::new(alloc);
    let mut rest = bytes;
    let mut taken = used;
    for _ in 0..count {
        let (item, size, after) = branch_row_at(low, end, used, taken, found.as_slice(), rest)?;
        taken += size;
        found.push(item)?;
        rest = after;
    }
    Ok((found, rest))
}

/// The count and the rows of a state of this level and own part, which is `used` bytes long without them.
#[tactic(auto, unfolding(wal_record::specs::Reading::rows_at, wal_record::specs::Reading::list_at))]
pub fn rows_at<'a>(
    alloc: Global,
    level: u8,
    low: &Bound,
    end: &Bound,
    used: usize,
    bytes: &'a [u8],
) -> Result<(Rows, &'a [u8]), FieldFault>
    requires { used ≤ 204 }
    ensures { Gives (λ x. (x.0, x.1.now)) result (rows_at level (record { low = low.now; high = end.now }) used bytes.now) }
{
    let (count, rest) = row_count_at(level, bytes)?;
    if level == 0 {
        let (rows, rest) = leaf_rows(alloc, low, end, used, count, rest)?;
        Ok((Rows::Leaf(rows), rest))
    } else {
        let (rows, rest) = branch_rows(alloc, low, end, used, count, rest)?;
        Ok((Rows::Branch(rows), rest))
    }
}
