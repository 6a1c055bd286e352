//! How many bytes a state has, and where it is split.
ghost use Rattle.std.specs.Prelude.{◌≡◌, ◌≤◌, map};
ghost use Rattle.std.specs.List.{sum_by};
ghost use Rattle.wal_record.specs.State.{leaf_row_size, branch_row_size, row_sizes, rows_size, high_size, foster_size, state_size, page_room, free_bytes, split_point};

use store_model::{Bound, STATE_BYTES};
use wal_record::{BranchRow, Foster, LeafRow, PageState, Rows};

/// How many bytes a state may grow by.
pub fn free_bytes(state: &PageState) -> u32
    requires { state_size state.now ≤ page_room }
    ensures { result ≡ free_bytes state.now }
{
    (STATE_BYTES - state_bytes(state)) as u32
}

/// How many bytes a state has.
pub(crate) fn state_bytes(state: &PageState) -> usize
    requires { state_size state.now ≤ page_room }
    ensures { result ≡ state_size state.now }
{
    4 + state.low.text().len()
        + high_bytes(&state.high)
        + foster_bytes(&state.foster)
        + rows_bytes(&state.rows)
}

pub(crate) fn high_bytes(high: &Bound) -> usize
    ensures size { result ≡ high_size high.now }
    ensures small { result ≤ 67 }
{
    match high.as_bytes() {
        None => 1,
        Some(_) => 2 + high.text().len(),
    }
}

fn foster_bytes(foster: &Option<Foster>) -> usize
    ensures size { result ≡ foster_size foster.now }
    ensures small { result ≤ 70 }
{
    match foster {
        None => 1,
        Some(foster) => 6 + foster.key.as_bytes().len(),
    }
}

fn rows_bytes(rows: &Rows) -> usize
    requires { rows_size rows.now ≤ page_room }
    ensures { result ≡ rows_size rows.now }
{
    match rows {
        Rows::Leaf(rows) => leaf_rows_bytes(rows.as_slice()),
        Rows::Branch(rows) => branch_rows_bytes(rows.as_slice()),
    }
}

pub(crate) fn leaf_rows_bytes(rows: &[LeafRow]) -> usize
    requires { sum_by leaf_row_size rows.now ≤ page_room }
    ensures { result ≡ sum_by leaf_row_size rows.now }
{
    let mut sum = 0;
    for row in rows {
        sum += leaf_row_bytes(row);
    }
    sum
}

pub(crate) fn branch_rows_bytes(rows: &[BranchRow]) -> usize
    requires { sum_by branch_row_size rows.now ≤ page_room }
    ensures { result ≡ sum_by branch_row_size rows.now }
{
    let mut sum = 0;
    for row in rows {
        sum += branch_row_bytes(row);
    }
    sum
}

pub(crate) fn leaf_row_bytes(row: &LeafRow) -> usize
    ensures size { result ≡ leaf_row_size row.now }
    ensures small { result ≤ 324 }
{
    4 + row.key.as_bytes().len() + row.value.as_bytes().len()
}

pub(crate) fn branch_row_bytes(row: &BranchRow) -> usize
    ensures size { result ≡ branch_row_size row.now }
    ensures small { result ≤ 70 }
{
    5 + row.low.text().len()
}

/// How many of the rows a split keeps below: the fewest that have at least half of all row bytes.
pub fn split_point(state: &PageState) -> usize
    requires { rows_size state.now.rows ≤ page_room }
    ensures { result ≡ split_point (row_sizes state.now.rows) }
{
    match &state.rows {
        Rows::Leaf(rows) => leaf_split_point(rows.as_slice()),
        Rows::Branch(rows) => branch_split_point(rows.as_slice()),
    }
}

fn leaf_split_point(rows: &[LeafRow]) -> usize
    requires { sum_by leaf_row_size rows.now ≤ page_room }
    ensures { result ≡ split_point (map leaf_row_size rows.now) }
{
    let all = leaf_rows_bytes(rows);
    let mut kept = 0;
    for i in 0..rows.len() {
        if all <= 2 * kept {
            return i;
        }
        kept += leaf_row_bytes(&rows[i]);
    }
    rows.len()
}

fn branch_split_point(rows: &[BranchRow]) -> usize
    requires { sum_by branch_row_size rows.now ≤ page_room }
    ensures { result ≡ split_point (map branch_row_size rows.now) }
{
    let all = branch_rows_bytes(rows);
    let mut kept = 0;
    for i in 0..rows.len() {
        if all <= 2 * kept {
            return i;
        }
        kept += branch_row_bytes(&rows[i]);
    }
    rows.len()
}
