//! The state of a page against its rules.
ghost use Rattle.std.specs.Prelude.{◌≡◌, ◌≤◌, ◌+◌, ◌↔◌, IsTrue};
ghost use Rattle.std.specs.List.{sum_by};
ghost use Rattle.wal_record.specs.State.{KeepsState, branch_row_size, foster_size, high_size, leaf_row_size, page_room, rows_size, state_size, text_of};

use fence_check::check_page;
use store_model::{Bound, STATE_BYTES};
use wal_record::{BranchRow, Foster, LeafRow, PageState, Rows};

fn high_bytes(high: &Bound) -> usize
    ensures size { result ≡ high_size high.now }
    ensures small { result ≤ 67 }
{
    match high.as_bytes() {
        None => 1,
        Some(_) => 2 + high.text().len(),
    }
}

fn foster_bytes(foster: &Option<Foster>) -> usize
    ensures size { result ≡ foster_size foster.now }
    ensures small { result ≤ 70 }
{
    match foster {
        None => 1,
        Some(foster) => 6 + foster.key.as_bytes().len(),
    }
}

fn leaf_row_bytes(row: &LeafRow) -> usize
    ensures size { result ≡ leaf_row_size row.now }
    ensures small { result ≤ 324 }
{
    4 + row.key.as_bytes().len() + row.value.as_bytes().len()
}

fn branch_row_bytes(row: &BranchRow) -> usize
    ensures size { result ≡ branch_row_size row.now }
    ensures small { result ≤ 70 }
{
    5 + row.low.text().len()
}

/// Whether the rows have at most so many bytes together.
fn leaf_rows_fit(rows: &[LeafRow], most: usize) -> bool
    ensures { IsTrue result ↔ (sum_by leaf_row_size rows.now ≤ most) }
{
    let mut left = most;
    for row in rows {
        let bytes = leaf_row_bytes(row);
        if bytes > left {
            return false;
        }
        left -= bytes;
    }
    true
}

/// Whether the rows have at most so many bytes together.
fn branch_rows_fit(rows: &[BranchRow], most: usize) -> bool
    ensures { IsTrue result ↔ (sum_by branch_row_size rows.now ≤ most) }
{
    let mut left = most;
    for row in rows {
        let bytes = branch_row_bytes(row);
        if bytes > left {
            return false;
        }
        left -= bytes;
    }
    true
}

fn rows_fit(rows: &Rows, most: usize) -> bool
    ensures { IsTrue result ↔ (rows_size rows.now ≤ most) }
{
    match rows {
        Rows::Leaf(rows) => leaf_rows_fit(rows.as_slice(), most),
        Rows::Branch(rows) => branch_rows_fit(rows.as_slice(), most),
    }
}

/// Whether the state has no more bytes than a page has room for.
fn is_short(state: &PageState) -> bool
    ensures { IsTrue result ↔ (state_size state.now ≤ page_room) }
{
    let frame = 4 + state.low.text().len() + high_bytes(&state.high) + foster_bytes(&state.foster);
    rows_fit(&state.rows, STATE_BYTES - frame)
}

/// Whether the state keeps the rules of a state.
pub fn keeps_state(state: &PageState) -> bool
    ensures { IsTrue result ↔ KeepsState state.now }
{
    match check_page(state) {
        Ok(()) => is_short(state),
        Err(_) => false,
    }
}
