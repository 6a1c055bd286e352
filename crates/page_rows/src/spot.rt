//! Where a key stands among the rows of a page.
ghost use Rattle.std.specs.Prelude.{◌≡◌, IsTrue};
ghost use Rattle.wal_record.specs.State.{rises, leaf_below, branch_below};
ghost use Rattle.page_rows.specs.Rows.{Rise, IsSpot, IsSpotIn, leaf_at, branch_at, bound_cmp};

use std::cmp::Ordering;
use store_model::{Bound, Key};
use text_order::compare_texts;
use wal_record::{BranchRow, LeafRow, PageState, Rows};

/// Where a key stands among rows: at the row of this place, or before it in the gap that ends there.
#[derive(Clone, Copy, Debug, PartialEq, Eq)]
pub enum Spot {
    Here(usize),
    Gap(usize),
}

/// Where a key stands among the rows of a page, of a leaf by its keys, of a branch by its separators. It looks at as
/// many rows as the number of rows has binary digits.
pub fn search(state: &PageState, key: &Key) -> Spot
    requires rise { Rise state.now.rows }
    ensures spot { IsSpot key.now state.now.rows result }
{
    match &state.rows {
        Rows::Leaf(rows) => leaf_spot(rows.as_slice(), key),
        Rows::Branch(rows) => branch_spot(rows.as_slice(), key),
    }
}

pub(crate) fn leaf_spot(rows: &[LeafRow], key: &Key) -> Spot
    requires { IsTrue (rises leaf_below rows.now) }
    ensures { IsSpotIn leaf_at key.now rows.now result }
{
    match rows.binary_search_by(|row| compare_texts(row.key.as_bytes(), key.as_bytes())) {
        Ok(i) => Spot::Here(i),
        Err(i) => Spot::Gap(i),
    }
}

pub(crate) fn branch_spot(rows: &[BranchRow], key: &Key) -> Spot
    requires { IsTrue (rises branch_below rows.now) }
    ensures { IsSpotIn branch_at key.now rows.now result }
{
    match rows.binary_search_by(|row| order(&row.low, key)) {
        Ok(i) => Spot::Here(i),
        Err(i) => Spot::Gap(i),
    }
}

/// How a bound stands to a key. The top is above all keys.
fn order(bound: &Bound, key: &Key) -> Ordering
    ensures { result ≡ bound_cmp bound.now key.now }
{
    match bound.as_bytes() {
        None => Ordering::Greater,
        Some(text) => compare_texts(text, key.as_bytes()),
    }
}
