//! The row of a branch that leads to a key.
ghost use Rattle.std.specs.Prelude.{◌≡◌, ◌<◌, Some, IsTrue, length, slice_get};
ghost use Rattle.std.specs.Option.{option_map};
ghost use Rattle.wal_record.specs.State.{KeepsState, branch_below, branch_rows, child_at, has_own, rises};
ghost use Rattle.wal_record.specs.declared.page.BranchRow.{BranchRow};
ghost use Rattle.wal_record.specs.declared.page.Rows.TheVariants.{Branch};
ghost use Rattle.page_rows.specs.Rows.{IsSpot, IsSpotIn, Rise, branch_at, bound_cmp};
ghost use Rattle.foster_laws.specs.Descents.{CoversAt};

use page_rows::Spot;
use std::cmp::Ordering;
use store_model::{Bound, PageNo};
use text_order::compare_texts;
use wal_record::{BranchRow, PageState, Rows};

/// The place of the row that covers a key of the own part, or any other text there.
pub fn slot_of(state: &PageState, key: &[u8]) -> usize
    requires keeps { KeepsState state.now }
    requires branch { state.now.rows ≡ Branch (branch_rows state.now.rows) }
    requires own { IsTrue (has_own state.now key.now) }
    ensures { CoversAt state.now key.now result }
{
    match separator_spot(&state.rows, key) {
        Spot::Here(i) => i,
        Spot::Gap(i) => i - 1,
    }
}

/// The child that covers a key of the own part, or any other text there.
pub fn child_of(state: &PageState, key: &[u8]) -> PageNo
    requires keeps { KeepsState state.now }
    requires branch { state.now.rows ≡ Branch (branch_rows state.now.rows) }
    requires own { IsTrue (has_own state.now key.now) }
    ensures { child_at key.now (branch_rows state.now.rows) ≡ Some result }
{
    let slot = slot_of(state, key);
    child_in(&state.rows, slot)
}

/// Where a text stands among the separators of a branch.
fn separator_spot(rows: &Rows, key: &[u8]) -> Spot
    requires rise { Rise rows.now }
    requires branch { rows.now ≡ Branch (branch_rows rows.now) }
    ensures { IsSpot key.now rows.now result }
{
    match rows {
        Rows::Branch(rows) => spot_in(rows.as_slice(), key),
        Rows::Leaf(_) => Spot::Gap(0),
    }
}

fn spot_in(rows: &[BranchRow], key: &[u8]) -> Spot
    requires { IsTrue (rises branch_below rows.now) }
    ensures { IsSpotIn branch_at key.now rows.now result }
{
    match rows.binary_search_by(|row| order(&row.low, key)) {
        Ok(i) => Spot::Here(i),
        Err(i) => Spot::Gap(i),
    }
}

/// How a bound stands to a text. The top is above all texts.
fn order(bound: &Bound, key: &[u8]) -> Ordering
    ensures { result ≡ bound_cmp bound.now key.now }
{
    match bound.as_bytes() {
        None => Ordering::Greater,
        Some(text) => compare_texts(text, key),
    }
}

/// The child in a slot of a branch.
pub fn child_in(rows: &Rows, slot: usize) -> PageNo
    requires { slot < length (branch_rows rows.now) }
    ensures { option_map (λ (row : BranchRow). row.child) (slice_get (branch_rows rows.now) slot) ≡ Some result }
{
    match rows {
        Rows::Branch(rows) => rows.as_slice()[slot].child,
        Rows::Leaf(_) => 0,
    }
}
