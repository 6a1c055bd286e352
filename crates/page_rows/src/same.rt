//! Whether two states are the same.
ghost use Rattle.std.specs.Prelude.{◌≡◌, ◌↔◌, true};

use store_model::Bound;
use wal_record::{BranchRow, Foster, LeafRow, PageState, Rows};

/// Whether two pages hold the same.
pub fn same_state(a: &PageState, b: &PageState) -> bool
    ensures { (result ≡ true) ↔ (a.now ≡ b.now) }
{
    a.level == b.level
        && same_bound(&a.low, &b.low)
        && same_bound(&a.high, &b.high)
        && same_foster(&a.foster, &b.foster)
        && same_rows(&a.rows, &b.rows)
}

pub fn same_bound(a: &Bound, b: &Bound) -> bool
    ensures { (result ≡ true) ↔ (a.now ≡ b.now) }
{
    a == b
}

pub fn same_foster(a: &Option<Foster>, b: &Option<Foster>) -> bool
    ensures { (result ≡ true) ↔ (a.now ≡ b.now) }
{
    match (a, b) {
        (None, None) => true,
        (Some(a), Some(b)) => a.key == b.key && a.child == b.child,
        _ => false,
    }
}

fn same_rows(a: &Rows, b: &Rows) -> bool
    ensures { (result ≡ true) ↔ (a.now ≡ b.now) }
{
    match (a, b) {
        (Rows::Leaf(a), Rows::Leaf(b)) => same_leaf_rows(a.as_slice(), b.as_slice()),
        (Rows::Branch(a), Rows::Branch(b)) => same_branch_rows(a.as_slice(), b.as_slice()),
        _ => false,
    }
}

pub fn same_leaf_rows(a: &[LeafRow], b: &[LeafRow]) -> bool
    ensures { (result ≡ true) ↔ (a.now ≡ b.now) }
{
    if a.len() != b.len() {
        return false;
    }
    for i in 0..a.len() {
        if !same_leaf_row(&a[i], &b[i]) {
            return false;
        }
    }
    true
}

fn same_leaf_row(a: &LeafRow, b: &LeafRow) -> bool
    ensures { (result ≡ true) ↔ (a.now ≡ b.now) }
{
    a.key == b.key && a.tombstone == b.tombstone && a.value == b.value
}

pub fn same_branch_rows(a: &[BranchRow], b: &[BranchRow]) -> bool
    ensures { (result ≡ true) ↔ (a.now ≡ b.now) }
{
    if a.len() != b.len() {
        return false;
    }
    for i in 0..a.len() {
        if !same_branch_row(&a[i], &b[i]) {
            return false;
        }
    }
    true
}

fn same_branch_row(a: &BranchRow, b: &BranchRow) -> bool
    ensures { (result ≡ true) ↔ (a.now ≡ b.now) }
{
    same_bound(&a.low, &b.low) && a.child == b.child
}
