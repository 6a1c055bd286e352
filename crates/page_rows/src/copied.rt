//! States, and parts of them, again, in memory of their own.
ghost use Rattle.std.specs.Prelude.{◌≡◌, IfOk, OnOk};

use std::alloc::Global;
use store_model::{Bound, List, Memory};
use wal_record::{BranchRow, Foster, LeafRow, PageState, Rows};

/// The same state again.
pub fn copied_state(alloc: Global, state: &PageState) -> Result<PageState, Memory>
    ensures { IfOk result (λ s. s ≡ state.now) }
{
    let rows = copied_rows(alloc, &state.rows)?;
    Ok(PageState {
        level: state.level,
        low: copied_bound(&state.low),
        high: copied_bound(&state.high),
        foster: copied_foster(&state.foster),
        rows,
    })
}

/// The same bound again; it takes no memory.
pub fn copied_bound(bound: &Bound) -> Bound
    ensures { result ≡ bound.now }
{
    match bound.as_bytes() {
        None => Bound::top(),
        Some(_) => match Bound::at(bound.text()) {
            Some(again) => again,
            None => Bound::top(),
        },
    }
}

/// The same foster pointer again; it takes no memory.
pub fn copied_foster(foster: &Option<Foster>) -> Option<Foster>
    ensures { result ≡ foster.now }
{
    match foster {
        None => None,
        Some(foster) => Some(Foster {
            key: foster.key.copied(),
            child: foster.child,
        }),
    }
}

fn copied_rows(alloc: Global, rows: &Rows) -> Result<Rows, Memory>
    ensures { IfOk result (λ r. r ≡ rows.now) }
{
    match rows {
        Rows::Leaf(rows) => {
            let rows = copied_leaf_rows(alloc, rows.as_slice())?;
            Ok(Rows::Leaf(rows))
        }
        Rows::Branch(rows) => {
            let rows = copied_branch_rows(alloc, rows.as_slice())?;
            Ok(Rows::Branch(rows))
        }
    }
}

/// The same rows of a leaf again.
pub fn copied_leaf_rows(alloc: Global, rows: &[LeafRow]) -> Result<List<LeafRow>, Memory>
    ensures { IfOk result (λ r. r ≡ rows.now) }
{
    let mut again = Vec::with_capacity(alloc, rows.len())?;
    for row in rows {
        again.push(LeafRow {
            key: row.key.copied(),
            tombstone: row.tombstone,
            value: row.value.copied(),
        })?;
    }
    Ok(List::from_vec(again))
}

/// The same rows of a branch again.
pub fn copied_branch_rows(alloc: Global, rows: &[BranchRow]) -> Result<List<BranchRow>, Memory>
    ensures { IfOk result (λ r. r ≡ rows.now) }
{
    let mut again = Vec::with_capacity(alloc, rows.len())?;
    for row in rows {
        again.push(BranchRow {
            low: copied_bound(&row.low),
            child: row.child,
        })?;
    }
    Ok(List::from_vec(again))
}
