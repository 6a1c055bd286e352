//! Whether a write fits into a leaf, and whether the leaf could be purged.
ghost use Rattle.std.specs.Prelude.{◌≡◌, ◌≤◌, length};
ghost use Rattle.std.specs.List.{list_any};
ghost use Rattle.wal_record.specs.State.{KeepsState, fits, leaf_rows, leaf_row_size, row_of};
ghost use Rattle.wal_record.specs.Images.{IsLeafOf, with_value};
ghost use Rattle.page_rows.specs.Rows.{IsWithin};
ghost use Rattle.foster_laws.specs.Purges.{has_tombstone, is_tombstone};
ghost use Rattle.page_halves.specs.Parts.{bytes_at};

use page_rows::{Spot, free_bytes, search};
use store_model::{Key, Value};
use wal_record::{LeafRow, PageState, Rows};

/// Whether the leaf fits with this value of the key, or with its tombstone.
pub fn fits_with(state: &PageState, key: &Key, value: &Option<Value>) -> bool
    requires keeps { KeepsState state.now }
    requires leaf { IsLeafOf key.now state.now }
    ensures { result ≡ fits (with_value key.now value.now state.now) }
{
    let free = free_bytes(state) as usize;
    let spot = search(state, key);
    row_bytes(key, value) <= free + bytes_at(&state.rows, spot)
}

/// How many bytes the row at a spot of a leaf has; none in a gap.
fn bytes_at(rows: &Rows, spot: Spot) -> usize
    requires { IsWithin spot (length (leaf_rows rows.now)) }
    ensures size { result ≡ bytes_at (leaf_rows rows.now) spot }
    ensures small { result ≤ 324 }
{
    match (rows, spot) {
        (Rows::Leaf(rows), Spot::Here(i)) => leaf_row_bytes(&rows.as_slice()[i]),
        _ => 0,
    }
}

fn row_bytes(key: &Key, value: &Option<Value>) -> usize
    ensures { result ≡ leaf_row_size (row_of key.now value.now) }
{
    match value {
        Some(value) => 4 + key.as_bytes().len() + value.as_bytes().len(),
        None => 4 + key.as_bytes().len(),
    }
}

fn leaf_row_bytes(row: &LeafRow) -> usize
    ensures size { result ≡ leaf_row_size row.now }
    ensures small { result ≤ 324 }
{
    4 + row.key.as_bytes().len() + row.value.as_bytes().len()
}

/// Whether the leaf has a tombstone.
pub fn has_tombstone(state: &PageState) -> bool
    ensures { result ≡ has_tombstone state.now }
{
    match &state.rows {
        Rows::Leaf(rows) => any_tombstone(rows.as_slice()),
        Rows::Branch(_) => false,
    }
}

fn any_tombstone(rows: &[LeafRow]) -> bool
    ensures { result ≡ list_any is_tombstone rows.now }
{
    rows.iter().any(|row| row.tombstone)
}
