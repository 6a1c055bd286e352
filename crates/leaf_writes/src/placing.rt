//! A row at its spot, for which room was made before.
ghost use Rattle.std.specs.Prelude.{◌≡◌, ◌<◌, IfOk, IsTrue, length, vec_capacity, vec_len};
ghost use Rattle.wal_record.specs.Images.{IsLeafOf, with_value};
ghost use Rattle.wal_record.specs.Rules.{is_maybe_value};
ghost use Rattle.wal_record.specs.State.{KeepsState, is_key, leaf_rows, row_of};
ghost use Rattle.wal_record.specs.declared.page.Rows.TheVariants.{Leaf};
ghost use Rattle.page_rows.specs.Redo.{placed};
ghost use Rattle.page_rows.specs.Rows.{IsWithin};

use page_rows::{Spot, search};
use std::alloc::Global;
use std::mem;
use store_model::{Key, List, Memory, Value};
use wal_record::{LeafRow, PageState, Rows};

/// The rows of a leaf, which is left without any. It takes no memory.
pub(crate) fn taken_rows(alloc: Global, rows: &mut Rows) -> Vec<LeafRow>
    requires { rows.old ≡ Leaf (leaf_rows rows.old) }
    ensures { result.items ≡ leaf_rows rows.old }
{
    match rows {
        Rows::Leaf(rows) => mem::replace(rows, List::new(alloc)).into_vec(),
        Rows::Branch(_) => Vec::new(alloc),
    }
}

/// Puts a row at the spot of its key, where there is room for one. It takes no memory.
pub(crate) fn place(rows: &mut Vec<LeafRow>, spot: Spot, row: LeafRow)
    requires place { IsWithin spot (length rows.old.items) }
    requires room { vec_len rows.old < vec_capacity rows.old }
    ensures { rows.new.items ≡ placed row spot rows.old.items }
{
    match spot {
        Spot::Here(i) => rows[i] = row,
        Spot::Gap(i) => {
            let _fits = rows.insert(i, row);
        }
    }
}

/// The leaf with this value of the key, or with its tombstone.
pub(crate) fn with_row(
    alloc: Global,
    mut state: PageState,
    key: &Key,
    value: &Option<Value>,
) -> Result<PageState, Memory>
    requires keeps { KeepsState state }
    requires leaf { IsLeafOf key.now state }
    ensures { IfOk result (λ s. s ≡ with_value key.now value.now state) }
{
    let spot = search(&state, key);
    let row = row_of(key, value);
    let mut rows = taken_rows(alloc, &mut state.rows);
    rows.reserve(1)?;
    place(&mut rows, spot, row);
    state.rows = Rows::Leaf(List::from_vec(rows));
    Ok(state)
}

/// The row of a key with this value, or its tombstone.
pub(crate) fn row_of(key: &Key, value: &Option<Value>) -> LeafRow
    ensures is { result ≡ row_of key.now value.now }
    ensures key { IsTrue (is_key key.now) }
    ensures value { IsTrue (is_maybe_value value.now) }
{
    let _short = key.as_bytes();
    match value {
        Some(value) => {
            let _few = value.as_bytes();
            LeafRow {
                key: key.copied(),
                tombstone: false,
                value: value.copied(),
            }
        }
        None => LeafRow {
            key: key.copied(),
            tombstone: true,
            value: Value::empty(),
        },
    }
}
