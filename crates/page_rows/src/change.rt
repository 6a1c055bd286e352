//! Changes of one row of a leaf.
ghost use Rattle.std.specs.Prelude.{◌≡◌, ◌<◌, ◌≤◌, length, slice_get, OnOk, OnErr};
ghost use Rattle.page_rows.specs.Rows.{row_count, IsLeaf, with_row_at, with_row_in, valued, buried, changed_at};

use store_model::{List, Memory, Value};
use wal_record::{LeafRow, PageState, Rows};

/// Puts a row at place i of a leaf. After `Memory` the state is as before.
pub fn insert_at(state: &mut PageState, i: usize, row: LeafRow) -> Result<(), Memory>
    requires leaf { IsLeaf state.old.rows }
    requires place { i ≤ row_count state.old.rows }
    ensures ok { OnOk result (state.new ≡ record state.old { rows = with_row_in state.old.rows i row }) }
    ensures err { OnErr result (state.new ≡ state.old) }
{
    match &mut state.rows {
        Rows::Leaf(rows) => {
            rows.insert(i, row)?;
            Ok(())
        }
        Rows::Branch(_) => Ok(()),
    }
}

/// Gives the row at place i of a leaf this value. A tombstone becomes a live row.
pub fn replace_at(state: &mut PageState, i: usize, value: Value)
    requires leaf { IsLeaf state.old.rows }
    requires place { i < row_count state.old.rows }
    ensures { state.new ≡ record state.old { rows = with_row_at state.old.rows i (valued value) } }
{
    match &mut state.rows {
        Rows::Leaf(rows) => revalue(rows, i, value),
        Rows::Branch(_) => {}
    }
}

fn revalue(rows: &mut List<LeafRow>, i: usize, value: Value)
    requires { i < length rows.old }
    ensures { rows.new ≡ changed_at rows.old i (valued value) (slice_get rows.old i) }
{
    let row = rows.item_mut(i);
    row.tombstone = false;
    row.value = value;
}

/// Makes the row at place i of a leaf a tombstone, which has no value.
pub fn set_tombstone(state: &mut PageState, i: usize)
    requires leaf { IsLeaf state.old.rows }
    requires place { i < row_count state.old.rows }
    ensures { state.new ≡ record state.old { rows = with_row_at state.old.rows i buried } }
{
    match &mut state.rows {
        Rows::Leaf(rows) => bury(rows, i),
        Rows::Branch(_) => {}
    }
}

fn bury(rows: &mut List<LeafRow>, i: usize)
    requires { i < length rows.old }
    ensures { rows.new ≡ changed_at rows.old i buried (slice_get rows.old i) }
{
    let row = rows.item_mut(i);
    row.tombstone = true;
    row.value = Value::empty();
}
