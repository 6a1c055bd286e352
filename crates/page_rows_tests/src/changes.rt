//! Changes of one row of a leaf.
ghost use Rattle.std.specs.Prelude.{◌≡◌, IfSome};
ghost use Rattle.page_rows.specs.Rows.{IsLeaf, row_count};

use crate::text::state_of;
use page_rows::{insert_at, replace_at, set_tombstone};
use std::alloc::Global;
use std::test::Fail;
use store_model::{Key, Value};
use wal_record::{LeafRow, PageState, Rows};

/// A row is a name, the leaf, the change, its place, and the leaf after it. What is put in is the key k or the value 9.
const CHANGES: &str = "\
into an empty leaf; 00 00 00 00 0000; insert; 0; 00 00 00 00 0001 016b 00 000139
before all rows; 00 00 00 00 0001 017a 00 000131; insert; 0; 00 00 00 00 0002 016b 00 000139 017a 00 000131
between rows; 00 00 00 00 0002 0161 00 000131 017a 01 0000; insert; 1; 00 00 00 00 0003 0161 00 000131 016b 00 000139 017a 01 0000
behind all rows; 00 00 00 00 0001 0161 00 000131; insert; 1; 00 00 00 00 0002 0161 00 000131 016b 00 000139
a new value; 00 00 00 00 0002 0161 00 000131 0162 00 000132; replace; 0; 00 00 00 00 0002 0161 00 000139 0162 00 000132
the value of a tombstone; 00 00 00 00 0002 0161 00 000131 0162 01 0000; replace; 1; 00 00 00 00 0002 0161 00 000131 0162 00 000139
a tombstone; 00 00 00 00 0002 0161 00 000131 0162 00 000132; bury; 1; 00 00 00 00 0002 0161 00 000131 0162 01 0000
a tombstone again; 00 00 00 00 0001 0161 01 0000; bury; 0; 00 00 00 00 0001 0161 01 0000
";

/// How many rows a leaf has.
fn rows_in(state: &PageState) -> Option<usize>
    ensures { IfSome result (λ count. IsLeaf state.now.rows × (count ≡ row_count state.now.rows)) }
{
    match &state.rows {
        Rows::Leaf(rows) => Some(rows.len()),
        Rows::Branch(_) => None,
    }
}

/// The change of a row, where the leaf has its place.
fn change(state: &mut PageState, kind: &str, place: usize) -> Option<()> {
    let value = Value::new(b"9")?;
    let count = rows_in(state)?;
    if kind == "insert" && place <= count {
        let row = LeafRow {
            key: Key::new(b"k")?,
            tombstone: false,
            value,
        };
        return insert_at(state, place, row).ok();
    }
    if place >= count {
        return None;
    }
    match kind {
        "replace" => replace_at(state, place, value),
        "bury" => set_tombstone(state, place),
        _ => return None,
    }
    Some(())
}

fn are_same(found: &[LeafRow], wanted: &[LeafRow]) -> bool {
    if found.len() != wanted.len() {
        return false;
    }
    for (a, b) in found.iter().zip(wanted) {
        if a.key != b.key || a.tombstone != b.tombstone || a.value != b.value {
            return false;
        }
    }
    true
}

fn is_changed(alloc: Global, row: &str) -> Option<bool> {
    let (_, row) = row.split_once("; ")?;
    let (before, row) = row.split_once("; ")?;
    let (kind, row) = row.split_once("; ")?;
    let (place, after) = row.split_once("; ")?;
    let mut state = state_of(alloc, before)?;
    change(&mut state, kind, place.parse::<usize>().ok()?)?;
    let wanted = state_of(alloc, after)?;
    match (&state.rows, &wanted.rows) {
        (Rows::Leaf(found), Rows::Leaf(wanted)) => {
            Some(are_same(found.as_slice(), wanted.as_slice()))
        }
        _ => None,
    }
}

#[test]
fn rows_are_changed_in_place(rt: HostRuntime) -> Result<(), Fail> {
    for row in CHANGES.lines() {
        if is_changed(rt.alloc(), row) != Some(true) {
            return Err(Fail::new(row));
        }
    }
    Ok(())
}
