//! The value of a key on its leaf.
ghost use Rattle.std.specs.Prelude.{◌≡◌, length};
ghost use Rattle.wal_record.specs.Images.{IsLeafOf};
ghost use Rattle.wal_record.specs.State.{KeepsState, leaf_rows, live, live_value};
ghost use Rattle.page_rows.specs.Redo.{live_in};
ghost use Rattle.page_rows.specs.Rows.{IsWithin};

use page_rows::{Spot, search};
use store_model::{Key, Value};
use wal_record::{LeafRow, PageState, Rows};

/// The live value of a key on the leaf whose own part has it, if there is one. Of a leaf in hand it is the key's current
/// value.
pub fn lookup(leaf: &PageState, key: &Key) -> Option<Value>
    requires keeps { KeepsState leaf.now }
    requires leaf { IsLeafOf key.now leaf.now }
    ensures { result ≡ live (leaf_rows leaf.now.rows) key.now }
{
    let spot = search(leaf, key);
    value_at(&leaf.rows, spot)
}

/// The live value of the row at a spot of a leaf; none in a gap.
fn value_at(rows: &Rows, spot: Spot) -> Option<Value>
    requires { IsWithin spot (length (leaf_rows rows.now)) }
    ensures { result ≡ live_in rows.now spot }
{
    match (rows, spot) {
        (Rows::Leaf(rows), Spot::Here(i)) => live_value(&rows.as_slice()[i]),
        _ => None,
    }
}

fn live_value(row: &LeafRow) -> Option<Value>
    ensures { result ≡ live_value row.now }
{
    if row.tombstone {
        None
    } else {
        Some(row.value.copied())
    }
}
