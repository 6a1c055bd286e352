//! Which record has to follow the split of a leaf.
ghost use Rattle.std.specs.Prelude.{◌≡◌, ◌↔◌, IsTrue};
ghost use Rattle.store_model.specs.Operator.{meaning};
ghost use Rattle.wal_record.specs.Legal.{NeedsSplit, Overflows};
ghost use Rattle.page_judge.specs.Splitting.{IsLeafState};

use crate::image::Image;
use crate::splitting::has_own;
use operators::Operators;
use page_halves::fits_with;
use store_model::{Key, Value};
use wal_record::{Apply, Record, Rows};

/// Whether the leaf's own part has the key, and the leaf doesn't fit with this value of it.
fn overflows(leaf: &Image, key: &Key, value: &Option<Value>) -> bool
    ensures { IsLeafState leaf.now → IsTrue result ↔ Overflows leaf.now key.now value.now }
{
    let state = leaf.state();
    if !has_own(state, key) {
        return false;
    }
    match &state.rows {
        Rows::Leaf(_) => !fits_with(state, key, value),
        Rows::Branch(_) => false,
    }
}

/// What the operator makes of the old value.
fn made_by(operators: &Operators, apply: &Apply) -> Option<Value>
    ensures { result ≡ meaning apply.now.operator apply.now.old apply.now.argument }
{
    match operators.apply(apply.operator, apply.old.as_ref(), &apply.argument) {
        Some(made) => Value::new(made.as_bytes()),
        None => None,
    }
}

/// Whether the record gives a key of the leaf a value with which it doesn't fit.
pub fn needs_split(leaf: &Image, entered: &Record, operators: &Operators) -> bool
    ensures { IsLeafState leaf.now → IsTrue result ↔ NeedsSplit leaf.now entered.now }
{
    match entered {
        Record::Write(write) => overflows(leaf, &write.key, &write.new),
        Record::Apply(apply) => overflows(leaf, &apply.key, &made_by(operators, apply)),
        Record::Undo(undo) => overflows(leaf, &undo.key, &undo.restores),
        _ => false,
    }
}
