//! A transaction that is under way.
ghost use Rattle.std.specs.Prelude.{◌≡◌, ◌↔◌, ◌++◌, ◌∷◌, [], Some, IsTrue, OnOk, OnErr};
ghost use Rattle.std.specs.List.{list_any};
ghost use Rattle.store_model.specs.Lists.{last_of};
ghost use Rattle.wal_record.specs.OpenWrites.{without_last};
ghost use Rattle.wal_record.specs.State.{same_key};
ghost use Rattle.chain_judge.specs.Chains.{TakesLast, is_at_key};

use std::alloc::AllocFailed;
use store_model::{Key, Lsn, Value};
use wal_record::{Apply, Undo, Write};

/// An open write: its key, the value that it found there, and the LSN of its transaction's record before it.
#[derive(Drop)]
pub struct OpenChange {
    pub key: Key,
    pub old: Option<Value>,
    pub prev: Lsn,
}

/// The LSN of a transaction's last record, and its open writes, oldest first.
#[derive(Drop)]
pub struct Chain {
    pub last: Lsn,
    pub writes: Vec<OpenChange>,
}

fn copied_value(value: &Option<Value>) -> Option<Value>
    ensures { result ≡ value.now }
{
    match value {
        Some(value) => Some(value.copied()),
        None => None,
    }
}

/// What is kept of a write.
pub fn change_of_write(write: &Write) -> OpenChange
    ensures { result ≡ record { key = write.now.key; old = write.now.old; prev = write.now.prev } }
{
    OpenChange {
        key: write.key.copied(),
        old: copied_value(&write.old),
        prev: write.prev,
    }
}

/// What is kept of an operator's write.
pub fn change_of_apply(apply: &Apply) -> OpenChange
    ensures { result ≡ record { key = apply.now.key; old = apply.now.old; prev = apply.now.prev } }
{
    OpenChange {
        key: apply.key.copied(),
        old: copied_value(&apply.old),
        prev: apply.prev,
    }
}

/// Takes the last one off, if there is one.
pub fn take_last(writes: &mut Vec<OpenChange>)
    ensures { writes.new.items ≡ without_last writes.old.items }
{
    writes.pop();
}

/// Whether it changed the key.
fn is_at_key(change: &OpenChange, key: &Key) -> bool
    ensures { result ≡ is_at_key key.now change.now }
{
    key.cmp(&change.key).is_eq()
}

/// Whether one of them changed the key.
pub fn any_of(writes: &[OpenChange], key: &Key) -> bool
    ensures { result ≡ list_any (is_at_key key.now) writes.now }
{
    writes.iter().any(|write| is_at_key(write, key))
}

/// Whether the undo takes back this change.
fn is_undone(change: &OpenChange, undo: &Undo) -> bool
    ensures { IsTrue result ↔ TakesLast undo.now (Some change.now) }
{
    undo.key == change.key && undo.restores == change.old && undo.undo_next == change.prev
}

/// Whether the undo takes back the last one.
pub fn is_last_undone(writes: &[OpenChange], undo: &Undo) -> bool
    ensures { IsTrue result ↔ TakesLast undo.now (last_of writes.now) }
{
    match writes.last() {
        Some(change) => is_undone(change, undo),
        None => false,
    }
}
