//! Locks on wider ranges, for each transaction.
ghost use Rattle.std.specs.Prelude.{◌≡◌, ◌↔◌, ◌⊎◌, ℕ, List, flat_map, IfOk, OnOk, OnErr, IsTrue, true};
ghost use Rattle.range_lock.specs.Lock.{Lock, IsAmong, covers};
ghost use Rattle.range_lock.specs.Tables.{locks_on_ranges, lock_on_range, on_range, IsCoveredOnRange, IsCoveredByOne};

use crate::entry::RangeLock;
use crate::point::includes;
use crate::search::is_exclusive;
use std::alloc::{AllocError, Global};
use std::collections::BTreeMap;
use store_model::{KeyRange, List, Mode, TxId};

/// The same range again.
pub fn copied(range: &KeyRange) -> Result<KeyRange, AllocError>
    ensures { IfOk result (λ r. r ≡ range.now) }
{
    range.clone()
}

fn is_range_lock(lock: &RangeLock, range: &KeyRange, mode: Mode) -> bool
    ensures { IsTrue result ↔ (lock.now ≡ on_range range.now mode) }
{
    lock.range == *range && lock.mode == mode
}

/// Whether the transaction holds this very range in this mode.
pub fn holds_range(
    ranges: &BTreeMap<TxId, List<RangeLock>>,
    tx: TxId,
    range: &KeyRange,
    mode: Mode,
) -> bool
    ensures { result ≡ true → IsAmong (lock_on_range tx (on_range range.now mode)) (flat_map locks_on_ranges ranges.now.entries) }
{
    match ranges.get(&tx) {
        None => false,
        Some(held) => is_listed(held.as_slice(), range, mode),
    }
}

fn is_listed(held: &[RangeLock], range: &KeyRange, mode: Mode) -> bool
    ensures { result ≡ true → IsAmong (on_range range.now mode) held.now }
{
    for lock in held {
        if is_range_lock(lock, range, mode) {
            return true;
        }
    }
    false
}

/// Adds a lock to those of its transaction. Where memory runs out, what is held stays as it was.
pub fn put_range(
    alloc: Global,
    ranges: &mut BTreeMap<TxId, List<RangeLock>>,
    tx: TxId,
    lock: RangeLock,
) -> Result<(), AllocError>
    ensures ok { OnOk result ((l : Lock) → IsAmong l (flat_map locks_on_ranges ranges.new.entries) ↔ ((l ≡ lock_on_range tx lock) ⊎ IsAmong l (flat_map locks_on_ranges ranges.old.entries))) }
    ensures err { OnErr result (ranges.new.entries ≡ ranges.old.entries) }
{
    if let Some(held) = ranges.get_mut(&tx) {
        held.push(lock)?;
        return Ok(());
    }
    let mut held = List::new(alloc);
    held.push(lock)?;
    ranges.insert(tx, held)?;
    Ok(())
}

/// Whether one of the transaction's locks on wider ranges includes the range in this mode.
pub fn covers_on_range(
    ranges: &BTreeMap<TxId, List<RangeLock>>,
    tx: TxId,
    range: &KeyRange,
    mode: Mode,
) -> bool
    ensures { IsTrue result ↔ IsCoveredOnRange ranges.now tx range.now mode }
{
    if ranges.len() == 0 {
        return false;
    }
    match ranges.get(&tx) {
        None => false,
        Some(held) => is_covered(held.as_slice(), range, mode),
    }
}

fn covers_one(lock: &RangeLock, range: &KeyRange, mode: Mode) -> bool
    ensures { result ≡ covers (lock_on_range 0 lock.now) range.now mode }
{
    includes(&lock.range, range) && (is_exclusive(lock.mode) || !is_exclusive(mode))
}

fn is_covered(held: &[RangeLock], range: &KeyRange, mode: Mode) -> bool
    ensures { IsTrue result ↔ IsCoveredByOne held.now range.now mode }
{
    for lock in held {
        if covers_one(lock, range, mode) {
            return true;
        }
    }
    false
}
