//! Ordered sets of locks on single keys.
ghost use Rattle.std.specs.Prelude.{◌≡◌, ◌≤◌, ◌↔◌, length, IfOk, OnOk, OnErr, IsTrue, false};
ghost use Rattle.store_model.specs.declared.limits.TheConstants.{KEY_BYTES};
ghost use Rattle.range_lock.specs.Lock.{IsAmong};
ghost use Rattle.range_lock.specs.Among.{Adds, Removes};
ghost use Rattle.range_lock.specs.Point.{IsKey, HaveLength};

use crate::entry::PointEntry;
use std::alloc::AllocError;
use std::collections::BTreeSet;
use store_model::TxId;

/// Whether the transaction's lock on the key of these bytes is in the set.
pub fn has_point<const N: usize>(points: &BTreeSet<PointEntry<N>>, text: &[u8], tx: TxId) -> bool
    requires keys { HaveLength 1 N points.now.keys }
    requires room { N ≤ KEY_BYTES }
    ensures { IsTrue result ↔ IsAmong (record { key = text.now; tx = tx }) points.now.keys }
{
    match PointEntry::new(text, tx) {
        Some(point) => points.contains(&point),
        None => false,
    }
}

/// Puts a transaction's lock on the key of these bytes into the set, and tells whether it is new there. Where memory runs
/// out, the set is as before.
pub fn insert_point<const N: usize>(
    points: &mut BTreeSet<PointEntry<N>>,
    key: &[u8],
    tx: TxId,
) -> Result<bool, AllocError>
    requires is_key { IsKey key.now }
    requires room { length key.now ≤ N }
    ensures ok { OnOk result (Adds points.old.keys points.new.keys (record { key = key.now; tx = tx })) }
    ensures told { IfOk result (λ added. (added ≡ false) ↔ IsAmong (record { key = key.now; tx = tx }) points.old.keys) }
    ensures err { OnErr result (points.new.keys ≡ points.old.keys) }
{
    match PointEntry::new(key, tx) {
        Some(point) => Ok(points.insert(point)?),
        None => unreachable!(),
    }
}

/// Takes the transaction's lock on the key of these bytes out of the set.
pub fn remove_point<const N: usize>(points: &mut BTreeSet<PointEntry<N>>, text: &[u8], tx: TxId)
    requires keys { HaveLength 1 N points.old.keys }
    requires room { N ≤ KEY_BYTES }
    ensures { Removes points.old.keys points.new.keys (record { key = text.now; tx = tx }) }
{
    if let Some(point) = PointEntry::new(text, tx) {
        points.remove(&point);
    }
}
