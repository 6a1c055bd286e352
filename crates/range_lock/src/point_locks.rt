//! The locks on single keys that are held in one mode.
ghost use Rattle.std.specs.Prelude.{◌≡◌, ◌↔◌, ◌||◌, [], ℕ, map, IfOk, OnOk, OnErr, IsTrue, false};
ghost use Rattle.std.specs.List.{list_any};
ghost use Rattle.std.specs.Ordering.{nat_cmp};
ghost use Rattle.std.specs.BTreeSet.{contains};
ghost use Rattle.range_lock.specs.Lock.{IsAmong};
ghost use Rattle.range_lock.specs.Nearest.{nearest};
ghost use Rattle.range_lock.specs.Among.{Adds, Removes};
ghost use Rattle.range_lock.specs.Point.{IsKey};
ghost use Rattle.range_lock.specs.Tables.{lock_at_point, bars_by};

use crate::entry::PointEntry;
use crate::holders::add_at_points;
use crate::point_set::{has_point, insert_point, remove_point};
use crate::rival::Rival;
use crate::search::first_point;
use std::alloc::{AllocError, Global};
use std::collections::BTreeSet;
use std::marker::Model;
use store_model::{KEY_BYTES, KeyRange, Mode, TxId};

/// The most bytes of a short key. An entry for one is half as long as one for the longest key.
const SHORT_BYTES: usize = 24;

/// Locks on single keys. Those on short keys stand in a set of their own, whose entries are small, so that a lock is looked
/// for in the set of its key's length alone.
#[derive(Drop)]
pub struct PointLocks {
    short: BTreeSet<PointEntry<SHORT_BYTES>>,
    long: BTreeSet<PointEntry<KEY_BYTES>>,
}

impl Model for PointLocks {
    ghost use Rattle.std.specs.Prelude.{List, ◌++◌};
    ghost use Rattle.range_lock.specs.Point.{PointLock, HaveLength};

    ghost Value = { List PointLock };

    ghost view = { λ p. p.short.keys ++ p.long.keys };

    ghost invariant = { λ p. HaveLength 1 24 p.short.keys × HaveLength 25 64 p.long.keys };
}

impl PointLocks {
    /// No locks.
    pub fn new(alloc: Global) -> PointLocks
        ensures { result ≡ [] }
    {
        PointLocks {
            short: BTreeSet::new(alloc),
            long: BTreeSet::new(alloc),
        }
    }

    /// Whether there is none.
    pub fn is_empty(&self) -> bool
        ensures { IsTrue result ↔ (self.now ≡ []) }
    {
        self.short.is_empty() && self.long.is_empty()
    }

    /// Whether the transaction's lock on the key of these bytes is among them.
    pub fn contains(&self, text: &[u8], tx: TxId) -> bool
        ensures { IsTrue result ↔ IsAmong (record { key = text.now; tx = tx }) self.now }
    {
        if text.len() <= SHORT_BYTES {
            has_point(&self.short, text, tx)
        } else {
            has_point(&self.long, text, tx)
        }
    }

    /// Adds a transaction's lock on the key of these bytes, and tells whether it is new. Where memory runs out, they are as
    /// before.
    pub fn insert(&mut self, key: &[u8], tx: TxId) -> Result<bool, AllocError>
        requires { IsKey key.now }
        ensures ok { OnOk result (Adds self.old self.new (record { key = key.now; tx = tx })) }
        ensures told { IfOk result (λ added. (added ≡ false) ↔ IsAmong (record { key = key.now; tx = tx }) self.old) }
        ensures err { OnErr result (self.new ≡ self.old) }
    {
        if key.len() <= SHORT_BYTES {
            insert_point(&mut self.short, key, tx)
        } else {
            insert_point(&mut self.long, key, tx)
        }
    }

    /// Removes the transaction's lock on the key of these bytes. It takes no memory.
    pub fn remove(&mut self, text: &[u8], tx: TxId)
        ensures { Removes self.old self.new (record { key = text.now; tx = tx }) }
    {
        if text.len() <= SHORT_BYTES {
            remove_point(&mut self.short, text, tx);
        } else {
            remove_point(&mut self.long, text, tx);
        }
    }

    /// Takes into the best so far the first of these locks, held in one mode, in conflict with a lock.
    pub fn first_rival(
        &self,
        best: &mut Option<Rival>,
        held: Mode,
        tx: TxId,
        range: &KeyRange,
        mode: Mode,
    )
        ensures { best.new ≡ nearest (record { tx = tx; range = range.now; mode = mode }) (map (lock_at_point held) self.now) best.old }
    {
        first_point(best, &self.short, held, tx, range, mode);
        first_point(best, &self.long, held, tx, range, mode);
    }

    /// Adds the holders of those of these locks, held in one mode, that bar the range.
    pub fn add_holders(
        &self,
        found: &mut BTreeSet<TxId>,
        held: Mode,
        range: &KeyRange,
        mode: Mode,
    ) -> Result<(), AllocError>
        ensures { OnOk result ((tx : ℕ) → contains nat_cmp found.new tx ≡ (contains nat_cmp found.old tx || list_any (bars_by range.now mode tx) (map (lock_at_point held) self.now))) }
    {
        add_at_points(found, &self.short, held, range, mode)?;
        add_at_points(found, &self.long, held, range, mode)
    }
}
