//! The lock table.
ghost use Rattle.std.specs.Prelude.{◌≡◌, ◌≢◌, ◌↔◌, [], ◌++◌, ℕ, IfOk, IfErr, OnOk, OnErr, IsTrue, None, true, false};
ghost use Rattle.store_model.specs.Range.{point};
ghost use Rattle.range_lock.specs.Lock.{AreCompatible, Lock, conflict};
ghost use Rattle.range_lock.specs.Nearest.{nearest};
ghost use Rattle.range_lock.specs.Point.{IsKey};
ghost use Rattle.range_lock.specs.Tables.{all_locks, AreListed};

use crate::entry::RangeLock;
use crate::holders::{add_on_ranges, append};
use crate::key_list::KeyList;
use crate::point::{covers_at_point, point_of, put_point};
use crate::point_locks::PointLocks;
use crate::refusal::LockRefused;
use crate::release::remove_listed;
use crate::rival::Rival;
use crate::search::first_range;
use crate::wider::{copied, covers_on_range, holds_range, put_range};
use std::alloc::{AllocError, Global};
use std::collections::{BTreeMap, BTreeSet};
use store_model::{KeyRange, List, Memory, Mode, TxId};

/// The locks that transactions hold.
#[derive(Drop)]
pub struct RangeLocks {
    alloc: Global,
    /// The locks on single keys that are held shared.
    shared: PointLocks,
    /// Those that are held exclusive.
    exclusive: PointLocks,
    /// For each transaction, the keys of its point locks.
    keys: BTreeMap<TxId, KeyList>,
    /// For each transaction, its locks on wider ranges.
    ranges: BTreeMap<TxId, List<RangeLock>>,
    ghost compatible: { AreCompatible (all_locks shared exclusive ranges) },
    ghost listed_shared: { AreListed shared keys },
    ghost listed_exclusive: { AreListed exclusive keys },
}

impl RangeLocks {
    ghost use Rattle.range_lock.specs.Held.{held, Holds, HoldsTheSame, Gains, Releases, NamesTheFirst, IsCovered, AreHolders};

    /// A table without locks.
    pub fn new(alloc: Global) -> RangeLocks
        ensures { held result ≡ [] }
    {
        RangeLocks {
            alloc,
            shared: PointLocks::new(alloc),
            exclusive: PointLocks::new(alloc),
            keys: BTreeMap::new(alloc),
            ranges: BTreeMap::new(alloc),
        }
    }

    /// The first lock in conflict with one.
    fn first_conflict(
        &self,
        tx: TxId,
        range: &KeyRange,
        mode: Mode,
    ) -> Result<Option<Rival>, AllocError>
        ensures { IfOk result (λ r. r ≡ nearest (record { tx = tx; range = range.now; mode = mode }) (held self.now) None) }
    {
        let mut best = None;
        self.shared
            .first_rival(&mut best, Mode::Shared, tx, range, mode);
        self.exclusive
            .first_rival(&mut best, Mode::Exclusive, tx, range, mode);
        first_range(&mut best, &self.ranges, tx, range, mode)?;
        Ok(best)
    }

    /// Takes a lock on the key of these bytes.
    fn add_point(&mut self, tx: TxId, key: &[u8], mode: Mode) -> Result<(), AllocError>
        requires is_key { IsKey key.now }
        requires free { (l : Lock) → Holds self.old l → conflict (record { tx = tx; range = point key.now; mode = mode }) l ≡ false }
        ensures ok { OnOk result (Gains self.old self.new (record { tx = tx; range = point key.now; mode = mode })) }
        ensures err { OnErr result (HoldsTheSame self.old self.new) }
    {
        match mode {
            Mode::Shared => put_point(self.alloc, &mut self.shared, &mut self.keys, tx, key),
            Mode::Exclusive => put_point(self.alloc, &mut self.exclusive, &mut self.keys, tx, key),
        }
    }

    /// Takes a lock on a wider range.
    fn add_range(&mut self, tx: TxId, range: &KeyRange, mode: Mode) -> Result<(), AllocError>
        requires { (l : Lock) → Holds self.old l → conflict (record { tx = tx; range = range.now; mode = mode }) l ≡ false }
        ensures ok { OnOk result (Gains self.old self.new (record { tx = tx; range = range.now; mode = mode })) }
        ensures err { OnErr result (HoldsTheSame self.old self.new) }
    {
        if !holds_range(&self.ranges, tx, range, mode) {
            let range = copied(range)?;
            put_range(self.alloc, &mut self.ranges, tx, RangeLock { range, mode })?;
        }
        Ok(())
    }

    /// Takes a lock that conflicts with none.
    fn add(&mut self, tx: TxId, range: &KeyRange, mode: Mode) -> Result<(), AllocError>
        requires { (l : Lock) → Holds self.old l → conflict (record { tx = tx; range = range.now; mode = mode }) l ≡ false }
        ensures ok { OnOk result (Gains self.old self.new (record { tx = tx; range = range.now; mode = mode })) }
        ensures err { OnErr result (HoldsTheSame self.old self.new) }
        ensures compatible { AreCompatible (held self.new) }
    {
        match point_of(range) {
            Some(key) => self.add_point(tx, key, mode),
            None => self.add_range(tx, range, mode),
        }
    }

    /// Takes a lock. It is refused exactly where another transaction's lock conflicts; it names the least such
    /// transaction, and of its conflicting ranges the one with the least low bound, then the least high bound. A lock
    /// that is already held is taken at once.
    pub fn acquire(&mut self, tx: TxId, range: &KeyRange, mode: Mode) -> Result<(), LockRefused>
        ensures ok { OnOk result (Gains self.old self.new (record { tx = tx; range = range.now; mode = mode })) }
        ensures free { OnOk result ((l : Lock) → Holds self.old l → conflict (record { tx = tx; range = range.now; mode = mode }) l ≡ false) }
        ensures refused { IfErr result (NamesTheFirst self.old (record { tx = tx; range = range.now; mode = mode })) }
        ensures err { OnErr result (HoldsTheSame self.old self.new) }

        // No two held locks conflict, whatever the call answers.
        ensures compatible { AreCompatible (held self.new) }
    {
        if let Some(rival) = self.first_conflict(tx, range, mode)? {
            return Err(LockRefused::Overlap {
                holder: rival.holder,
                range: rival.range,
            });
        }
        self.add(tx, range, mode)?;
        Ok(())
    }

    /// Releases all locks of a transaction. It takes no memory.
    pub fn release_all(&mut self, tx: TxId)
        ensures released { Releases self.old self.new tx }
        ensures compatible { AreCompatible (held self.new) }
    {
        self.ranges.remove(&tx);
        if let Some(keys) = self.keys.remove(&tx) {
            remove_listed(&mut self.shared, tx, &keys);
            remove_listed(&mut self.exclusive, tx, &keys);
        }
    }

    /// Whether one lock of the transaction includes the range in this mode. An exclusive lock covers shared use too.
    pub fn covers(&self, tx: TxId, range: &KeyRange, mode: Mode) -> bool
        ensures { IsTrue result ↔ IsCovered self.now tx range.now mode }
    {
        covers_at_point(&self.shared, &self.exclusive, tx, range, mode)
            || covers_on_range(&self.ranges, tx, range, mode)
    }

    /// Appends the transactions with a lock that conflicts with any other transaction's lock on this range in this mode,
    /// by rising number. Where memory runs out, `out` is as before.
    pub fn holders(&self, range: &KeyRange, mode: Mode, out: &mut Vec<TxId>) -> Result<(), Memory>
        ensures ok { OnOk result ((txs : List ℕ) × AreHolders self.now range.now mode txs × (out.new.items ≡ out.old.items ++ txs)) }
        ensures err { OnErr result (out.new.items ≡ out.old.items) }
    {
        let mut found = BTreeSet::new(self.alloc);
        self.shared
            .add_holders(&mut found, Mode::Shared, range, mode)?;
        self.exclusive
            .add_holders(&mut found, Mode::Exclusive, range, mode)?;
        add_on_ranges(&mut found, &self.ranges, range, mode)?;
        append(self.alloc, &found, out)?;
        Ok(())
    }
}
