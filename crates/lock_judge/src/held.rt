//! A lock as it is held.
ghost use Rattle.std.specs.Prelude.{◌≡◌, IfOk};
ghost use Rattle.std.specs.List.{list_any};
ghost use Rattle.wal_record.specs.Locks.{conflict, covers, covers_write, is_exclusive};
ghost use Rattle.wal_record.specs.Legal.{held};

use std::alloc::AllocError;
use std::marker::Model;
use store_model::{Key, KeyRange, Mode};

/// A range, and how it is locked. Contracts see a lock as the definitions do.
#[derive(Drop)]
pub struct HeldLock {
    range: KeyRange,
    mode: Mode,
}

impl Model for HeldLock {
    ghost use Rattle.wal_record.specs.Locks.{Held};

    ghost Value = { Held };

    ghost view = { λ l. record { range = l.range; mode = l.mode } };
}

fn is_exclusive(mode: Mode) -> bool
    ensures { result ≡ is_exclusive mode }
{
    matches!(mode, Mode::Exclusive)
}

impl HeldLock {
    /// A lock on this range.
    pub fn on(range: &KeyRange, mode: Mode) -> Result<HeldLock, AllocError>
        ensures { IfOk result (λ l. l ≡ held range.now mode) }
    {
        let range = range.clone()?;
        Ok(HeldLock { range, mode })
    }

    /// Whether the range lies inside the lock.
    pub fn covers(&self, range: &KeyRange) -> bool
        ensures { result ≡ covers range.now self.now }
    {
        !range.low().is_below(self.range.low()) && !self.range.high().is_below(range.high())
    }

    /// Whether the key may be written under the lock.
    pub fn covers_write(&self, key: &Key) -> bool
        ensures { result ≡ covers_write key.now self.now }
    {
        !self.range.low().is_above(key)
            && self.range.high().is_above(key)
            && is_exclusive(self.mode)
    }

    /// Whether a lock on this range conflicts with it.
    pub fn conflicts(&self, range: &KeyRange, mode: Mode) -> bool
        ensures { result ≡ conflict (held range.now mode) self.now }
    {
        range.overlaps(&self.range) && (is_exclusive(mode) || is_exclusive(self.mode))
    }
}

/// Whether the range lies inside one of these locks.
pub fn any_covers(locks: &[HeldLock], range: &KeyRange) -> bool
    ensures { result ≡ list_any (covers range.now) locks.now }
{
    locks.iter().any(|lock| lock.covers(range))
}

/// Whether the key may be written under one of these locks.
pub fn any_covers_write(locks: &[HeldLock], key: &Key) -> bool
    ensures { result ≡ list_any (covers_write key.now) locks.now }
{
    locks.iter().any(|lock| lock.covers_write(key))
}

/// Whether a lock on this range conflicts with one of these.
pub fn any_conflicts(locks: &[HeldLock], range: &KeyRange, mode: Mode) -> bool
    ensures { result ≡ list_any (conflict (held range.now mode)) locks.now }
{
    locks.iter().any(|lock| lock.conflicts(range, mode))
}
