//! The transactions whose locks bar a range.
ghost use Rattle.std.specs.Prelude.{◌≡◌, ◌||◌, ◌++◌, ℕ, List, map, flat_map, nat_eq, OnOk, OnErr};
ghost use Rattle.std.specs.List.{list_any};
ghost use Rattle.std.specs.Ordering.{nat_cmp};
ghost use Rattle.std.specs.BTreeSet.{contains, IsOrdered};
ghost use Rattle.range_lock.specs.Lock.{bars};
ghost use Rattle.range_lock.specs.Tables.{lock_at_point, lock_on_range, locks_on_ranges, bars_by};

use crate::entry::{PointEntry, RangeLock};
use crate::search::{is_above, is_one_exclusive, start_of};
use std::alloc::{AllocError, Global};
use std::collections::{BTreeMap, BTreeSet};
use std::ops;
use store_model::{KeyRange, List, Mode, TxId};

fn keeps_off(range: &KeyRange, mode: Mode, at: &KeyRange, held: Mode) -> bool
    ensures { result ≡ bars range.now mode (record { tx = 0; range = at.now; mode = held }) }
{
    range.overlaps(at) && is_one_exclusive(mode, held)
}

/// Adds the holders of point locks in one mode that bar the range.
pub fn add_at_points<const N: usize>(
    found: &mut BTreeSet<TxId>,
    points: &BTreeSet<PointEntry<N>>,
    held: Mode,
    range: &KeyRange,
    mode: Mode,
) -> Result<(), AllocError>
    ensures { OnOk result ((tx : ℕ) → contains nat_cmp found.new tx ≡ (contains nat_cmp found.old tx || list_any (bars_by range.now mode tx) (map (lock_at_point held) points.now.keys))) }
{
    for lock in points.range((start_of(range), ops::Bound::Unbounded)) {
        if !is_above(range.high(), lock.text()) {
            break;
        }
        if keeps_off(range, mode, &lock.place(), held) {
            found.insert(lock.tx())?;
        }
    }
    Ok(())
}

/// Whether one of these locks bars the range.
fn any_bars(held: &[RangeLock], range: &KeyRange, mode: Mode) -> bool
    ensures { result ≡ list_any (λ r. bars range.now mode (lock_on_range 0 r)) held.now }
{
    held.iter()
        .any(|lock| keeps_off(range, mode, &lock.range, lock.mode))
}

/// Adds the holders of range locks that bar the range.
pub fn add_on_ranges(
    found: &mut BTreeSet<TxId>,
    ranges: &BTreeMap<TxId, List<RangeLock>>,
    range: &KeyRange,
    mode: Mode,
) -> Result<(), AllocError>
    ensures { OnOk result ((tx : ℕ) → contains nat_cmp found.new tx ≡ (contains nat_cmp found.old tx || list_any (bars_by range.now mode tx) (flat_map locks_on_ranges ranges.now.entries))) }
{
    for (holder, held) in ranges {
        if any_bars(held.as_slice(), range, mode) {
            found.insert(*holder)?;
        }
    }
    Ok(())
}

/// Appends them in order. Where memory runs out, `out` is as before.
pub fn append(alloc: Global, found: &BTreeSet<TxId>, out: &mut Vec<TxId>) -> Result<(), AllocError>
    ensures ok { OnOk result (out.new.items ≡ out.old.items ++ found.now.keys) }
    ensures err { OnErr result (out.new.items ≡ out.old.items) }
    ensures ordered { IsOrdered nat_cmp found.now }
{
    let mut txs = Vec::new(alloc);
    for tx in found {
        txs.push(*tx)?;
    }
    out.extend_from_slice(&txs)
}
