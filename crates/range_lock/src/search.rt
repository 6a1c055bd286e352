//! The search for locks in conflict.
ghost use Rattle.std.specs.Prelude.{◌≡◌, ◌&&◌, ◌||◌, ◌==◌, not, ℕ, List, map, flat_map, OnOk, IfSome, Some, true};
ghost use Rattle.std.specs.declared.cmp.Ordering.TheVariants.{Less};
ghost use Rattle.std.specs.Ordering.{nat_cmp};
ghost use Rattle.std.specs.Cmp.Lexicographic.{slice_cmp};
ghost use Rattle.store_model.specs.Range.{is_below, overlap};
ghost use Rattle.range_lock.specs.Lock.{is_exclusive, conflict};
ghost use Rattle.range_lock.specs.Nearest.{nearest, step};
ghost use Rattle.range_lock.specs.Tables.{StartsBelow, lock_at_point, lock_on_range, locks_on_ranges};

use crate::entry::{PointEntry, RangeLock};
use crate::rival::{Rival, nearer};
use std::alloc::AllocError;
use std::collections::{BTreeMap, BTreeSet};
use std::ops;
use store_model::{Bound, KeyRange, List, Mode, TxId};
use text_order::compare_texts;

/// Whether the mode keeps others off.
pub fn is_exclusive(mode: Mode) -> bool
    ensures { result ≡ is_exclusive mode }
{
    match mode {
        Mode::Shared => false,
        Mode::Exclusive => true,
    }
}

/// Whether one of two modes is exclusive. Two shared locks never conflict.
pub fn is_one_exclusive(mode: Mode, held: Mode) -> bool
    ensures { result ≡ (is_exclusive mode || is_exclusive held) }
{
    is_exclusive(mode) || is_exclusive(held)
}

/// Whether a holder's lock keeps a transaction from a range.
fn conflicts(
    tx: TxId,
    range: &KeyRange,
    mode: Mode,
    holder: TxId,
    at: &KeyRange,
    held: Mode,
) -> bool
    ensures { result ≡ conflict (record { tx = tx; range = range.now; mode = mode }) (record { tx = holder; range = at.now; mode = held }) }
{
    holder != tx && range.overlaps(at) && is_one_exclusive(mode, held)
}

/// Whether a text is below a bound.
pub fn is_above(bound: &Bound, text: &[u8]) -> bool
    ensures { result ≡ is_below (Some text.now) bound.now }
{
    match bound.as_bytes() {
        None => true,
        Some(end) => compare_texts(text, end).is_lt(),
    }
}

/// A lock with only keys below the range below its own, if there are keys below the range. It has the range's low bound,
/// or as much of it as it has room for, and no lock on its key stands before it.
fn first_entry<const N: usize>(range: &KeyRange) -> Option<PointEntry<N>>
    ensures below { IfSome result (λ p. (q : List ℕ) → slice_cmp nat_cmp q p.key ≡ Less → is_below (Some q) range.now.low ≡ true) }
    ensures first { IfSome result (λ p. p.tx ≡ 0) }
{
    let low = range.low().as_bytes()?;
    PointEntry::new(&low[..low.len().min(N)], 0)
}

/// Where to begin the search among the point locks.
pub fn start_of<const N: usize>(range: &KeyRange) -> ops::Bound<PointEntry<N>>
    ensures { StartsBelow result range.now.low }
{
    match first_entry(range) {
        Some(entry) => ops::Bound::Included(entry),
        None => ops::Bound::Unbounded,
    }
}

/// Takes a point lock into the best so far where it is the first in conflict with a lock. It is a call of its own, so that
/// a search that meets no lock makes no room for what is named.
#[inline(never)]
fn first_of_point<const N: usize>(
    best: &mut Option<Rival>,
    point: &PointEntry<N>,
    held: Mode,
    tx: TxId,
    range: &KeyRange,
    mode: Mode,
)
    ensures { best.new ≡ step (record { tx = tx; range = range.now; mode = mode }) best.old (lock_at_point held point.now) }
{
    let holder = point.tx();
    let place = point.place();
    if conflicts(tx, range, mode, holder, &place, held) {
        let other = Rival {
            holder,
            range: place,
        };
        *best = nearer(best.take(), other);
    }
}

/// Takes into the best so far the first of the point locks in the range that are in conflict with a lock.
#[inline(never)]
fn first_in_range<const N: usize>(
    best: &mut Option<Rival>,
    points: &BTreeSet<PointEntry<N>>,
    held: Mode,
    tx: TxId,
    range: &KeyRange,
    mode: Mode,
)
    ensures { best.new ≡ nearest (record { tx = tx; range = range.now; mode = mode }) (map (lock_at_point held) points.now.keys) best.old }
{
    let start = start_of(range);
    for lock in points.range((start.as_ref(), ops::Bound::Unbounded)) {
        if !is_above(range.high(), lock.text()) {
            break;
        }
        first_of_point(best, lock, held, tx, range, mode);
    }
}

/// Takes into the best so far the first of the point locks held in one mode in conflict with a lock.
#[inline(always)]
pub fn first_point<const N: usize>(
    best: &mut Option<Rival>,
    points: &BTreeSet<PointEntry<N>>,
    held: Mode,
    tx: TxId,
    range: &KeyRange,
    mode: Mode,
)
    ensures { best.new ≡ nearest (record { tx = tx; range = range.now; mode = mode }) (map (lock_at_point held) points.now.keys) best.old }
{
    if points.is_empty() || !is_one_exclusive(mode, held) {
        return;
    }
    first_in_range(best, points, held, tx, range, mode);
}

/// Takes a range lock into the best so far where it is the first in conflict with a lock.
fn first_of(
    best: &mut Option<Rival>,
    holder: TxId,
    held: &RangeLock,
    tx: TxId,
    range: &KeyRange,
    mode: Mode,
) -> Result<(), AllocError>
    ensures { OnOk result (best.new ≡ step (record { tx = tx; range = range.now; mode = mode }) best.old (lock_on_range holder held.now)) }
{
    if conflicts(tx, range, mode, holder, &held.range, held.mode) {
        let range = held.range.clone()?;
        *best = nearer(best.take(), Rival { holder, range });
    }
    Ok(())
}

/// Takes into the best so far the first of a transaction's range locks in conflict with a lock.
fn first_of_holder(
    best: &mut Option<Rival>,
    holder: TxId,
    held: &[RangeLock],
    tx: TxId,
    range: &KeyRange,
    mode: Mode,
) -> Result<(), AllocError>
    ensures { OnOk result (best.new ≡ nearest (record { tx = tx; range = range.now; mode = mode }) (map (lock_on_range holder) held.now) best.old) }
{
    for lock in held {
        first_of(best, holder, lock, tx, range, mode)?;
    }
    Ok(())
}

/// Takes into the best so far the first of the range locks in conflict with a lock.
#[tactic(auto, unfolding(crate::specs::Nearest::nearest), using(crate::proofs::Conflicts::nearest_appended))]
pub fn first_range(
    best: &mut Option<Rival>,
    ranges: &BTreeMap<TxId, List<RangeLock>>,
    tx: TxId,
    range: &KeyRange,
    mode: Mode,
) -> Result<(), AllocError>
    ensures { OnOk result (best.new ≡ nearest (record { tx = tx; range = range.now; mode = mode }) (flat_map locks_on_ranges ranges.now.entries) best.old) }
{
    if ranges.is_empty() {
        return Ok(());
    }
    for (holder, held) in ranges {
        first_of_holder(best, *holder, held.as_slice(), tx, range, mode)?;
    }
    Ok(())
}
