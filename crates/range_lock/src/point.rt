//! Ranges of a single key, and the locks on them.
ghost use Rattle.std.specs.Prelude.{◌≡◌, ◌≢◌, ◌↔◌, ◌⊎◌, ◌&&◌, ◌||◌, ◌++◌, ◌∷◌, [], not, ℕ, List, length, IfSome, IfNone, OnOk, OnErr, IsTrue, true};
ghost use Rattle.store_model.specs.Range.{point, includes};
ghost use Rattle.range_lock.specs.Lock.{IsAmong, is_exclusive};
ghost use Rattle.range_lock.specs.Among.{HasTheSame, Adds};
ghost use Rattle.range_lock.specs.Point.{PointLock, IsKey};
ghost use Rattle.range_lock.specs.Tables.{is_listed, AreListed, IsCoveredAtPoint};

use crate::entry::is_key;
use crate::key_list::KeyList;
use crate::keys::list_key;
use crate::point_locks::PointLocks;
use crate::search::is_exclusive;
use std::alloc::{AllocError, Global};
use std::collections::BTreeMap;
use store_model::{KeyRange, Mode, TxId};

/// Whether a text is another with a zero byte behind it: the next text above that one.
fn is_next(text: &[u8], next: &[u8]) -> bool
    ensures { IsTrue result ↔ (next.now ≡ text.now ++ 0 ∷ []) }
{
    match next.split_last() {
        Some((last, front)) => *last == 0 && front == text,
        None => false,
    }
}

/// The text that a range is the range of, if it is that of one text.
fn point_text(range: &KeyRange) -> Option<&[u8]>
    ensures some { IfSome result (λ text. range.now ≡ point text.now) }
    ensures none { IfNone result ((key : List ℕ) → range.now ≢ point key) }
{
    let low = range.low().as_bytes()?;
    let high = range.high().as_bytes()?;
    if is_next(low, high) { Some(low) } else { None }
}

/// The bytes of the key that a range is the range of, if it is that of one key.
pub fn point_of(range: &KeyRange) -> Option<&[u8]>
    ensures value { IfSome result (λ key. range.now ≡ point key.now) }
    ensures is_key { IfSome result (λ key. IsKey key.now) }
{
    let text = point_text(range)?;
    if is_key(text) { Some(text) } else { None }
}

/// Whether a range includes another.
pub fn includes(wide: &KeyRange, range: &KeyRange) -> bool
    ensures { result ≡ includes wide.now range.now }
{
    !range.low().is_below(wide.low()) && !wide.high().is_below(range.high())
}

/// Adds a lock on the key of these bytes to those held in one mode, and lists the key for its transaction. Where memory runs
/// out, these locks stay as they were.
pub fn put_point(
    alloc: Global,
    points: &mut PointLocks,
    keys: &mut BTreeMap<TxId, KeyList>,
    tx: TxId,
    key: &[u8],
) -> Result<(), AllocError>
    requires is_key { IsKey key.now }
    requires listed { AreListed points.old keys.old }
    ensures ok { OnOk result (Adds points.old points.new (record { key = key.now; tx = tx })) }
    ensures err { OnErr result (HasTheSame points.old points.new) }
    ensures listed { AreListed points.new keys.new }

    // The keys of the locks in the other mode are listed still.
    ensures stays { (p : PointLock) → is_listed keys.old p ≡ true → is_listed keys.new p ≡ true }
{
    if !points.insert(key, tx)? {
        return Ok(());
    }
    match list_key(alloc, keys, tx, key) {
        Ok(()) => Ok(()),
        Err(_) => {
            points.remove(key, tx);
            Err(AllocError)
        }
    }
}

/// Whether an exclusive or a shared lock is enough for a mode.
fn suffices(exclusive: bool, shared: bool, mode: Mode) -> bool
    ensures { result ≡ (exclusive || (shared && not (is_exclusive mode))) }
{
    exclusive || (shared && !is_exclusive(mode))
}

/// Whether one of the transaction's locks on single keys includes the range in this mode.
pub fn covers_at_point(
    shared: &PointLocks,
    exclusive: &PointLocks,
    tx: TxId,
    range: &KeyRange,
    mode: Mode,
) -> bool
    ensures { IsTrue result ↔ IsCoveredAtPoint shared.now exclusive.now tx range.now mode }
{
    let _low = range.low();
    match point_text(range) {
        None => false,
        Some(text) => {
            let by_exclusive = exclusive.contains(text, tx);
            let by_shared = shared.contains(text, tx);
            suffices(by_exclusive, by_shared, mode)
        }
    }
}
