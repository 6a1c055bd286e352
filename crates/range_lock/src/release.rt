//! The release of a transaction's point locks.
ghost use Rattle.std.specs.Prelude.{◌≡◌, ◌≢◌, take, drop, true, false};
ghost use Rattle.std.specs.List.{list_any};
ghost use Rattle.std.specs.Ordering.{nat_cmp, eq_by_cmp};
ghost use Rattle.std.specs.Cmp.Lexicographic.{slice_cmp};
ghost use Rattle.range_lock.specs.Cut.{cut_into};
ghost use Rattle.range_lock.specs.Lock.{IsAmong};
ghost use Rattle.range_lock.specs.Point.{PointLock};

use crate::key_list::KeyList;
use crate::point_locks::PointLocks;
use store_model::TxId;

/// The first bytes, `n` of them or all, and the others.
fn cut(bytes: &[u8], n: usize) -> (&[u8], &[u8])
    ensures front { result.0.now ≡ take n bytes.now }
    ensures back { result.1.now ≡ drop n bytes.now }
{
    bytes.split_at(n.min(bytes.len()))
}

/// Removes a transaction's locks on the keys of these lengths in the texts.
fn remove_cut(points: &mut PointLocks, tx: TxId, lengths: &[u8], texts: &[u8])
    ensures others { (p : PointLock) → p.tx ≢ tx → IsAmong p points.old → IsAmong p points.new }
    ensures fewer { (p : PointLock) → IsAmong p points.new → IsAmong p points.old }
    ensures gone { (p : PointLock) → p.tx ≡ tx → IsAmong p points.new → list_any (eq_by_cmp (slice_cmp nat_cmp) p.key) (cut_into lengths.now texts.now) ≡ false }
{
    let mut rest = texts;
    for n in lengths {
        let (text, after) = cut(rest, *n as usize);
        points.remove(text, tx);
        rest = after;
    }
}

/// Removes a transaction's locks on the keys that are listed.
pub fn remove_listed(points: &mut PointLocks, tx: TxId, keys: &KeyList)
    ensures others { (p : PointLock) → p.tx ≢ tx → IsAmong p points.old → IsAmong p points.new }
    ensures fewer { (p : PointLock) → IsAmong p points.new → IsAmong p points.old }
    ensures gone { (p : PointLock) → p.tx ≡ tx → IsAmong p points.new → list_any (eq_by_cmp (slice_cmp nat_cmp) p.key) keys.now ≡ false }
{
    if points.is_empty() {
        return;
    }
    let (lengths, texts) = keys.parts();
    remove_cut(points, tx, lengths, texts);
}
