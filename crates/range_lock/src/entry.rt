//! The locks as the tables keep them.
ghost use Rattle.std.proofs.Common.{rules};
ghost use Rattle.std.specs.Prelude.{◌≡◌, ◌≤◌, ◌↔◌, length, IsSome, IfSome, IsTrue};
ghost use Rattle.std.specs.Cmp.{partial_order_from_own_ties};
ghost use Rattle.std.specs.Cmp.Rules.{comparing};
ghost use Rattle.std.specs.Cmp.Lexicographic.{slice_cmp};
ghost use Rattle.std.specs.Ordering.{nat_cmp, on, then_cmp, as_partial_cmp};
ghost use Rattle.store_model.specs.Range.{point};
ghost use Rattle.range_lock.specs.Point.{HasLength, IsKey};

use arrayvec::ArrayVec;
use std::cmp::Ordering;
use std::marker::Model;
use store_model::{KEY_BYTES, Key, KeyRange, Mode, TxId};
use text_order::compare_texts;

/// Whether these bytes are a key: they are 1 to [`KEY_BYTES`].
pub fn is_key(text: &[u8]) -> bool
    ensures { IsTrue result ↔ IsKey text.now }
{
    !text.is_empty() && text.len() <= KEY_BYTES
}

/// A transaction's lock on a single key, with room for a key of `N` bytes. These are ordered by key, then by transaction.
#[derive(PartialEq, Eq, Drop)]
pub struct PointEntry<const N: usize> {
    key: ArrayVec<u8, N>,
    tx: TxId,
}

impl<const N: usize> Model for PointEntry<N> {
    ghost use Rattle.range_lock.specs.Point.{PointLock, IsKey};

    ghost Value = { PointLock };

    ghost view = { λ l. record { key = l.key.items; tx = l.tx } };

    ghost invariant = { λ l. IsKey l.key.items };

    ghost inverse = { λ p. record { key = record { items = p.key }; tx = p.tx } };
}

impl<const N: usize> PointEntry<N> {
    /// A lock on the key of these bytes, if they are a key that has room.
    pub fn new(text: &[u8], tx: TxId) -> Option<PointEntry<N>>
        ensures value { IfSome result (λ p. p ≡ record { key = text.now; tx = tx }) }
        ensures exact { IsSome result ↔ (IsKey text.now × (length text.now ≤ N)) }
    {
        if !is_key(text) {
            return None;
        }
        match ArrayVec::try_from(text) {
            Ok(key) => Some(PointEntry { key, tx }),
            Err(_) => None,
        }
    }

    /// The bytes of its key.
    pub fn text(&self) -> &[u8]
        ensures { result.now ≡ self.now.key }
    {
        self.key.as_slice()
    }

    /// Who holds it.
    pub fn tx(&self) -> TxId
        ensures { result ≡ self.now.tx }
    {
        self.tx
    }

    /// The range of its key.
    pub fn place(&self) -> KeyRange
        ensures { result ≡ point self.now.key }
    {
        match Key::new(self.key.as_slice()) {
            Some(key) => KeyRange::point(&key),
            None => unreachable!(),
        }
    }
}

impl<const N: usize> Ord for PointEntry<N> {
    ghost cmp = { then_cmp (on (λ l. l.key) (slice_cmp nat_cmp)) (on (λ l. l.tx) nat_cmp) };

    ghost total = { Prim.search (comparing, rules) };

    ghost matches_partial_cmp = { Prim.search (comparing, rules) };

    ghost matches_eq = { Prim.search (comparing, rules) };

    fn cmp(&self, other: &PointEntry<N>) -> Ordering {
        // (The transactions are compared only where the keys are equal, which is rare.)
        match compare_texts(self.key.as_slice(), other.key.as_slice()) {
            Ordering::Equal => self.tx.cmp(&other.tx),
            order => order,
        }
    }
}

impl<const N: usize> PartialOrd for PointEntry<N> {
    ghost partial_cmp = { as_partial_cmp (then_cmp (on (λ l. l.key) (slice_cmp nat_cmp)) (on (λ l. l.tx) nat_cmp)) };

    ghost laws = { partial_order_from_own_ties (Prim.search (comparing, rules)) (Prim.search (comparing, rules)) };

    fn partial_cmp(&self, other: &PointEntry<N>) -> Option<Ordering> {
        Some(self.cmp(other))
    }
}

/// A lock on a wider range.
#[derive(Drop)]
pub struct RangeLock {
    pub range: KeyRange,
    pub mode: Mode,
}
