//! Locks in conflict, of which the first is named.
ghost use Rattle.std.specs.Prelude.{◌≡◌};
ghost use Rattle.range_lock.specs.Order.{bound_cmp, range_cmp, rival_cmp};
ghost use Rattle.range_lock.specs.Nearest.{nearer};

use std::cmp::Ordering;
use store_model::{Bound, KeyRange, TxId};

/// A lock in conflict: its transaction and its range.
#[derive(Drop)]
pub struct Rival {
    pub holder: TxId,
    pub range: KeyRange,
}

#[tactic(auto, using(crate::proofs::Texts::above_is, crate::proofs::Texts::tied_is))]
fn compare_bounds(a: &Bound, b: &Bound) -> Ordering
    ensures { result ≡ bound_cmp a.now b.now }
{
    if a.is_below(b) {
        Ordering::Less
    } else if b.is_below(a) {
        Ordering::Greater
    } else {
        Ordering::Equal
    }
}

fn compare_ranges(a: &KeyRange, b: &KeyRange) -> Ordering
    ensures { result ≡ range_cmp a.now b.now }
{
    compare_bounds(a.low(), b.low()).then(compare_bounds(a.high(), b.high()))
}

fn compare_rivals(a: &Rival, b: &Rival) -> Ordering
    ensures { result ≡ rival_cmp a.now b.now }
{
    a.holder
        .cmp(&b.holder)
        .then(compare_ranges(&a.range, &b.range))
}

/// The one that is named of the best so far and another.
pub fn nearer(best: Option<Rival>, other: Rival) -> Option<Rival>
    ensures { result ≡ nearer best other }
{
    match best {
        Some(best) => {
            if compare_rivals(&other, &best).is_lt() {
                Some(other)
            } else {
                Some(best)
            }
        }
        None => Some(other),
    }
}
