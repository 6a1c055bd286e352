//! One step of a descent, held against what it leads to.
ghost use Rattle.std.specs.Prelude.{◌≡◌, IsTrue, true};
ghost use Rattle.wal_record.specs.State.{KeepsState, has_within};
ghost use Rattle.foster_tree.specs.Ways.{IsWay};
ghost use Rattle.adoption.specs.Descents.{IfByRow, may_adopt};

use fence_check::{check_foster, check_step};
use foster_tree::Way;
use wal_record::PageState;

/// Whether the page to which the way leads has the level and the fence keys that the page before promises of it.
pub(crate) fn leads(state: &PageState, key: &[u8], way: Way, next: &PageState) -> bool
    requires rules { KeepsState state.now }
    requires within { IsTrue (has_within state.now key.now) }
    requires way { IsWay key.now state.now way }
    ensures within { result ≡ true → IsTrue (has_within next.now key.now) }
    ensures slot { result ≡ true → IfByRow way state.now next.now }
{
    match way {
        Way::Here => false,
        Way::Child { slot, page: _ } => check_step(state, slot, next).is_ok(),
        Way::Foster(_) => check_foster(state, next).is_ok(),
    }
}

/// Whether the way leads by a row to a page with a foster child.
pub(crate) fn may_adopt(way: Way, next: &PageState) -> bool
    ensures { result ≡ may_adopt way next.now }
{
    match way {
        Way::Child { slot: _, page: _ } => next.foster.is_some(),
        _ => false,
    }
}
