//! A page in hand that is dropped.
ghost use Rattle.std.specs.Prelude.{◌≡◌};
ghost use Rattle.page_ops.specs.Claims.{IsInRange};

use books::PageRight;
use page_ops::{Held, Life};

/// The right to the page in hand, which is dropped.
pub(crate) fn into_right<N: Life>(held: Held<N>) -> PageRight<N>
    ensures right { result ≡ record { page = held.page; lsn = held.lsn } }
    ensures range { IsInRange result }
{
    let Held { right, .. } = held;
    let Some(right) = right else { unreachable!() };
    right
}
