//! A page that was made.
ghost use Rattle.std.specs.Prelude.{◌≡◌, Some, true, false};
ghost use Rattle.page_ops.specs.Hands.{IsInHand};

use books::PageRight;
use front::Pass;
use page_ops::{Entering, Held, Life, Pages};
use std::sync::Wait;
use wal_record::{Entry, PageState};

/// Puts a page that was made into the frame that is reserved for it. It takes no memory.
pub fn put_made<N: Life, J: Entering<N>, P: Pages<N, J>, R: Wait>(
    rt: &R,
    pages: &mut P,
    state: PageState,
    right: PageRight<N>,
    pass: Pass<Entry, N>,
)
    requires made { IsInHand N.opens record { page = right.page; lsn = right.lsn; state = state; dirty = true; right = Some right; pass = pass } }
    requires reserved { (P.desk pages.old).reserves ≡ true }
    ensures { P.desk pages.new ≡ record (P.desk pages.old) { reserves = false } }
{
    let mut made = Some(Held {
        page: right.page(),
        lsn: right.lsn(),
        state,
        dirty: true,
        right: Some(right),
        pass,
    });
    pages.put_new(rt, &mut made);
}
