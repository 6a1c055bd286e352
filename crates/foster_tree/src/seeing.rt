//! What a pass sees of a page in hand.
ghost use Rattle.std.specs.Prelude.{◌≡◌};
ghost use mathlib.Core.List.{IsPrefix};
ghost use Rattle.page_ops.specs.Causes.{MeetsNoFault};
ghost use Rattle.page_ops.specs.Claims.{PageAgrees, no_claims};
ghost use Rattle.page_ops.specs.Seeing.{IsConsistent, Looks, Upholds, is_upkeep, known};
ghost use Rattle.foster_tree.specs.Nows.{IsNow};

use front::Pass;
use page_ops::{Entering, Held, Life, Rights};
use std::sync::Wait;
use wal_record::Entry;

/// Shows the pass the whole history, in which the page's head is that of the page in hand.
pub fn see_page<N: Life, J: Entering<N>, R: Wait>(
    rt: &R,
    journal: &mut J,
    held: &mut Held<N>,
    pass: &mut Pass<Entry, N>,
)
    ensures same { held.new ≡ held.old }
    ensures seen { Looks N.opens N.entries N.session_entries (J.account journal.old) pass.old (J.account journal.new) pass.new }
    ensures agrees { PageAgrees N.opens pass.new.log (record { page = held.old.page; lsn = held.old.lsn }) }
    ensures calm { MeetsNoFault (J.account journal.old) (J.account journal.new) }
{
    let mut rights = Rights::none();
    rights.a = held.right.take();
    journal.see(rt, &mut rights, pass);
    held.right = rights.a.take();
}

/// The same, where the page in hand is the image that the log of the whole history makes of it.
pub fn see_image<N: Life, J: Entering<N>, R: Wait>(
    rt: &R,
    journal: &mut J,
    held: &mut Held<N>,
    pass: &mut Pass<Entry, N>,
)
    ensures same { held.new ≡ held.old }
    ensures begins { IsPrefix pass.old.log pass.new.log }
    ensures consistent { IsConsistent N.opens pass.new.log }
    ensures entered { Upholds N.opens N.entries N.session_entries is_upkeep (known (J.account journal.old) pass.old no_claims) (known (J.account journal.new) pass.new no_claims) }
    ensures now { IsNow N.opens pass.new.log held.old }
    ensures calm { MeetsNoFault (J.account journal.old) (J.account journal.new) }
{
    let seen = held.pass.copy(&journal.ground().board);
    pass.meet(&journal.ground().board, seen);
    see_page(rt, journal, held, pass);
}
