//! The leaf of a key.
ghost use Rattle.std.specs.Prelude.{◌≡◌, IsTrue, IfOk, IfErr, IfSome, OnErr, OnOk};
ghost use mathlib.Core.List.{IsPrefix};
ghost use Rattle.wal_record.specs.State.{has_within};
ghost use Rattle.wal_record.specs.Images.{IsLeafOf};
ghost use Rattle.page_ops.specs.Causes.{FailsToBring, MeetsNoEnd};
ghost use Rattle.page_ops.specs.Claims.{no_claims};
ghost use Rattle.page_ops.specs.Desks.{IsMade};
ghost use Rattle.page_ops.specs.Seeing.{Upholds, is_upkeep, known};
ghost use Rattle.page_ops.specs.Gains.{Goes, IsSettled};
ghost use Rattle.foster_tree.specs.Nows.{IsNow, KeepsDesk, pages_in};
ghost use Rattle.foster_tree.specs.Ways.{IsWay, LeadsTo};

use crate::seeing::see_image;
use crate::taking::take;
use crate::way::{Way, agrees, is_within, way_from};
use front::Pass;
use page_ops::{Entering, Held, Life, Pages, Taken};
use std::alloc::Global;
use std::sync::Wait;
use store_model::{Fault, PageNo};
use wal_record::Entry;

/// The leaf whose own part has the key, in hand, as the journal's log makes it now. Any text may stand for the key, as a
/// range begins at one. It starts again at page 1 after it has waited for a page, brought one, or found two that don't
/// agree: whoever waits holds none.
pub fn find_leaf<N: Life, J: Entering<N>, P: Pages<N, J>, R: Wait>(
    rt: &R,
    alloc: Global,
    pages: &mut P,
    journal: &mut J,
    key: &[u8],
    pass: &mut Pass<Entry, N>,
) -> Result<Held<N>, Fault>
    requires none { (P.desk pages.old).out ≡ 0 }
    requires made { IsMade N.opens pass.old.log 1 }
    ensures leaf { IfOk result (λ held. IsLeafOf key.now held.state) }
    ensures now { IfOk result (IsNow N.opens pass.new.log) }
    ensures taken { IfOk result (λ held. (P.desk pages.new).out ≡ 1) }
    ensures none { IfErr result (λ fault. (P.desk pages.new).out ≡ 0) }
    ensures desk { KeepsDesk (P.desk pages.old) (P.desk pages.new) }
    ensures begins { IsPrefix pass.old.log pass.new.log }
    ensures entered { Upholds N.opens N.entries N.session_entries is_upkeep (known (J.account journal.old) pass.old no_claims) (known (J.account journal.new) pass.new no_claims) }
    ensures open { OnOk result (MeetsNoEnd (J.account journal.old) (J.account journal.new)) }
    ensures refused { IfErr result (FailsToBring N.opens N.log_faults N.made (P.desk pages.old).faults (P.desk pages.new).faults (J.account journal.old) (J.account journal.new) pass.new.log) }
{
    for _ in rt.forever() {
        let root = take(rt, alloc, pages, journal, 1, pass)?;
        if let Some(leaf) = descend(rt, alloc, pages, journal, key, root, pass)? {
            return Ok(leaf);
        }
    }
    unreachable!()
}

/// From the root in hand to the leaf, or None where it has put back what it held and is to start again.
fn descend<N: Life, J: Entering<N>, P: Pages<N, J>, R: Wait>(
    rt: &R,
    alloc: Global,
    pages: &mut P,
    journal: &mut J,
    key: &[u8],
    root: Held<N>,
    pass: &mut Pass<Entry, N>,
) -> Result<Option<Held<N>>, Fault>
    requires taken { (P.desk pages.old).out ≡ 1 }
    ensures leaf { IfOk result (λ found. IfSome found (λ held. IsLeafOf key.now held.state)) }
    ensures now { IfOk result (λ found. IfSome found (IsNow N.opens pass.new.log)) }
    ensures taken { IfOk result (λ found. (P.desk pages.new).out ≡ pages_in found) }
    ensures none { IfErr result (λ fault. (P.desk pages.new).out ≡ 0) }
    ensures desk { KeepsDesk (P.desk pages.old) (P.desk pages.new) }
    ensures begins { IsPrefix pass.old.log pass.new.log }
    ensures goes { Goes is_upkeep (known (J.account journal.old) pass.old no_claims) (known (J.account journal.new) pass.new no_claims) }
    ensures settled { OnErr result (IsSettled N.opens N.entries N.session_entries (J.account journal.new) pass.new.log) }
    ensures found { IfOk result (λ found. IfSome found (λ held. IsSettled N.opens N.entries N.session_entries (J.account journal.new) pass.new.log)) }
    ensures open { OnOk result (MeetsNoEnd (J.account journal.old) (J.account journal.new)) }
    ensures refused { IfErr result (FailsToBring N.opens N.log_faults N.made (P.desk pages.old).faults (P.desk pages.new).faults (J.account journal.old) (J.account journal.new) pass.new.log) }
{
    if !is_within(&root.state, key) {
        pages.renew(rt, alloc, journal, &mut Some(root), pass)?;
        return Ok(None);
    }
    let mut held = root;
    for _ in rt.forever() {
        let way = way_from(&held.state, key);
        let child = match way {
            Way::Here => {
                see_image(rt, journal, &mut held, pass);
                return Ok(Some(held));
            }
            Way::Child { slot: _, page } => page,
            Way::Foster(child) => child,
        };
        held = match step(rt, alloc, pages, journal, key, held, way, child, pass)? {
            Some(next) => next,
            None => return Ok(None),
        };
    }
    unreachable!()
}

/// The next page, if it agrees with the one in hand, which is put back only when the next one is taken. None where it had
/// to be waited for, or brought, or didn't agree.
fn step<N: Life, J: Entering<N>, P: Pages<N, J>, R: Wait>(
    rt: &R,
    alloc: Global,
    pages: &mut P,
    journal: &mut J,
    key: &[u8],
    held: Held<N>,
    way: Way,
    child: PageNo,
    pass: &mut Pass<Entry, N>,
) -> Result<Option<Held<N>>, Fault>
    requires taken { (P.desk pages.old).out ≡ 1 }
    requires within { IsTrue (has_within held.state key.now) }
    requires way { IsWay key.now held.state way }
    requires child { LeadsTo way child }
    ensures within { IfOk result (λ found. IfSome found (λ next. IsTrue (has_within next.state key.now))) }
    ensures taken { IfOk result (λ found. (P.desk pages.new).out ≡ pages_in found) }
    ensures none { IfErr result (λ fault. (P.desk pages.new).out ≡ 0) }
    ensures desk { KeepsDesk (P.desk pages.old) (P.desk pages.new) }
    ensures begins { IsPrefix pass.old.log pass.new.log }
    ensures goes { Goes is_upkeep (known (J.account journal.old) pass.old no_claims) (known (J.account journal.new) pass.new no_claims) }
    ensures settled { OnErr result (IsSettled N.opens N.entries N.session_entries (J.account journal.new) pass.new.log) }
    ensures open { OnOk result (MeetsNoEnd (J.account journal.old) (J.account journal.new)) }
    ensures refused { IfErr result (FailsToBring N.opens N.log_faults N.made (P.desk pages.old).faults (P.desk pages.new).faults (J.account journal.old) (J.account journal.new) pass.new.log) }
{
    match pages.try_take(rt, child) {
        Taken::Page(next) => {
            if agrees(&held.state, key, way, &next.state) {
                pages.put_back(rt, &mut Some(held));
                return Ok(Some(next));
            }
            mend(rt, alloc, pages, journal, held, next, pass)?;
            Ok(None)
        }
        Taken::Busy => {
            pages.put_back(rt, &mut Some(held));
            pages.wait_for(rt, child);
            Ok(None)
        }
        Taken::Away => {
            fetch(rt, alloc, pages, journal, key, held, way, child, pass)?;
            Ok(None)
        }
    }
}

/// Puts the page in hand back, and brings the one to which it leads.
pub fn fetch<N: Life, J: Entering<N>, P: Pages<N, J>, R: Wait>(
    rt: &R,
    alloc: Global,
    pages: &mut P,
    journal: &mut J,
    key: &[u8],
    held: Held<N>,
    way: Way,
    child: PageNo,
    pass: &mut Pass<Entry, N>,
) -> Result<(), Fault>
    requires taken { (P.desk pages.old).out ≡ 1 }
    requires within { IsTrue (has_within held.state key.now) }
    requires way { IsWay key.now held.state way }
    requires child { LeadsTo way child }
    ensures none { (P.desk pages.new).out ≡ 0 }
    ensures desk { KeepsDesk (P.desk pages.old) (P.desk pages.new) }
    ensures begins { IsPrefix pass.old.log pass.new.log }
    ensures entered { Upholds N.opens N.entries N.session_entries is_upkeep (known (J.account journal.old) pass.old no_claims) (known (J.account journal.new) pass.new no_claims) }
    ensures open { OnOk result (MeetsNoEnd (J.account journal.old) (J.account journal.new)) }
    ensures refused { IfErr result (FailsToBring N.opens N.log_faults N.made (P.desk pages.old).faults (P.desk pages.new).faults (J.account journal.old) (J.account journal.new) pass.new.log) }
{
    let mut held = held;
    see_image(rt, journal, &mut held, pass);
    pages.put_back(rt, &mut Some(held));
    pages.bring(rt, alloc, journal, child, pass)
}

/// Brings two pages anew that don't agree, one after the other.
pub fn mend<N: Life, J: Entering<N>, P: Pages<N, J>, R: Wait>(
    rt: &R,
    alloc: Global,
    pages: &mut P,
    journal: &mut J,
    held: Held<N>,
    next: Held<N>,
    pass: &mut Pass<Entry, N>,
) -> Result<(), Fault>
    requires taken { (P.desk pages.old).out ≡ 2 }
    ensures none { (P.desk pages.new).out ≡ 0 }
    ensures desk { KeepsDesk (P.desk pages.old) (P.desk pages.new) }
    ensures begins { IsPrefix pass.old.log pass.new.log }
    ensures entered { Upholds N.opens N.entries N.session_entries is_upkeep (known (J.account journal.old) pass.old no_claims) (known (J.account journal.new) pass.new no_claims) }
    ensures open { OnOk result (MeetsNoEnd (J.account journal.old) (J.account journal.new)) }
    ensures refused { IfErr result (FailsToBring N.opens N.log_faults N.made (P.desk pages.old).faults (P.desk pages.new).faults (J.account journal.old) (J.account journal.new) pass.new.log) }
{
    let mut held = held;
    let page = held.page;
    see_image(rt, journal, &mut held, pass);
    pages.put_back(rt, &mut Some(held));
    pages.renew(rt, alloc, journal, &mut Some(next), pass)?;
    let again = take(rt, alloc, pages, journal, page, pass)?;
    pages.renew(rt, alloc, journal, &mut Some(again), pass)
}
