//! The descent of a write.
ghost use Rattle.std.specs.Prelude.{◌≡◌, IsTrue, IfOk, IfErr, IfSome, OnOk, true};
ghost use mathlib.Core.List.{IsPrefix};
ghost use Rattle.wal_record.specs.Images.{IsLeafOf};
ghost use Rattle.wal_record.specs.State.{has_within};
ghost use Rattle.page_ops.specs.Causes.{FailsToBring, MeetsNoEnd};
ghost use Rattle.page_ops.specs.Claims.{no_claims};
ghost use Rattle.page_ops.specs.Desks.{IsMade, KeepsFaults};
ghost use Rattle.page_ops.specs.Gains.{IsSettled};
ghost use Rattle.page_ops.specs.Seeing.{Upholds, known};
ghost use Rattle.foster_tree.specs.Nows.{IsNow, pages_in};
ghost use Rattle.adoption.specs.Descents.{Fails, GoesOn, LeadsTidy, LeavesTidy, keeps_up, standing};

use crate::root::begin;
use crate::stepping::step;
use foster_tree::{Way, is_within, see_image, take, way_from};
use front::Pass;
use page_ops::{Entering, Held, Life, Pages};
use std::alloc::Global;
use std::sync::Wait;
use store_model::Fault;
use wal_record::Entry;

/// The leaf whose own part has the key, in hand, as the journal's log makes it now, for a write; and a frame is reserved
/// for a page that the write may make. On its way it keeps the tree up: a root with a foster child grows, a branch that
/// has room takes the foster child of the child to which it leads, and one that has no room for it is split. It starts
/// again at page 1 after it has made a page, waited for one, brought one, or found two that don't agree: whoever waits
/// holds none. After a refusal no page is held.
pub fn find_leaf_for_write<N: Life, J: Entering<N>, P: Pages<N, J>, R: Wait>(
    rt: &R,
    alloc: Global,
    pages: &mut P,
    journal: &mut J,
    key: &[u8],
    pass: &mut Pass<Entry, N>,
) -> Result<Held<N>, Fault>
    requires none { (P.desk pages.old).out ≡ 0 }
    requires made { IsMade N.opens pass.old.log 1 }
    ensures leaf { IfOk result (λ held. IsLeafOf key.now held.state) }
    ensures now { IfOk result (IsNow N.opens pass.new.log) }
    ensures taken { IfOk result (λ held. (P.desk pages.new).out ≡ 1) }
    ensures reserved { OnOk result ((P.desk pages.new).reserves ≡ true) }
    ensures none { IfErr result (λ fault. (P.desk pages.new).out ≡ 0) }
    ensures faults { KeepsFaults (P.desk pages.old).faults (P.desk pages.new).faults }
    ensures begins { IsPrefix pass.old.log pass.new.log }
    ensures entered { Upholds N.opens N.entries N.session_entries keeps_up (known (J.account journal.old) pass.old no_claims) (known (J.account journal.new) pass.new no_claims) }
    ensures tidy { OnOk result (LeavesTidy N.opens N.entries (known (J.account journal.old) pass.old no_claims) pass.new.log key.now) }
    ensures open { OnOk result (MeetsNoEnd (J.account journal.old) (J.account journal.new)) }
    ensures refused { IfErr result (FailsToBring N.opens N.log_faults N.made (P.desk pages.old).faults (P.desk pages.new).faults (J.account journal.old) (J.account journal.new) pass.new.log) }
{
    for _ in rt.forever() {
        pages.reserve_new(rt, alloc, journal, pass)?;
        let root = take(rt, alloc, pages, journal, 1, pass)?;
        if let Some(leaf) = descend(rt, alloc, pages, journal, key, root, pass)? {
            return Ok(leaf);
        }
    }
    unreachable!()
}

/// From the root in hand to the leaf, or None where it has put back what it held and is to start again.
fn descend<N: Life, J: Entering<N>, P: Pages<N, J>, R: Wait>(
    rt: &R,
    alloc: Global,
    pages: &mut P,
    journal: &mut J,
    key: &[u8],
    root: Held<N>,
    pass: &mut Pass<Entry, N>,
) -> Result<Option<Held<N>>, Fault>
    requires taken { (P.desk pages.old).out ≡ 1 }
    requires reserved { (P.desk pages.old).reserves ≡ true }
    requires root { root.page ≡ 1 }
    ensures leaf { IfOk result (λ found. IfSome found (λ held. IsLeafOf key.now held.state)) }
    ensures now { IfOk result (λ found. IfSome found (IsNow N.opens pass.new.log)) }
    ensures taken { IfOk result (λ found. (P.desk pages.new).out ≡ pages_in found) }
    ensures reserved { IfOk result (λ found. IfSome found (λ held. (P.desk pages.new).reserves ≡ true)) }
    ensures settled { IfOk result (λ found. IfSome found (λ held. IsSettled N.opens N.entries N.session_entries (J.account journal.new) pass.new.log)) }
    ensures tidy { IfOk result (λ found. IfSome found (λ held. LeavesTidy N.opens N.entries (known (J.account journal.old) pass.old no_claims) pass.new.log key.now)) }
    ensures goes { OnOk result (GoesOn (standing (P.desk pages.old) (J.account journal.old) pass.old) (standing (P.desk pages.new) (J.account journal.new) pass.new)) }
    ensures fails { IfErr result (Fails N.opens N.entries N.session_entries N.log_faults N.made (standing (P.desk pages.old) (J.account journal.old) pass.old) (standing (P.desk pages.new) (J.account journal.new) pass.new)) }
{
    if !is_within(&root.state, key) {
        pages.renew(rt, alloc, journal, &mut Some(root), pass)?;
        return Ok(None);
    }
    let Some(root) = begin(rt, alloc, pages, journal, root, pass)? else {
        return Ok(None);
    };
    go_down(rt, alloc, pages, journal, key, root, pass)
}

/// From a page in hand, between whose fence keys the key lies, to the leaf.
fn go_down<N: Life, J: Entering<N>, P: Pages<N, J>, R: Wait>(
    rt: &R,
    alloc: Global,
    pages: &mut P,
    journal: &mut J,
    key: &[u8],
    root: Held<N>,
    pass: &mut Pass<Entry, N>,
) -> Result<Option<Held<N>>, Fault>
    requires taken { (P.desk pages.old).out ≡ 1 }
    requires reserved { (P.desk pages.old).reserves ≡ true }
    requires within { IsTrue (has_within root.state key.now) }
    requires tidy { LeadsTidy N.opens N.entries (known (J.account journal.old) pass.old no_claims) pass.old.log key.now root }
    ensures leaf { IfOk result (λ found. IfSome found (λ held. IsLeafOf key.now held.state)) }
    ensures now { IfOk result (λ found. IfSome found (IsNow N.opens pass.new.log)) }
    ensures taken { IfOk result (λ found. (P.desk pages.new).out ≡ pages_in found) }
    ensures reserved { IfOk result (λ found. IfSome found (λ held. (P.desk pages.new).reserves ≡ true)) }
    ensures settled { IfOk result (λ found. IfSome found (λ held. IsSettled N.opens N.entries N.session_entries (J.account journal.new) pass.new.log)) }
    ensures tidy { IfOk result (λ found. IfSome found (λ held. LeavesTidy N.opens N.entries (known (J.account journal.old) pass.old no_claims) pass.new.log key.now)) }
    ensures goes { OnOk result (GoesOn (standing (P.desk pages.old) (J.account journal.old) pass.old) (standing (P.desk pages.new) (J.account journal.new) pass.new)) }
    ensures fails { IfErr result (Fails N.opens N.entries N.session_entries N.log_faults N.made (standing (P.desk pages.old) (J.account journal.old) pass.old) (standing (P.desk pages.new) (J.account journal.new) pass.new)) }
{
    let mut held = root;
    for _ in rt.forever() {
        see_image(rt, journal, &mut held, pass);
        let way = way_from(&held.state, key);
        let child = match way {
            Way::Here => return Ok(Some(held)),
            Way::Child { slot: _, page } => page,
            Way::Foster(child) => child,
        };
        held = match step(rt, alloc, pages, journal, key, held, way, child, pass)? {
            Some(next) => next,
            None => return Ok(None),
        };
    }
    unreachable!()
}
