//! The steps of a descent of a write.
ghost use Rattle.std.specs.Prelude.{◌≡◌, ◌<◌, IsTrue, IfErr, IfOk, IfSome, OnOk, Some, if◌then◌else◌, is_some, true};
ghost use mathlib.Core.List.{IsPrefix};
ghost use Rattle.wal_record.specs.State.{KeepsState, free_bytes, has_within};
ghost use Rattle.page_ops.specs.Claims.{no_claims};
ghost use Rattle.page_ops.specs.Gains.{IsSettled};
ghost use Rattle.page_ops.specs.Seeing.{known};
ghost use Rattle.foster_tree.specs.Nows.{IsNow, pages_in};
ghost use Rattle.foster_tree.specs.Ways.{IsToChild, IsWay, LeadsTo};
ghost use Rattle.adoption.specs.Adoptions.{Leads, row_bytes};
ghost use Rattle.adoption.specs.Descents.{Fails, GoesOn, StaysTidy, StaysTidyBy, standing};

use crate::adopting::try_adopt;
use crate::outcome::Adoption;
use crate::steps::{leads, may_adopt};
use foster_tree::{Way, fetch, is_within, mend, see_image};
use front::Pass;
use page_ops::{Entering, Held, Life, Pages, Taken};
use smo::split;
use std::alloc::Global;
use std::sync::Wait;
use store_model::{Fault, PageNo};
use wal_record::Entry;

/// The page from which the descent goes on: the next one, if it agrees with the one in hand, or the one in hand once more,
/// where it has taken the child with the key. None where a page had to be waited for, or brought, or made, or where two
/// didn't agree.
pub(crate) fn step<N: Life, J: Entering<N>, P: Pages<N, J>, R: Wait>(
    rt: &R,
    alloc: Global,
    pages: &mut P,
    journal: &mut J,
    key: &[u8],
    held: Held<N>,
    way: Way,
    child: PageNo,
    pass: &mut Pass<Entry, N>,
) -> Result<Option<Held<N>>, Fault>
    requires taken { (P.desk pages.old).out ≡ 1 }
    requires reserved { (P.desk pages.old).reserves ≡ true }
    requires within { IsTrue (has_within held.state key.now) }
    requires way { IsWay key.now held.state way }
    requires child { LeadsTo way child }
    requires now { IsNow N.opens pass.old.log held }
    requires settled { IsSettled N.opens N.entries N.session_entries (J.account journal.old) pass.old.log }
    ensures within { IfOk result (λ found. IfSome found (λ next. IsTrue (has_within next.state key.now))) }
    ensures taken { IfOk result (λ found. (P.desk pages.new).out ≡ pages_in found) }
    ensures reserved { IfOk result (λ found. IfSome found (λ next. (P.desk pages.new).reserves ≡ true)) }
    ensures tidy { IfOk result (λ found. IfSome found (StaysTidy N.opens N.entries (known (J.account journal.old) pass.old no_claims) pass.new.log key.now held.page)) }
    ensures goes { OnOk result (GoesOn (standing (P.desk pages.old) (J.account journal.old) pass.old) (standing (P.desk pages.new) (J.account journal.new) pass.new)) }
    ensures fails { IfErr result (Fails N.opens N.entries N.session_entries N.log_faults N.made (standing (P.desk pages.old) (J.account journal.old) pass.old) (standing (P.desk pages.new) (J.account journal.new) pass.new)) }
{
    match pages.try_take(rt, child) {
        Taken::Page(next) => {
            if !leads(&held.state, key, way, &next.state) {
                mend(rt, alloc, pages, journal, held, next, pass)?;
                return Ok(None);
            }
            if may_adopt(way, &next.state) {
                return adopt_first(rt, alloc, pages, journal, key, held, next, pass);
            }
            pages.put_back(rt, &mut Some(held));
            Ok(Some(next))
        }
        Taken::Busy => {
            pages.put_back(rt, &mut Some(held));
            pages.wait_for(rt, child);
            Ok(None)
        }
        Taken::Away => {
            fetch(rt, alloc, pages, journal, key, held, way, child, pass)?;
            Ok(None)
        }
    }
}

/// The same where a row leads to a page with a foster child, and both are in hand.
fn adopt_first<N: Life, J: Entering<N>, P: Pages<N, J>, R: Wait>(
    rt: &R,
    alloc: Global,
    pages: &mut P,
    journal: &mut J,
    key: &[u8],
    parent: Held<N>,
    fosterer: Held<N>,
    pass: &mut Pass<Entry, N>,
) -> Result<Option<Held<N>>, Fault>
    requires taken { (P.desk pages.old).out ≡ 2 }
    requires reserved { (P.desk pages.old).reserves ≡ true }
    requires rules { KeepsState parent.state }
    requires within { IsTrue (has_within parent.state key.now) }
    requires within_too { IsTrue (has_within fosterer.state key.now) }
    requires way { IsToChild key.now parent.state fosterer.page }
    requires child { Leads parent.state fosterer.page fosterer.state }
    requires foster { IsTrue (is_some fosterer.state.foster) }
    requires now { IsNow N.opens pass.old.log parent }
    requires settled { IsSettled N.opens N.entries N.session_entries (J.account journal.old) pass.old.log }
    ensures within { IfOk result (λ found. IfSome found (λ next. IsTrue (has_within next.state key.now))) }
    ensures taken { IfOk result (λ found. (P.desk pages.new).out ≡ pages_in found) }
    ensures reserved { IfOk result (λ found. IfSome found (λ next. (P.desk pages.new).reserves ≡ true)) }
    ensures tidy { IfOk result (λ found. IfSome found (StaysTidy N.opens N.entries (known (J.account journal.old) pass.old no_claims) pass.new.log key.now parent.page)) }
    ensures goes { OnOk result (GoesOn (standing (P.desk pages.old) (J.account journal.old) pass.old) (standing (P.desk pages.new) (J.account journal.new) pass.new)) }
    ensures fails { IfErr result (Fails N.opens N.entries N.session_entries N.log_faults N.made (standing (P.desk pages.old) (J.account journal.old) pass.old) (standing (P.desk pages.new) (J.account journal.new) pass.new)) }
{
    let mut parent = parent;
    let mut fosterer = fosterer;
    see_image(rt, journal, &mut fosterer, pass);
    match try_adopt(rt, alloc, journal, &mut parent, &mut fosterer, pass) {
        Ok(Adoption::Adopted) => Ok(Some(nearer(rt, pages, key, parent, fosterer))),
        Ok(Adoption::NothingToAdopt) => unreachable!(),
        Ok(Adoption::NoRoom { free: _, needed: _ }) => {
            split_first(rt, alloc, pages, journal, key, parent, fosterer, pass)
        }
        Err(fault) => {
            pages.put_back(rt, &mut Some(parent));
            pages.put_back(rt, &mut Some(fosterer));
            Err(fault)
        }
    }
}

/// Of a page and the one to which its row has led, the one that still has the key between its fence keys; the other one is
/// put back.
fn nearer<N: Life, J: Entering<N>, P: Pages<N, J>, R: Wait>(
    rt: &R,
    pages: &mut P,
    key: &[u8],
    parent: Held<N>,
    child: Held<N>,
) -> Held<N>
    requires taken { (P.desk pages.old).out ≡ 2 }
    ensures near { result ≡ if has_within child.state key.now then child else parent }
    ensures desk { P.desk pages.new ≡ record (P.desk pages.old) { out = 1 } }
{
    if is_within(&child.state, key) {
        pages.put_back(rt, &mut Some(parent));
        child
    } else {
        pages.put_back(rt, &mut Some(child));
        parent
    }
}

/// The parent, which has no room for a foster child, is split, and None. Where there is no room for a page more the foster
/// child stays, and the descent goes on from the page that has it.
fn split_first<N: Life, J: Entering<N>, P: Pages<N, J>, R: Wait>(
    rt: &R,
    alloc: Global,
    pages: &mut P,
    journal: &mut J,
    key: &[u8],
    parent: Held<N>,
    fosterer: Held<N>,
    pass: &mut Pass<Entry, N>,
) -> Result<Option<Held<N>>, Fault>
    requires taken { (P.desk pages.old).out ≡ 2 }
    requires reserved { (P.desk pages.old).reserves ≡ true }
    requires rules { KeepsState parent.state }
    requires begins { IsPrefix parent.pass.log pass.old.log }
    requires within { IsTrue (has_within fosterer.state key.now) }
    requires way { IsToChild key.now parent.state fosterer.page }
    requires crowded { IfSome fosterer.state.foster (λ f. free_bytes parent.state < row_bytes f) }
    requires some { IsTrue (is_some fosterer.state.foster) }
    requires now { IsNow N.opens pass.old.log fosterer }
    ensures within { IfOk result (λ found. IfSome found (λ next. IsTrue (has_within next.state key.now))) }
    ensures taken { IfOk result (λ found. (P.desk pages.new).out ≡ pages_in found) }
    ensures reserved { IfOk result (λ found. IfSome found (λ next. (P.desk pages.new).reserves ≡ true)) }
    ensures tidy { IfOk result (λ found. IfSome found (StaysTidyBy N.opens N.entries (known (J.account journal.old) pass.old no_claims) pass.new.log key.now parent)) }
    ensures goes { OnOk result (GoesOn (standing (P.desk pages.old) (J.account journal.old) pass.old) (standing (P.desk pages.new) (J.account journal.new) pass.new)) }
    ensures fails { IfErr result (Fails N.opens N.entries N.session_entries N.log_faults N.made (standing (P.desk pages.old) (J.account journal.old) pass.old) (standing (P.desk pages.new) (J.account journal.new) pass.new)) }
{
    let mut parent = parent;
    match split(rt, alloc, pages, journal, &mut parent, pass) {
        Ok(None) => {
            pages.put_back(rt, &mut Some(parent));
            Ok(Some(fosterer))
        }
        Ok(Some(_)) => {
            pages.put_back(rt, &mut Some(parent));
            pages.put_back(rt, &mut Some(fosterer));
            Ok(None)
        }
        Err(fault) => {
            pages.put_back(rt, &mut Some(parent));
            pages.put_back(rt, &mut Some(fosterer));
            Err(fault)
        }
    }
}
