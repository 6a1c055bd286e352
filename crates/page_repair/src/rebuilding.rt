//! A page is rebuilt: from a base and the records of its chain that came later.
//!
//! The chain is followed back onto a stack, and its records are redone forward.
ghost use Rattle.std.specs.Prelude.{◌≡◌, ◌↔◌, ◌+◌, ◌<◌, ◌≤◌, List, length, Some, IfOk, IfErr, IfSome};
ghost use Rattle.wal_record.specs.declared.record.Record.{Record};
ghost use Rattle.page_ops.specs.Desks.{KeepsFaults};
ghost use Rattle.page_repair.specs.Chains.{FailsToFollow, IsUnknown, SaysEnd};
ghost use Rattle.chain_laws.specs.Steps.{named_between};
ghost use Rattle.page_repair.specs.Rebuild.{IsBaseOf, IsChainOf, IsPageOf, base_lsn};

use crate::back::{bad_chain, follow};
use crate::chain::Chain;
use crate::forward::{replay, start};
use operators::Operators;
use page_image::Sealed;
use std::alloc::Global;
use std::sync::Wait;
use store_model::{Fault, Lsn, PageNo};

/// The page's logged image at this head: from the base, or from nothing, and from the records of its chain that came
/// later, each of which is asked for once. A base that stands at the head is the page, and the chain isn't asked, so that
/// an ended life gives it, too.
pub fn rebuild<C: Chain, R: Wait>(
    rt: &R,
    alloc: Global,
    page: PageNo,
    base: Option<Sealed>,
    head: Lsn,
    chain: &mut C,
    operators: &Operators,
) -> Result<Sealed, Fault>
    requires chain { IsChainOf (C.answers chain.old) page head }
    requires base { IfSome base (IsBaseOf (C.answers chain.old) page head) }
    ensures rebuilt { IfOk result (IsPageOf (C.answers chain.old) page head) }
    ensures few { (log : List Record) → C.answers chain.old log → C.calls chain.new ≤ C.calls chain.old + length (named_between log page (base_lsn base) head) }
    ensures answers { (log : List Record) → C.answers chain.old log ↔ C.answers chain.new log }
    ensures faults { KeepsFaults (C.faults chain.old) (C.faults chain.new) }
    ensures ended { IfSome (C.ended chain.old) (λ at. C.ended chain.new ≡ Some at) }
    ensures ends { base_lsn base < head → IfSome (C.ended chain.old) (λ at. SaysEnd at result) }
    ensures refused { IfErr result (FailsToFollow (IsUnknown (C.answers chain.old)) (C.faults chain.old) (C.faults chain.new) (C.ended chain.new)) }
{
    let (low, mut state) = start(base);
    let records = follow(rt, alloc, page, low, head, chain)?;
    if !replay(alloc, page, &mut state, records, operators)? {
        return Err(bad_chain());
    }
    match state {
        Some(state) => Ok(Sealed { state, lsn: head }),
        None => Err(bad_chain()),
    }
}
