//! A page of a life is rebuilt.
ghost use Rattle.std.specs.Prelude.{◌≤◌, IfOk, IfErr, IfSome, OnOk};
ghost use Rattle.page_ops.specs.Causes.{FailsToBring, MeetsNoEnd};
ghost use Rattle.page_ops.specs.Claims.{no_claims};
ghost use Rattle.page_ops.specs.Seeing.{Upholds, is_none, known};
ghost use Rattle.page_repair.specs.Supplies.{IsBase, IsHead, IsRebuilt};
ghost use Rattle.segment_restore.specs.Faults.{of_vault};

use crate::bases::Bases;
use crate::following::follow;
use front::Pass;
use operators::Operators;
use page_image::Sealed;
use page_ops::{Entering, Life, Rights};
use page_repair::{bad_chain, replay, start};
use std::alloc::Global;
use std::sync::Wait;
use store_model::{Fault, Lsn, PageNo};
use wal_record::Entry;

/// The page's logged image at this head: from the base, or from nothing, and from the records of its chain that came later,
/// each of which is asked of the journal once, and then of the run that has it, where the log has forgotten it. It enters
/// nothing.
pub fn rebuild_in_life<N: Life, J: Entering<N>, B: Bases<N, J>, R: Wait>(
    rt: &R,
    alloc: Global,
    journal: &mut J,
    bases: &mut B,
    page: PageNo,
    base: Option<Sealed>,
    head: Lsn,
    operators: &Operators,
    pass: &mut Pass<Entry, N>,
) -> Result<Sealed, Fault>
    requires base { IfSome base (IsBase N.opens pass.old.log page head) }
    requires head { IsHead N.opens pass.old.log page head }
    ensures rebuilt { IfOk result (IsRebuilt N.opens pass.new.log page head) }
    ensures faults { B.vault_faults bases.old ≤ B.vault_faults bases.new }
    ensures entered { Upholds N.opens N.entries N.session_entries is_none (known (J.account journal.old) pass.old no_claims) (known (J.account journal.new) pass.new no_claims) }
    ensures open { OnOk result (MeetsNoEnd (J.account journal.old) (J.account journal.new)) }
    ensures refused { IfErr result (FailsToBring N.opens N.log_faults N.made (of_vault (B.vault_faults bases.old)) (of_vault (B.vault_faults bases.new)) (J.account journal.old) (J.account journal.new) pass.new.log) }
{
    journal.see(rt, &mut Rights::none(), pass);
    let (low, mut state) = start(base);
    let records = follow(rt, alloc, journal, bases, page, low, head, pass)?;
    if !replay(alloc, page, &mut state, records, operators)? {
        return Err(bad_chain());
    }
    match state {
        Some(state) => Ok(Sealed { state, lsn: head }),
        None => Err(bad_chain()),
    }
}
