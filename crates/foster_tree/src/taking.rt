//! A page taken, wherever it is.
ghost use Rattle.std.specs.Prelude.{◌≡◌, IfOk, IfErr, OnErr, OnOk};
ghost use mathlib.Core.List.{IsPrefix};
ghost use Rattle.page_ops.specs.Causes.{FailsToBring, MeetsNoEnd};
ghost use Rattle.page_ops.specs.Claims.{no_claims};
ghost use Rattle.page_ops.specs.Desks.{IsMade};
ghost use Rattle.page_ops.specs.Seeing.{is_upkeep, known};
ghost use Rattle.page_ops.specs.Gains.{Goes, IsSettled};
ghost use Rattle.foster_tree.specs.Nows.{KeepsDesk};

use front::Pass;
use page_ops::{Entering, Held, Life, Pages, Taken};
use std::alloc::Global;
use std::sync::Wait;
use store_model::{Fault, PageNo};
use wal_record::Entry;

/// The page, once nobody else holds it. It waits for who holds it, brings it where it is in no frame, and tries again.
pub fn take<N: Life, J: Entering<N>, P: Pages<N, J>, R: Wait>(
    rt: &R,
    alloc: Global,
    pages: &mut P,
    journal: &mut J,
    page: PageNo,
    pass: &mut Pass<Entry, N>,
) -> Result<Held<N>, Fault>
    requires none { (P.desk pages.old).out ≡ 0 }
    requires made { IsMade N.opens pass.old.log page }
    ensures page { IfOk result (λ held. held.page ≡ page) }
    ensures taken { IfOk result (λ held. (P.desk pages.new).out ≡ 1) }
    ensures none { IfErr result (λ fault. (P.desk pages.new).out ≡ 0) }
    ensures desk { KeepsDesk (P.desk pages.old) (P.desk pages.new) }
    ensures begins { IsPrefix pass.old.log pass.new.log }
    ensures goes { Goes is_upkeep (known (J.account journal.old) pass.old no_claims) (known (J.account journal.new) pass.new no_claims) }
    ensures settled { OnErr result (IsSettled N.opens N.entries N.session_entries (J.account journal.new) pass.new.log) }
    ensures open { OnOk result (MeetsNoEnd (J.account journal.old) (J.account journal.new)) }
    ensures refused { IfErr result (FailsToBring N.opens N.log_faults N.made (P.desk pages.old).faults (P.desk pages.new).faults (J.account journal.old) (J.account journal.new) pass.new.log) }
{
    for _ in rt.forever() {
        match pages.try_take(rt, page) {
            Taken::Page(held) => return Ok(held),
            Taken::Busy => pages.wait_for(rt, page),
            Taken::Away => pages.bring(rt, alloc, journal, page, pass)?,
        }
    }
    unreachable!()
}
