//! A page at its head, in hand.
ghost use Rattle.std.specs.Prelude.{◌≡◌, ◌≤◌, is_some, not, IfOk, IfErr, IfSome, OnErr, OnOk};
ghost use Rattle.page_ops.specs.Causes.{FailsToBring, MeetsNoEnd};
ghost use Rattle.page_ops.specs.Claims.{IsInRange, PageAgrees, no_claims};
ghost use Rattle.page_ops.specs.Desks.{KeepsFaults};
ghost use Rattle.page_ops.specs.Seeing.{IsConsistent, Upholds, is_upkeep, known};
ghost use Rattle.page_repair.specs.Supplies.{IsBase, IsHead, IsRebuilt};
ghost use Rattle.buffer_pool.specs.Bases.{is_current};
ghost use Rattle.buffer_pool.specs.Hands.{one_right};
ghost use Rattle.buffer_pool.specs.Repairs.{Repairs};

use books::PageRight;
use front::Pass;
use page_image::Sealed;
use page_ops::{Entering, Held, Life, Rights};
use page_repair::Supply;
use std::alloc::Global;
use std::sync::Wait;
use store_model::{Fault, Lsn, PageNo};
use wal_record::Entry;

/// The page at its head, from the base, or else from its last backup or nothing. A page that is rebuilt without a base
/// counts as repaired once it is rebuilt, where an image of it was written since the last loss.
pub(crate) fn rebuilt<N: Life, J: Entering<N>, S: Supply<N, J>, R: Wait>(
    rt: &R,
    alloc: Global,
    journal: &mut J,
    supply: &mut S,
    right: &PageRight<N>,
    page: PageNo,
    lsn: Lsn,
    base: Option<Sealed>,
    pass: &mut Pass<Entry, N>,
) -> Result<Sealed, Fault>
    requires right { right.now ≡ record { page = page; lsn = lsn } }
    requires base { IfSome base (IsBase N.opens pass.old.log page lsn) }
    requires head { IsHead N.opens pass.old.log page lsn }
    ensures page { IfOk result (IsRebuilt N.opens pass.new.log page lsn) }
    ensures repairs { Repairs N.opens N.entries N.session_entries page (is_some base) result (known (J.account journal.old) pass.old no_claims) (known (J.account journal.new) pass.new no_claims) }
    ensures entered { Upholds N.opens N.entries N.session_entries is_upkeep (known (J.account journal.old) pass.old no_claims) (known (J.account journal.new) pass.new no_claims) }
    ensures faults { KeepsFaults (S.faults supply.old) (S.faults supply.new) }
    ensures open { OnOk result (MeetsNoEnd (J.account journal.old) (J.account journal.new)) }
    ensures refused { IfErr result (FailsToBring N.opens N.log_faults N.made (S.faults supply.old) (S.faults supply.new) (J.account journal.old) (J.account journal.new) pass.new.log) }
{
    let given = base.is_some();
    let sealed = supply.rebuilt(rt, alloc, journal, page, base, lsn, pass)?;
    if given {
        return Ok(sealed);
    }
    journal.repaired(rt, alloc, right, pass)?;
    Ok(sealed)
}

/// Whether the data device has the page as it is at its head.
fn is_current(base: &Option<Sealed>, head: Lsn) -> bool
    ensures { result ≡ is_current head base.now }
{
    match base {
        Some(base) => base.lsn == head,
        None => false,
    }
}

/// The page whose right this is, at its head and in hand. It is dirty where the data device didn't give it as it is there.
/// After a refusal the right is where it was.
pub(crate) fn in_hand<N: Life, J: Entering<N>, S: Supply<N, J>, R: Wait>(
    rt: &R,
    alloc: Global,
    journal: &mut J,
    supply: &mut S,
    rights: &mut Rights<N>,
    page: PageNo,
    lsn: Lsn,
    base: Option<Sealed>,
    pass: &mut Pass<Entry, N>,
) -> Result<Held<N>, Fault>
    requires right { rights.old ≡ one_right (record { page = page; lsn = lsn }) }
    requires range { IsInRange (record { page = page; lsn = lsn }) }
    requires consistent { IsConsistent N.opens pass.old.log }
    requires agrees { PageAgrees N.opens pass.old.log (record { page = page; lsn = lsn }) }
    requires base { IfSome base (IsBase N.opens pass.old.log page lsn) }
    ensures page { IfOk result (λ held. (held.page ≡ page) × (held.lsn ≡ lsn) × (held.dirty ≡ not (is_current lsn base))) }
    ensures same { OnErr result (rights.new ≡ rights.old) }
    ensures repairs { Repairs N.opens N.entries N.session_entries page (is_some base) result (known (J.account journal.old) pass.old no_claims) (known (J.account journal.new) pass.new no_claims) }
    ensures entered { Upholds N.opens N.entries N.session_entries is_upkeep (known (J.account journal.old) pass.old no_claims) (known (J.account journal.new) pass.new no_claims) }
    ensures faults { KeepsFaults (S.faults supply.old) (S.faults supply.new) }
    ensures open { OnOk result (MeetsNoEnd (J.account journal.old) (J.account journal.new)) }
    ensures refused { IfErr result (FailsToBring N.opens N.log_faults N.made (S.faults supply.old) (S.faults supply.new) (J.account journal.old) (J.account journal.new) pass.new.log) }
{
    let seen = pass.copy(&journal.ground().board);
    let clean = is_current(&base, lsn);
    let Some(right) = rights.a.take() else {
        unreachable!()
    };
    match rebuilt(rt, alloc, journal, supply, &right, page, lsn, base, pass) {
        Ok(sealed) => Ok(Held {
            page,
            lsn,
            state: sealed.state,
            dirty: !clean,
            right: Some(right),
            pass: seen,
        }),
        Err(fault) => {
            rights.a = Some(right);
            Err(fault)
        }
    }
}
