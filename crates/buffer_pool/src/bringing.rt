//! A page on its way to its frame.
ghost use Rattle.std.specs.Prelude.{◌≡◌, ◌≤◌, false, true, IfErr, IfNone, IfOk, IfSome, OnErr, OnOk};
ghost use Rattle.media.specs.Cause.{Rose};
ghost use Rattle.page_ops.specs.Causes.{FailsToBring, MeetsNoEnd};
ghost use Rattle.page_ops.specs.Claims.{IsInRange, PageAgrees, no_claims};
ghost use Rattle.page_ops.specs.Desks.{KeepsFaults};
ghost use Rattle.page_ops.specs.Seeing.{IsConsistent, Upholds, is_none, is_upkeep, known};
ghost use Rattle.page_repair.specs.Images.{SameNewest, Spares};
ghost use Rattle.page_repair.specs.Supplies.{is_restored};
ghost use Rattle.buffer_pool.specs.Bases.{IsGiven};
ghost use Rattle.buffer_pool.specs.Brings.{BringsInHand, WasWritten};
ghost use Rattle.buffer_pool.specs.Hands.{one_right};
ghost use Rattle.buffer_pool.specs.Repairs.{Repairs};

use crate::base::{base_in, read_image};
use crate::rebuilding::in_hand;
use front::Pass;
use media::PageBytes;
use page_ops::{Entering, Held, Life, Rights};
use page_repair::{Images, Supply};
use std::alloc::Global;
use std::sync::Wait;
use store_model::{Fault, Lsn, PageNo};
use wal_record::Entry;

/// Restores the page's segment, if it is unrestored. The LSN as which the page was written last since the last loss, 0 for
/// none.
fn made_ready<N: Life, J: Entering<N>, I: Images<N>, S: Supply<N, J>, R: Wait>(
    rt: &R,
    alloc: Global,
    journal: &mut J,
    images: &mut I,
    supply: &mut S,
    rights: &mut Rights<N>,
    page: PageNo,
    lsn: Lsn,
    pass: &mut Pass<Entry, N>,
) -> Result<Lsn, Fault>
    requires right { rights.old ≡ one_right (record { page = page; lsn = lsn }) }
    requires range { IsInRange (record { page = page; lsn = lsn }) }
    ensures same { rights.new ≡ rights.old }
    ensures written { IfOk result (WasWritten N.opens pass.old.log pass.new.log page) }
    ensures spared { I.tells → Spares N.opens page pass.old.log pass.new.log I.newest images.old images.new }
    ensures images { I.faults images.old ≤ I.faults images.new }
    ensures entered { Upholds N.opens N.entries N.session_entries is_restored (known (J.account journal.old) pass.old no_claims) (known (J.account journal.new) pass.new no_claims) }
    ensures faults { KeepsFaults (S.faults supply.old) (S.faults supply.new) }
    ensures open { OnOk result (MeetsNoEnd (J.account journal.old) (J.account journal.new)) }
    ensures refused { IfErr result (FailsToBring N.opens N.log_faults N.made (S.faults supply.old) (S.faults supply.new) (J.account journal.old) (J.account journal.new) pass.new.log) }
{
    let listed = journal.listed(rt, page, pass)?;
    if !listed.unrestored {
        return Ok(listed.ends.written);
    }
    journal.see(rt, rights, pass);
    supply.ready(rt, alloc, journal, images, page, pass)?;
    Ok(listed.ends.written)
}

/// What the data device gives of the page. The pass then has seen the whole history.
fn seen_image<N: Life, J: Entering<N>, I: Images<N>, R: Wait>(
    rt: &R,
    journal: &mut J,
    images: &mut I,
    rights: &mut Rights<N>,
    page: PageNo,
    lsn: Lsn,
    pass: &mut Pass<Entry, N>,
) -> Option<PageBytes>
    requires right { rights.old ≡ one_right (record { page = page; lsn = lsn }) }
    ensures same { rights.new ≡ rights.old }
    ensures image { IfSome result (IsGiven N.opens pass.new page) }
    ensures failed { IfNone result (Rose (I.faults images.old) (I.faults images.new)) }
    ensures images { I.tells → SameNewest I.newest images.old images.new }
    ensures consistent { IsConsistent N.opens pass.new.log }
    ensures agrees { PageAgrees N.opens pass.new.log (record { page = page; lsn = lsn }) }
    ensures entered { Upholds N.opens N.entries N.session_entries is_none (known (J.account journal.old) pass.old no_claims) (known (J.account journal.new) pass.new no_claims) }
    ensures open { MeetsNoEnd (J.account journal.old) (J.account journal.new) }
{
    let bytes = read_image(rt, images, page, pass);
    journal.see(rt, rights, pass);
    bytes
}

/// The page in hand, from the data device, or else from its last backup or nothing, and from the records of its chain that
/// came later. After a refusal the right is where it was.
pub(crate) fn brought<N: Life, J: Entering<N>, I: Images<N>, S: Supply<N, J>, R: Wait>(
    rt: &R,
    alloc: Global,
    journal: &mut J,
    images: &mut I,
    supply: &mut S,
    rights: &mut Rights<N>,
    page: PageNo,
    lsn: Lsn,
    pass: &mut Pass<Entry, N>,
) -> Result<Held<N>, Fault>
    requires right { rights.old ≡ one_right (record { page = page; lsn = lsn }) }
    requires range { IsInRange (record { page = page; lsn = lsn }) }
    ensures brings { BringsInHand N.opens N.entries N.session_entries page lsn (I.faults images.old) (I.faults images.new) result (known (J.account journal.old) pass.old no_claims) (known (J.account journal.new) pass.new no_claims) }
    ensures same { OnErr result (rights.new ≡ rights.old) }
    ensures spared { I.tells → Spares N.opens page pass.old.log pass.new.log I.newest images.old images.new }
    ensures entered { Upholds N.opens N.entries N.session_entries is_upkeep (known (J.account journal.old) pass.old no_claims) (known (J.account journal.new) pass.new no_claims) }
    ensures faults { KeepsFaults (S.faults supply.old) (S.faults supply.new) }
    ensures open { OnOk result (MeetsNoEnd (J.account journal.old) (J.account journal.new)) }
    ensures refused { IfErr result (FailsToBring N.opens N.log_faults N.made (S.faults supply.old) (S.faults supply.new) (J.account journal.old) (J.account journal.new) pass.new.log) }
{
    let written = made_ready(rt, alloc, journal, images, supply, rights, page, lsn, pass)?;
    let bytes = seen_image(rt, journal, images, rights, page, lsn, pass);
    let Ok(base) = base_in(alloc, &bytes, page, written, lsn) else {
        return Err(Fault::Memory);
    };
    in_hand(rt, alloc, journal, supply, rights, page, lsn, base, pass)
}

/// The same without a look at the data device.
pub(crate) fn anew<N: Life, J: Entering<N>, S: Supply<N, J>, R: Wait>(
    rt: &R,
    alloc: Global,
    journal: &mut J,
    supply: &mut S,
    rights: &mut Rights<N>,
    page: PageNo,
    lsn: Lsn,
    pass: &mut Pass<Entry, N>,
) -> Result<Held<N>, Fault>
    requires right { rights.old ≡ one_right (record { page = page; lsn = lsn }) }
    requires range { IsInRange (record { page = page; lsn = lsn }) }
    ensures page { IfOk result (λ held. (held.page ≡ page) × (held.lsn ≡ lsn) × (held.dirty ≡ true)) }
    ensures repairs { Repairs N.opens N.entries N.session_entries page false result (known (J.account journal.old) pass.old no_claims) (known (J.account journal.new) pass.new no_claims) }
    ensures same { OnErr result (rights.new ≡ rights.old) }
    ensures entered { Upholds N.opens N.entries N.session_entries is_upkeep (known (J.account journal.old) pass.old no_claims) (known (J.account journal.new) pass.new no_claims) }
    ensures faults { KeepsFaults (S.faults supply.old) (S.faults supply.new) }
    ensures open { OnOk result (MeetsNoEnd (J.account journal.old) (J.account journal.new)) }
    ensures refused { IfErr result (FailsToBring N.opens N.log_faults N.made (S.faults supply.old) (S.faults supply.new) (J.account journal.old) (J.account journal.new) pass.new.log) }
{
    journal.see(rt, rights, pass);
    in_hand(rt, alloc, journal, supply, rights, page, lsn, None, pass)
}
