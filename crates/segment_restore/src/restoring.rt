//! A segment is restored.
ghost use Rattle.std.specs.Prelude.{◌≡◌, ◌≤◌, ◌⊎◌, List, IfErr, IfOk, OnOk};
ghost use Rattle.media.specs.Cause.{Rose};
ghost use Rattle.page_ops.specs.Causes.{FailsToBring, MeetsNoEnd};
ghost use Rattle.page_ops.specs.Claims.{no_claims};
ghost use Rattle.page_ops.specs.Seeing.{Upholds, is_none, known};
ghost use Rattle.page_repair.specs.Images.{SameOthers};
ghost use Rattle.page_repair.specs.Supplies.{is_restored};
ghost use Rattle.wal_record.specs.Upkeep.{segment_of};
ghost use Rattle.wal_record.specs.declared.record.Record.{Record};
ghost use Rattle.segment_restore.specs.Faults.{no_faults, of_vault};
ghost use Rattle.segment_restore.specs.Restored.{AreBack, IsBack, IsLost, IsRestored, SpareOthers, WasUnrestored, restored_group};

use crate::bases::Bases;
use crate::writing::restore_page;
use front::Pass;
use operators::Operators;
use page_ops::{Entered, Entering, Group, Life, Rights};
use page_repair::Images;
use std::alloc::Global;
use std::sync::Wait;
use store_model::{Fault, List, Memory, PageNo, SEGMENT_PAGES};
use wal_record::{Entry, Record, Restored};

/// The segment that has the page.
pub(crate) fn segment_of(page: PageNo) -> u32
    ensures { result ≡ segment_of page }
{
    page.saturating_sub(1) / SEGMENT_PAGES
}

/// Restores the page, if it was made. The device may fail.
fn restore_listed<N: Life, J: Entering<N>, I: Images<N>, B: Bases<N, J>, R: Wait>(
    rt: &R,
    alloc: Global,
    journal: &mut J,
    images: &mut I,
    bases: &mut B,
    page: PageNo,
    operators: &Operators,
    pass: &mut Pass<Entry, N>,
) -> Result<(), Fault>
    ensures written { I.tells → OnOk result (IsBack N.opens pass.old.log pass.new.log page (I.newest images.new page) ⊎ Rose (I.faults images.old) (I.faults images.new)) }
    ensures others { I.tells → SameOthers I.newest page images.old images.new }
    ensures faults { B.vault_faults bases.old ≤ B.vault_faults bases.new }
    ensures images { I.faults images.old ≤ I.faults images.new }
    ensures entered { Upholds N.opens N.entries N.session_entries is_none (known (J.account journal.old) pass.old no_claims) (known (J.account journal.new) pass.new no_claims) }
    ensures open { OnOk result (MeetsNoEnd (J.account journal.old) (J.account journal.new)) }
    ensures refused { IfErr result (FailsToBring N.opens N.log_faults N.made (of_vault (B.vault_faults bases.old)) (of_vault (B.vault_faults bases.new)) (J.account journal.old) (J.account journal.new) pass.new.log) }
{
    let listed = journal.listed(rt, page, pass)?;
    if listed.ends.head == 0 {
        return Ok(());
    }
    restore_page(
        rt,
        alloc,
        journal,
        images,
        bases,
        page,
        listed.ends.head,
        operators,
        pass,
    )
}

/// Writes the images of the segment's pages up to `lost`, the number of pages at the last loss of the data device, in order of
/// page: each is rebuilt from its base as the log has it now. Pages that came later were never on the lost device. It enters
/// nothing. Where the device doesn't take an image, it goes on with the next page, and the page will be repaired when it is
/// brought.
pub fn restore<N: Life, J: Entering<N>, I: Images<N>, B: Bases<N, J>, R: Wait>(
    rt: &R,
    alloc: Global,
    journal: &mut J,
    images: &mut I,
    bases: &mut B,
    segment: u32,
    lost: u32,
    operators: &Operators,
    pass: &mut Pass<Entry, N>,
) -> Result<(), Fault>
    ensures written { I.tells → OnOk result (AreBack N.opens pass.old.log pass.new.log (IsLost segment lost) (I.newest images.new) (I.faults images.old) (I.faults images.new)) }
    ensures spared { I.tells → SpareOthers (IsLost segment lost) I.newest images.old images.new }
    ensures faults { B.vault_faults bases.old ≤ B.vault_faults bases.new }
    ensures images { I.faults images.old ≤ I.faults images.new }
    ensures entered { Upholds N.opens N.entries N.session_entries is_none (known (J.account journal.old) pass.old no_claims) (known (J.account journal.new) pass.new no_claims) }
    ensures open { OnOk result (MeetsNoEnd (J.account journal.old) (J.account journal.new)) }
    ensures refused { IfErr result (FailsToBring N.opens N.log_faults N.made (of_vault (B.vault_faults bases.old)) (of_vault (B.vault_faults bases.new)) (J.account journal.old) (J.account journal.new) pass.new.log) }
{
    let before = segment.saturating_mul(SEGMENT_PAGES);
    let last = lost.min(before.saturating_add(SEGMENT_PAGES));
    journal.see(rt, &mut Rights::none(), pass);
    for done in before..last {
        restore_listed(rt, alloc, journal, images, bases, done + 1, operators, pass)?;
    }
    Ok(())
}

/// The group of a segment that is restored.
fn group_of(alloc: Global, segment: u32) -> Result<Group, Memory>
    ensures { IfOk result (λ group. group ≡ restored_group segment) }
{
    let mut recs = List::new(alloc);
    recs.push(Record::Restored(Restored { segment }))?;
    Ok(Group {
        recs,
        said: None,
        room: false,
        lsn: 0,
    })
}

/// Enters that the segment is restored. Where another thread has entered it since, there is nothing left to do.
pub fn mark_restored<N: Life, J: Entering<N>, R: Wait>(
    rt: &R,
    alloc: Global,
    journal: &mut J,
    segment: u32,
    pass: &mut Pass<Entry, N>,
) -> Result<(), Fault>
    requires was { (opening : List Record) → N.opens opening → WasUnrestored opening pass.old.log segment }
    ensures restored { OnOk result ((opening : List Record) → N.opens opening → IsRestored opening pass.new.log segment) }
    ensures entered { Upholds N.opens N.entries N.session_entries is_restored (known (J.account journal.old) pass.old no_claims) (known (J.account journal.new) pass.new no_claims) }
    ensures open { OnOk result (MeetsNoEnd (J.account journal.old) (J.account journal.new)) }
    ensures refused { IfErr result (FailsToBring N.opens N.log_faults N.made no_faults no_faults (J.account journal.old) (J.account journal.new) pass.new.log) }
{
    let made = group_of(alloc, segment);
    let Ok(mut group) = made else {
        journal.see(rt, &mut Rights::none(), pass);
        return Err(Fault::Memory);
    };
    let mut rights = Rights::none();
    match journal.enter(rt, alloc, &mut group, &mut rights, pass)? {
        Entered::At(_) => Ok(()),
        Entered::Late(_) => Ok(()),
        Entered::NoRoom => unreachable!(),
    }
}
