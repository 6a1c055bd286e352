//! A backup of all pages.
ghost use Rattle.std.specs.Prelude.{◌≡◌, ◌+◌, ◌*◌, ◌<◌, min, List, IfErr, IfOk, IsTrue, OnOk};
ghost use Rattle.foster_tree.specs.Nows.{KeepsDesk};
ghost use Rattle.page_ops.specs.Causes.{EndsBy, FailsToBring, FailsToEnter, MeetsNoEnd, NoOther};
ghost use Rattle.page_ops.specs.Claims.{no_claims};
ghost use Rattle.page_ops.specs.Gains.{IsSettled};
ghost use Rattle.page_ops.specs.Seeing.{Looks, known};
ghost use Rattle.wal_record.specs.History.{life_log};
ghost use Rattle.wal_record.specs.Rules.{is_number};
ghost use Rattle.wal_record.specs.Upkeep.{last_backup};
ghost use Rattle.wal_record.specs.declared.record.Record.{Record};
ghost use Rattle.backups.specs.Backups.{BacksUpOr};
ghost use Rattle.backups.specs.Copies.{AreMade};
ghost use Rattle.backups.specs.Going.{HasBackedUpOr, MayGoOn};

use crate::backed_pages::BackedPages;
use crate::copying::copy_segment;
use backup_set::segment_bytes;
use front::Pass;
use page_ops::{Journaling, Life};
use std::alloc::Global;
use std::sync::Wait;
use store_model::{Fault, HIGHEST, Lsn, SEGMENT_PAGES};
use wal_record::Entry;

/// The number of the next backup. One above the greatest that a record can name is want of memory.
fn next_backup<N: Life, J: Journaling<N>, R: Wait>(
    rt: &R,
    alloc: Global,
    journal: &mut J,
    pass: &mut Pass<Entry, N>,
) -> Result<u64, Fault>
    ensures number { IfOk result (λ n. IsTrue (is_number n)) }
    ensures next { IfOk result (λ n. (opening : List Record) → N.opens opening → n ≡ last_backup (life_log opening pass.new.log) + 1) }
    ensures seen { Looks N.opens N.entries N.session_entries (J.account journal.old) pass.old (J.account journal.new) pass.new }
    ensures open { OnOk result (MeetsNoEnd (J.account journal.old) (J.account journal.new)) }
    ensures refused { IfErr result (FailsToEnter NoOther) }
    ensures ends { IfErr result (EndsBy N.opens N.log_faults N.made (J.account journal.old) (J.account journal.new) pass.new.log) }
{
    let survey = journal.survey(rt, alloc, pass)?;
    let next = survey.analysis.next_backup;
    if next == 0 || next > HIGHEST {
        return Err(Fault::Memory);
    }
    Ok(next)
}

/// Backs up the next segment: copies its pages, and makes the object of these copies. Gives the LSN of the record that names it.
fn back_up_segment<N: Life, J: Journaling<N>, P: BackedPages<N, J>, R: Wait>(
    rt: &R,
    alloc: Global,
    pages: &mut P,
    journal: &mut J,
    backup: u64,
    segment: u32,
    most: u32,
    since: Lsn,
    pass: &mut Pass<Entry, N>,
) -> Result<Lsn, Fault>
    requires none { (P.desk pages.old).out ≡ 0 }
    requires number { IsTrue (is_number backup) }
    requires some { 16 * segment < most }
    requires made { AreMade N.opens pass.old.log most }
    requires next { MayGoOn N.opens since backup segment pass.old.log }
    ensures entered { HasBackedUpOr N.opens N.entries N.session_entries backup (16 * segment) (min most (16 * segment + 16)) result (known (J.account journal.old) pass.old no_claims) (known (J.account journal.new) pass.new no_claims) }
    ensures next { IfOk result (λ lsn. MayGoOn N.opens lsn backup (segment + 1) pass.new.log) }
    ensures none { (P.desk pages.new).out ≡ 0 }
    ensures desk { KeepsDesk (P.desk pages.old) (P.desk pages.new) }
    ensures open { OnOk result (MeetsNoEnd (J.account journal.old) (J.account journal.new)) }
    ensures refused { IfErr result (FailsToBring N.opens N.log_faults N.made (P.desk pages.old).faults (P.desk pages.new).faults (J.account journal.old) (J.account journal.new) pass.new.log) }
{
    let copies = copy_segment(rt, alloc, pages, journal, segment, most, pass)?;
    if pages.last_named(rt, journal, pass) != since {
        return Err(Fault::Memory);
    }
    let bytes = segment_bytes(alloc, backup, segment, copies.images())?;
    let naming = copies.into_naming(backup, segment);
    pages.name_object(rt, alloc, journal, since, naming, &bytes, pass)
}

/// Backs up one segment after the other, up to the one that has the last of so many pages.
fn back_up_all<N: Life, J: Journaling<N>, P: BackedPages<N, J>, R: Wait>(
    rt: &R,
    alloc: Global,
    pages: &mut P,
    journal: &mut J,
    backup: u64,
    most: u32,
    since: Lsn,
    pass: &mut Pass<Entry, N>,
) -> Result<(), Fault>
    requires none { (P.desk pages.old).out ≡ 0 }
    requires number { IsTrue (is_number backup) }
    requires made { AreMade N.opens pass.old.log most }
    requires next { MayGoOn N.opens since backup 0 pass.old.log }
    requires seen { IsSettled N.opens N.entries N.session_entries (J.account journal.old) pass.old.log }
    ensures entered { HasBackedUpOr N.opens N.entries N.session_entries backup 0 most result (known (J.account journal.old) pass.old no_claims) (known (J.account journal.new) pass.new no_claims) }
    ensures none { (P.desk pages.new).out ≡ 0 }
    ensures desk { KeepsDesk (P.desk pages.old) (P.desk pages.new) }
    ensures open { OnOk result (MeetsNoEnd (J.account journal.old) (J.account journal.new)) }
    ensures refused { IfErr result (FailsToBring N.opens N.log_faults N.made (P.desk pages.old).faults (P.desk pages.new).faults (J.account journal.old) (J.account journal.new) pass.new.log) }
{
    let mut since = since;
    for segment in 0..most.div_ceil(SEGMENT_PAGES) {
        since = back_up_segment(
            rt, alloc, pages, journal, backup, segment, most, since, pass,
        )?;
    }
    Ok(())
}

/// Makes a backup of all pages: of one segment after the other the images that its pages have then, each segment an object of
/// the vault. Gives the number of the backup. Pages are brought into frames where they aren't in memory. Where somebody else
/// makes an object meanwhile, it wants memory.
pub fn backup<N: Life, J: Journaling<N>, P: BackedPages<N, J>, R: Wait>(
    rt: &R,
    alloc: Global,
    pages: &mut P,
    journal: &mut J,
    pass: &mut Pass<Entry, N>,
) -> Result<u64, Fault>
    requires none { (P.desk pages.old).out ≡ 0 }
    ensures entered { BacksUpOr N.opens N.entries N.session_entries result (known (J.account journal.old) pass.old no_claims) (known (J.account journal.new) pass.new no_claims) }
    ensures none { (P.desk pages.new).out ≡ 0 }
    ensures desk { KeepsDesk (P.desk pages.old) (P.desk pages.new) }
    ensures open { OnOk result (MeetsNoEnd (J.account journal.old) (J.account journal.new)) }
    ensures refused { IfErr result (FailsToBring N.opens N.log_faults N.made (P.desk pages.old).faults (P.desk pages.new).faults (J.account journal.old) (J.account journal.new) pass.new.log) }
{
    let since = pages.last_named(rt, journal, pass);
    let backup = next_backup(rt, alloc, journal, pass)?;
    let most = journal.pages(rt, pass);
    back_up_all(rt, alloc, pages, journal, backup, most, since, pass)?;
    Ok(backup)
}
