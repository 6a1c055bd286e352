//! The pages of a segment are copied.
ghost use Rattle.std.specs.Prelude.{◌≡◌, ◌+◌, ◌*◌, ◌^◌, ◌<◌, ◌≤◌, IfErr, IfOk, OnErr, OnOk};
ghost use mathlib.Core.List.{IsPrefix};
ghost use Rattle.foster_tree.specs.Nows.{KeepsDesk};
ghost use Rattle.page_ops.specs.Causes.{FailsToBring, MeetsNoEnd};
ghost use Rattle.page_ops.specs.Claims.{no_claims};
ghost use Rattle.page_ops.specs.Desks.{IsMade};
ghost use Rattle.page_ops.specs.Gains.{Goes, IsSettled};
ghost use Rattle.page_ops.specs.Seeing.{is_upkeep, known};
ghost use Rattle.backups.specs.Copies.{AreDrawn, AreMade, HasOneMore, pages_in};

use crate::copies::Copies;
use foster_tree::{see_image, take};
use front::Pass;
use page_image::seal;
use page_ops::{Entering, Life, Pages};
use std::alloc::Global;
use std::sync::Wait;
use store_model::{Fault, PageNo, SEGMENT_PAGES};
use wal_record::Entry;

/// Copies the next page of a segment, as it is now: takes it, wherever it is, and puts it back.
fn copy_page<N: Life, J: Entering<N>, P: Pages<N, J>, R: Wait>(
    rt: &R,
    alloc: Global,
    pages: &mut P,
    journal: &mut J,
    page: PageNo,
    copies: &mut Copies,
    pass: &mut Pass<Entry, N>,
) -> Result<(), Fault>
    requires none { (P.desk pages.old).out ≡ 0 }
    requires made { IsMade N.opens pass.old.log page }
    ensures copied { OnOk result (HasOneMore N.opens pass.new.log page copies.old copies.new) }
    ensures none { (P.desk pages.new).out ≡ 0 }
    ensures desk { KeepsDesk (P.desk pages.old) (P.desk pages.new) }
    ensures begins { IsPrefix pass.old.log pass.new.log }
    ensures goes { Goes is_upkeep (known (J.account journal.old) pass.old no_claims) (known (J.account journal.new) pass.new no_claims) }
    ensures settled { OnErr result (IsSettled N.opens N.entries N.session_entries (J.account journal.new) pass.new.log) }
    ensures open { OnOk result (MeetsNoEnd (J.account journal.old) (J.account journal.new)) }
    ensures refused { IfErr result (FailsToBring N.opens N.log_faults N.made (P.desk pages.old).faults (P.desk pages.new).faults (J.account journal.old) (J.account journal.new) pass.new.log) }
{
    let mut held = take(rt, alloc, pages, journal, page, pass)?;
    see_image(rt, journal, &mut held, pass);
    let image = seal(&held.state, page, held.lsn);
    let added = copies.add(page, held.lsn, &image);
    pages.put_back(rt, &mut Some(held));
    added?;
    Ok(())
}

/// Copies the pages of a segment, up to the last one that there is. No two are in hand at once.
pub(crate) fn copy_segment<N: Life, J: Entering<N>, P: Pages<N, J>, R: Wait>(
    rt: &R,
    alloc: Global,
    pages: &mut P,
    journal: &mut J,
    segment: u32,
    most: u32,
    pass: &mut Pass<Entry, N>,
) -> Result<Copies, Fault>
    requires none { (P.desk pages.old).out ≡ 0 }
    requires some { 16 * segment < most }
    requires made { AreMade N.opens pass.old.log most }
    ensures drawn { IfOk result (AreDrawn N.opens pass.old.log pass.new.log segment (pages_in segment most)) }
    ensures none { (P.desk pages.new).out ≡ 0 }
    ensures desk { KeepsDesk (P.desk pages.old) (P.desk pages.new) }
    ensures begins { IsPrefix pass.old.log pass.new.log }
    ensures goes { Goes is_upkeep (known (J.account journal.old) pass.old no_claims) (known (J.account journal.new) pass.new no_claims) }
    ensures settled { OnErr result (IsSettled N.opens N.entries N.session_entries (J.account journal.new) pass.new.log) }
    ensures open { OnOk result (MeetsNoEnd (J.account journal.old) (J.account journal.new)) }
    ensures refused { IfErr result (FailsToBring N.opens N.log_faults N.made (P.desk pages.old).faults (P.desk pages.new).faults (J.account journal.old) (J.account journal.new) pass.new.log) }
{
    let before = segment * SEGMENT_PAGES;
    let last = most.min(before.saturating_add(SEGMENT_PAGES));
    let mut copies = Copies::new(alloc);
    for done in before..last {
        copy_page(rt, alloc, pages, journal, done + 1, &mut copies, pass)?;
    }
    Ok(copies)
}
