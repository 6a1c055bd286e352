//! A plan, and the order of steps.
use super::*;
use std::alloc::Global;
use std::test::*;
use store_model::{List, Lsn};
use wal_record::{Analysis, PageHead};

/// A page with this head, whose image was written last as this LSN.
fn page(head: Lsn, written: Lsn) -> PageHead {
    PageHead {
        head,
        written,
        backup: 0,
        backup_lsn: 0,
    }
}

/// The analysis of a log with these pages.
fn analysis_of(alloc: Global, heads: List<PageHead>) -> Analysis {
    Analysis {
        losers: List::new(alloc),
        heads,
        lost: 0,
        unrestored: List::new(alloc),
        runs: List::new(alloc),
        commits: 0,
        next_tx: 1,
        next_backup: 1,
        next_run: 1,
        limit: 16_384,
    }
}

#[test]
fn pages_behind_their_images_await_redo_until_they_come(rt: HostRuntime) -> Result<(), Fail> {
    let alloc = rt.alloc();
    // One page was never written, one as it is, and one has records behind its image.
    let mut heads = List::new(alloc);
    heads.push(page(3, 0))?;
    heads.push(page(5, 5))?;
    heads.push(page(9, 4))?;
    let mut plan = RestartPlan::new(alloc, &analysis_of(alloc, heads))?;
    assert!(rt; plan.awaits_redo(1) && !plan.awaits_redo(2) && plan.awaits_redo(3));
    assert!(rt; !plan.awaits_redo(0) && !plan.awaits_redo(4));
    assert!(rt; plan.next(0) == Some(1) && plan.next(1) == Some(3) && plan.next(3).is_none());
    plan.came(3);
    plan.came(0);
    plan.came(4);
    assert!(rt; plan.awaits_redo(1) && !plan.awaits_redo(2) && !plan.awaits_redo(3));
    assert!(rt; plan.next(0) == Some(1) && plan.next(1).is_none() && plan.next(70).is_none());
    Ok(())
}

#[test]
fn a_page_far_behind_the_last_one_is_found(rt: HostRuntime) -> Result<(), Fail> {
    let alloc = rt.alloc();
    let mut heads = List::new(alloc);
    for number in 1..201_u64 {
        heads.push(page(number, if number % 130 == 0 { 0 } else { number }))?;
    }
    let plan = RestartPlan::new(alloc, &analysis_of(alloc, heads))?;
    assert!(rt;
        plan.next(0) == Some(130) && plan.next(129) == Some(130) && plan.next(130).is_none()
    );
    Ok(())
}

#[test]
fn losers_go_first_and_the_archive_last(rt: HostRuntime) -> Result<(), Fail> {
    let mut counts = Counts {
        undo: Some(1),
        restore: Some(2),
        redo: Some(3),
        write: Some(4),
        archive: Some(5),
    };
    assert!(rt; choose(&counts) == Some(Step::UndoLoser(1)));
    counts.undo = None;
    assert!(rt; choose(&counts) == Some(Step::RestoreSegment(2)));
    counts.restore = None;
    assert!(rt; choose(&counts) == Some(Step::RedoPage(3)));
    counts.redo = None;
    assert!(rt; choose(&counts) == Some(Step::WritePage(4)));
    counts.write = None;
    assert!(rt; choose(&counts) == Some(Step::ArchiveNext(5)));
    counts.archive = None;
    assert!(rt; choose(&counts).is_none());
    Ok(())
}
