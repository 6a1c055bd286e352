//! Logs, each with its Checkpoint and the analysis that was worked out by hand.
//!
//! An analysis tells, in this order: the losers, each with its last record, the write to be undone next and its open writes
//! with key and LSN; of each page its head, the LSN as which it was written, its backup and the LSN there; the pages at the
//! last loss; the segments not restored since; the standing runs; the commits; and the next numbers of a transaction, a
//! backup and a run.
use crate::told::{numbers_in, numbers_of};
use log_analysis::analyse;
use log_blocks::open_log;
use log_text::{Given, disk_of};
use std::alloc::Global;
use std::test::Fail;
use store_model::Lsn;

/// Whether the analysis of a log, whose Checkpoint has this LSN, has the numbers of this text.
fn is_analysed(
    alloc: Global,
    log: &str,
    given: Given,
    checkpoint: Lsn,
    wanted: &str,
) -> Option<bool> {
    let mut blocks = open_log(alloc, disk_of(alloc, log, given, checkpoint)?).ok()?;
    let listing = analyse(alloc, &mut blocks).ok()?;
    let found = numbers_of(alloc, &listing.analysis(alloc).ok()?)?;
    let shift = if given == Given::NoCheckpoint {
        0
    } else {
        checkpoint
    };
    let wanted = numbers_in(alloc, wanted, shift)?;
    Some(found.as_slice() == wanted.as_slice())
}

/// The log without its Checkpoint, the whole log, and one with the payloads before the Checkpoint's block overwritten have
/// this analysis.
fn agrees(alloc: Global, log: &str, checkpoint: Lsn, wanted: &str) -> Result<(), Fail> {
    if is_analysed(alloc, log, Given::NoCheckpoint, checkpoint, wanted) != Some(true) {
        return Err(Fail::new("without its Checkpoint"));
    }
    if is_analysed(alloc, log, Given::Whole, checkpoint, wanted) != Some(true) {
        return Err(Fail::new("with its Checkpoint"));
    }
    if is_analysed(alloc, log, Given::Overwritten, checkpoint, wanted) != Some(true) {
        return Err(Fail::new("overwritten before its Checkpoint"));
    }
    Ok(())
}

#[test]
fn a_format_makes_page_1(rt: HostRuntime) -> Result<(), Fail> {
    let log = "\
Format 4.100
Checkpoint 8.1 8.0 4.100 4.1 @1 8.0 8.0 8.0 4.0 4.0 4.0 2.0 8.1 8.1";
    let wanted = "\
losers 0 pages 1 @1 0 0 0 lost 0 unrestored 0 runs 0 commits 0 next 1 1 1 limit 100";
    agrees(rt.alloc(), log, 2, wanted)
}

#[test]
fn a_transaction_that_commits_is_no_loser(rt: HostRuntime) -> Result<(), Fail> {
    let log = "\
Format 4.100
Write 8.1 8.0 4.1 @1 0161 00 01000131 / Write 8.2 8.0 4.1 @2 0162 00 01000132 / Commit 8.1 @2
Checkpoint 8.3 8.1 4.100 4.1 @3 8.0 8.0 8.0 4.1 8.2 @3 @3 4.1 @3 0162 4.0 4.0 2.0 8.1 8.1
Write 8.2 @3 4.1 @3 0163 00 01000133 / Commit 8.2 @5";
    let wanted = "\
losers 0 pages 1 @5 0 0 0 lost 0 unrestored 0 runs 0 commits 2 next 3 1 1 limit 100";
    agrees(rt.alloc(), log, 5, wanted)
}

#[test]
fn a_loser_has_its_open_writes_from_the_oldest_on(rt: HostRuntime) -> Result<(), Fail> {
    let log = "\
Format 4.100 / Write 8.1 8.0 4.1 @1 0163 00 01000131
Write 8.4 8.0 4.1 @2 0161 00 01000131 / Checkpoint 8.5 8.0 4.100 4.1 @3 8.0 8.0 8.0 4.2 8.1 @2 @2 4.1 @2 0163 8.4 @3 @3 4.1 @3 0161 4.0 4.0 2.0 8.1 8.1
Write 8.1 @2 4.1 @3 0162 00 01000131 / Commit 8.4 @3";
    let wanted = "\
losers 1 tx 1 last @4 undo @4 writes 2 c @2 b @4 pages 1 @4 0 0 0 lost 0 unrestored 0 runs 0 commits 1 next 5 1 1 limit 100";
    agrees(rt.alloc(), log, 4, wanted)
}

#[test]
fn losers_rise_by_their_numbers(rt: HostRuntime) -> Result<(), Fail> {
    let log = "\
Format 4.100
Write 8.7 8.0 4.1 @1 0163 00 01000131 / Write 8.2 8.0 4.1 @2 0161 00 01000131
Checkpoint 8.8 8.0 4.100 4.1 @3 8.0 8.0 8.0 4.2 8.2 @3 @3 4.1 @3 0161 8.7 @2 @2 4.1 @2 0163 4.0 4.0 2.0 8.1 8.1
Write 8.5 8.0 4.1 @3 0162 00 01000131";
    let wanted = "\
losers 3 tx 2 last @3 undo @3 writes 1 a @3 tx 5 last @4 undo @4 writes 1 b @4 tx 7 last @2 undo @2 writes 1 c @2 pages 1 @4 0 0 0 lost 0 unrestored 0 \
runs 0 commits 0 next 8 1 1 limit 100";
    agrees(rt.alloc(), log, 4, wanted)
}

#[test]
fn a_write_that_is_undone_is_open_no_more(rt: HostRuntime) -> Result<(), Fail> {
    let log = "\
Format 4.100
Write 8.2 8.0 4.1 @1 0161 00 01000131 / Write 8.2 @2 4.1 @2 0162 00 01000131
Checkpoint 8.3 8.0 4.100 4.1 @3 8.0 8.0 8.0 4.1 8.2 @3 @3 4.2 @2 0161 @3 0162 4.0 4.0 2.0 8.1 8.1 / Undo 8.2 @3 4.1 @3 0162 00 @2";
    let wanted = "\
losers 1 tx 2 last @4 undo @2 writes 1 a @2 pages 1 @4 0 0 0 lost 0 unrestored 0 runs 0 commits 0 next 3 1 1 limit 100";
    agrees(rt.alloc(), log, 4, wanted)
}

#[test]
fn a_transaction_without_open_writes_is_no_loser(rt: HostRuntime) -> Result<(), Fail> {
    let log = "\
Format 4.100 / Write 8.1 8.0 4.1 @1 0161 00 01000131 / Write 8.3 8.0 4.1 @2 0162 00 01000131
Undo 8.1 @2 4.1 @3 0161 00 8.0
Checkpoint 8.4 8.0 4.100 4.1 @4 8.0 8.0 8.0 4.1 8.3 @3 @3 4.1 @3 0162 4.0 4.0 2.0 8.1 8.1
Undo 8.3 @3 4.1 @4 0162 00 8.0 / End 8.1 @4";
    let wanted = "\
losers 0 pages 1 @5 0 0 0 lost 0 unrestored 0 runs 0 commits 0 next 4 1 1 limit 100";
    agrees(rt.alloc(), log, 5, wanted)
}

#[test]
fn the_records_of_a_tree_are_heads_of_their_pages(rt: HostRuntime) -> Result<(), Fail> {
    let log = "\
Format 4.100 / Write 8.1 8.0 4.1 @1 0161 00 01000131 / Write 8.1 @2 4.1 @2 0162 00 01000131 / Commit 8.1 @3
Split 4.1 @3 4.2 00 0162 00 00 0001 0162 00 000131
Grow @5 4.3 00 00 00 01 0162 4.2 0001 0161 00 000131
Checkpoint 8.2 8.1 4.100 4.3 @6 8.0 8.0 8.0 @5 8.0 8.0 8.0 @6 8.0 8.0 8.0 4.0 4.0 4.0 2.0 8.1 8.1
Adopt 4.1 @6 4.3 @6 4.2 0162 / Apply 8.2 8.0 4.2 @5 0162 01 0131 01000131";
    let wanted = "\
losers 1 tx 2 last @8 undo @8 writes 1 b @8 pages 3 @7 0 0 0 @8 0 0 0 @7 0 0 0 lost 0 unrestored 0 runs 0 commits 1 next 3 1 1 limit 100";
    agrees(rt.alloc(), log, 7, wanted)
}

#[test]
fn a_purge_is_the_head_of_its_page(rt: HostRuntime) -> Result<(), Fail> {
    let log = "\
Format 4.100
Write 8.1 8.0 4.1 @1 0161 00 01000131 / Write 8.1 @2 4.1 @2 0161 01000131 00 / Commit 8.1 @3
Checkpoint 8.2 8.1 4.100 4.1 @3 8.0 8.0 8.0 4.0 4.0 4.0 2.0 8.1 8.1 / Purge 4.1 @3";
    let wanted = "\
losers 0 pages 1 @5 0 0 0 lost 0 unrestored 0 runs 0 commits 1 next 2 1 1 limit 100";
    agrees(rt.alloc(), log, 5, wanted)
}

#[test]
fn a_loss_takes_the_written_images_along(rt: HostRuntime) -> Result<(), Fail> {
    let log = "\
Format 4.100 / Write 8.1 8.0 4.1 @1 0161 00 01000131 / Commit 8.1 @2
Written 4.1 @2
Lost 4.1
Checkpoint 8.2 8.1 4.100 4.1 @2 8.0 8.0 8.0 4.0 4.1 4.1 4.0 2.0 8.1 8.1";
    let wanted = "\
losers 0 pages 1 @2 0 0 0 lost 1 unrestored 1 0 runs 0 commits 1 next 2 1 1 limit 100";
    agrees(rt.alloc(), log, 6, wanted)
}

#[test]
fn an_image_that_is_written_behind_a_loss_counts(rt: HostRuntime) -> Result<(), Fail> {
    let log = "\
Format 4.100 / Write 8.1 8.0 4.1 @1 0161 00 01000131 / Commit 8.1 @2
Written 4.1 @2
Lost 4.1
Checkpoint 8.2 8.1 4.100 4.1 @2 8.0 8.0 8.0 4.0 4.1 4.1 4.0 2.0 8.1 8.1
Restored 4.0 / Written 4.1 @2";
    let wanted = "\
losers 0 pages 1 @2 @2 0 0 lost 1 unrestored 0 runs 0 commits 1 next 2 1 1 limit 100";
    agrees(rt.alloc(), log, 6, wanted)
}

#[test]
fn the_last_backup_of_a_page_counts(rt: HostRuntime) -> Result<(), Fail> {
    let log = "\
Format 4.100 / Write 8.1 8.0 4.1 @1 0161 00 01000131 / Commit 8.1 @2
BackupDone 8.1 4.0 01 4.1 @2
Checkpoint 8.2 8.1 4.100 4.1 @2 8.0 8.1 @2 4.0 4.0 4.0 2.0 8.2 8.1
Write 8.2 8.0 4.1 @2 0162 00 01000132 / Commit 8.2 @5
BackupDone 8.4 4.0 01 4.1 @5";
    let wanted = "\
losers 0 pages 1 @5 0 4 @5 lost 0 unrestored 0 runs 0 commits 2 next 3 5 1 limit 100";
    agrees(rt.alloc(), log, 5, wanted)
}

#[test]
fn a_run_takes_the_place_of_those_in_its_range(rt: HostRuntime) -> Result<(), Fail> {
    let log = "\
Format 4.100 / Write 8.1 8.0 4.1 @1 0161 00 01000131 / Commit 8.1 @2
RunDone 8.1 8.1 8.3 / RunDone 8.2 8.4 8.4
Checkpoint 8.2 8.1 4.100 4.1 @2 8.0 8.0 8.0 4.0 4.0 4.0 2.2 8.1 8.1 8.3 8.2 8.4 8.4 8.1 8.3
RunDone 8.3 @1 @4 / RunDone 8.4 @5 @6";
    let wanted = "\
losers 0 pages 1 @2 0 0 0 lost 0 unrestored 0 runs 2 run 3 @1 @4 run 4 @5 @6 commits 1 next 2 1 5 limit 100";
    agrees(rt.alloc(), log, 6, wanted)
}

#[test]
fn seventeen_pages_are_two_segments(rt: HostRuntime) -> Result<(), Fail> {
    let log = "\
Format 4.100
Write 8.1 8.0 4.1 @1 0161 00 010000 / Write 8.1 @2 4.1 @2 0162 00 010000 / Write 8.1 @3 4.1 @3 0163 00 010000 / Write 8.1 @4 4.1 @4 0164 00 010000 / Write 8.1 @5 4.1 @5 0165 00 010000
Write 8.1 @6 4.1 @6 0166 00 010000 / Write 8.1 @7 4.1 @7 0167 00 010000 / Write 8.1 @8 4.1 @8 0168 00 010000 / Write 8.1 @9 4.1 @9 0169 00 010000 / Write 8.1 @10 4.1 @10 016a 00 010000
Write 8.1 @11 4.1 @11 016b 00 010000 / Write 8.1 @12 4.1 @12 016c 00 010000 / Write 8.1 @13 4.1 @13 016d 00 010000 / Write 8.1 @14 4.1 @14 016e 00 010000 / Write 8.1 @15 4.1 @15 016f 00 010000
Write 8.1 @16 4.1 @16 0170 00 010000 / Write 8.1 @17 4.1 @17 0171 00 010000 / Commit 8.1 @18
Checkpoint 8.2 8.1 4.100 4.1 @18 8.0 8.0 8.0 4.0 4.0 4.0 2.0 8.1 8.1
Split 4.1 @18 4.2 00 0171 00 00 0001 0171 00 0000 / Split 4.1 @20 4.3 00 0170 00 01 0171 4.2 0001 0170 00 0000 / Split 4.1 @21 4.4 00 016f 00 01 0170 4.3 0001 016f 00 0000
Split 4.1 @22 4.5 00 016e 00 01 016f 4.4 0001 016e 00 0000 / Split 4.1 @23 4.6 00 016d 00 01 016e 4.5 0001 016d 00 0000 / Split 4.1 @24 4.7 00 016c 00 01 016d 4.6 0001 016c 00 0000
Split 4.1 @25 4.8 00 016b 00 01 016c 4.7 0001 016b 00 0000 / Split 4.1 @26 4.9 00 016a 00 01 016b 4.8 0001 016a 00 0000 / Split 4.1 @27 4.10 00 0169 00 01 016a 4.9 0001 0169 00 0000
Split 4.1 @28 4.11 00 0168 00 01 0169 4.10 0001 0168 00 0000 / Split 4.1 @29 4.12 00 0167 00 01 0168 4.11 0001 0167 00 0000 / Split 4.1 @30 4.13 00 0166 00 01 0167 4.12 0001 0166 00 0000
Split 4.1 @31 4.14 00 0165 00 01 0166 4.13 0001 0165 00 0000 / Split 4.1 @32 4.15 00 0164 00 01 0165 4.14 0001 0164 00 0000 / Split 4.1 @33 4.16 00 0163 00 01 0164 4.15 0001 0163 00 0000
Split 4.1 @34 4.17 00 0162 00 01 0163 4.16 0001 0162 00 0000
Lost 4.17 / Restored 4.1";
    let wanted = "\
losers 0 pages 17 @35 0 0 0 @20 0 0 0 @21 0 0 0 @22 0 0 0 @23 0 0 0 @24 0 0 0 @25 0 0 0 @26 0 0 0 @27 0 0 0 @28 0 0 0 @29 0 0 0 @30 0 0 0 @31 0 0 0 \
@32 0 0 0 @33 0 0 0 @34 0 0 0 @35 0 0 0 lost 17 unrestored 1 0 runs 0 commits 1 next 2 1 1 limit 100";
    agrees(rt.alloc(), log, 20, wanted)
}
