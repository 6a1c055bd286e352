//! What was lost of the data device and not yet restored, and which archive runs stand.
ghost use Rattle.std.specs.Prelude.{◌≡◌, ◌≤◌, ◌++◌, ◌∷◌, [], true, false, length, ◌==◌, not, filter, nat_lt, slice_get, OnOk, IfOk};
ghost use Rattle.wal_record.specs.Upkeep.{archived, lost_step, runs_step, segments, unrestored_step, with_run};
ghost use Rattle.std.specs.List.{find, list_any};
ghost use Rattle.std.specs.List.Sorted.{IsPartitionPoint};
ghost use Rattle.log_index.specs.Listing.{AreApart, covers_lsn};
ghost use Rattle.log_index.specs.Ready.{IsReadyFor};

use crate::copies::copy_of_run;
use std::alloc::{AllocError, Global};
use std::mem;
use store_model::{Lsn, SEGMENT_PAGES};
use wal_record::{Record, Run, RunDone};

#[derive(Drop)]
pub struct Upkeep {
    /// The number of pages at the last loss, 0 for none.
    pub lost: u32,
    /// The segments that aren't restored since.
    pub unrestored: Vec<u32>,
    /// The runs that stand.
    pub runs: Vec<Run>,
    /// What the record that was made ready last makes of these two.
    pub next_unrestored: Vec<u32>,
    pub next_runs: Vec<Run>,
}

/// The segments that so many pages fill.
fn segments_of(alloc: Global, pages: u32) -> Result<Vec<u32>, AllocError>
    ensures { IfOk result (λ made. made.items ≡ segments pages) }
{
    let count = pages.div_ceil(SEGMENT_PAGES);
    (0..count).collect(alloc)
}

/// Adds the runs that end below an LSN.
fn add_below(made: &mut Vec<Run>, runs: &[Run], first: Lsn) -> Result<(), AllocError>
    ensures { OnOk result (made.new.items ≡ made.old.items ++ filter (λ x. nat_lt x.last first) runs.now) }
{
    for run in runs {
        if run.last < first {
            made.push(copy_of_run(run))?;
        }
    }
    Ok(())
}

/// Adds the runs that begin above an LSN.
fn add_above(made: &mut Vec<Run>, runs: &[Run], last: Lsn) -> Result<(), AllocError>
    ensures { OnOk result (made.new.items ≡ made.old.items ++ filter (λ x. nat_lt last x.first) runs.now) }
{
    for run in runs {
        if last < run.first {
            made.push(copy_of_run(run))?;
        }
    }
    Ok(())
}

/// The standing runs with a new one.
fn runs_with(alloc: Global, runs: &[Run], done: &RunDone) -> Result<Vec<Run>, AllocError>
    ensures { IfOk result (λ made. made.items ≡ with_run done.now runs.now) }
{
    let mut made = Vec::new(alloc);
    add_below(&mut made, runs, done.first)?;
    made.push(Run {
        run: done.run,
        first: done.first,
        last: done.last,
    })?;
    add_above(&mut made, runs, done.last)?;
    Ok(made)
}

/// Makes ready what a record makes of segments and runs.
pub fn prepare(alloc: Global, upkeep: &mut Upkeep, entry: &Record) -> Result<(), AllocError>
    ensures lost { upkeep.new.lost ≡ upkeep.old.lost }
    ensures unrestored { upkeep.new.unrestored.items ≡ upkeep.old.unrestored.items }
    ensures runs { upkeep.new.runs.items ≡ upkeep.old.runs.items }
    ensures ready { OnOk result (IsReadyFor entry.now upkeep.new) }
{
    match entry {
        Record::Lost(lost) => upkeep.next_unrestored = segments_of(alloc, lost.pages)?,
        Record::RunDone(done) => {
            upkeep.next_runs = runs_with(alloc, upkeep.runs.as_slice(), done)?;
        }
        _ => {}
    }
    Ok(())
}

fn restore(segments: &mut Vec<u32>, segment: u32)
    ensures { segments.new.items ≡ filter (λ s. not (s == segment)) segments.old.items }
{
    segments.retain(|s| *s != segment);
}

/// One record more.
pub fn note(upkeep: &mut Upkeep, entry: &Record)
    requires { IsReadyFor entry.now upkeep.old }
    ensures lost { upkeep.new.lost ≡ lost_step upkeep.old.lost entry.now }
    ensures unrestored { upkeep.new.unrestored.items ≡ unrestored_step upkeep.old.unrestored.items entry.now }
    ensures runs { upkeep.new.runs.items ≡ runs_step upkeep.old.runs.items entry.now }
{
    match entry {
        Record::Lost(lost) => {
            upkeep.lost = lost.pages;
            mem::swap(&mut upkeep.unrestored, &mut upkeep.next_unrestored);
        }
        Record::Restored(restored) => restore(&mut upkeep.unrestored, restored.segment),
        Record::RunDone(_) => mem::swap(&mut upkeep.runs, &mut upkeep.next_runs),
        _ => {}
    }
}

/// The last LSN that these runs cover, 0 for none.
pub fn archived(runs: &[Run]) -> Lsn
    ensures { result ≡ archived runs.now }
{
    match runs.last() {
        Some(run) => run.last,
        None => 0,
    }
}

/// The first of these runs that covers an LSN, if one does.
pub fn run_at(runs: &[Run], lsn: Lsn) -> Option<Run>
    ensures { AreApart runs.now → result ≡ find (covers_lsn lsn) runs.now }
{
    let run = runs.get(ended_before(runs, lsn))?;
    if run.first <= lsn {
        Some(copy_of_run(run))
    } else {
        None
    }
}

/// How many of these runs end before an LSN.
fn ended_before(runs: &[Run], lsn: Lsn) -> usize
    ensures within { result ≤ length runs.now }
    ensures parts { AreApart runs.now → IsPartitionPoint (λ run. nat_lt run.last lsn ≡ true) (λ run. nat_lt run.last lsn ≡ false) runs.now result }
{
    runs.partition_point(|run| run.last < lsn)
}

/// Whether a segment is among these.
pub fn has_segment(segments: &[u32], segment: u32) -> bool
    ensures { result ≡ list_any (λ s. s == segment) segments.now }
{
    segments.iter().any(|s| *s == segment)
}

/// The first of these segments.
pub fn first_segment(segments: &[u32]) -> Option<u32>
    ensures { result ≡ slice_get segments.now 0 }
{
    match segments.first() {
        Some(segment) => Some(*segment),
        None => None,
    }
}
