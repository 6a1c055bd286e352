//! Copies of what a listing has, for a checkpoint and for an analysis.
ghost use Rattle.std.specs.Prelude.{◌≡◌, ◌++◌, [], map, IfOk, OnOk};
ghost use Rattle.wal_record.specs.Checkpoints.{last_open};
ghost use Rattle.wal_record.specs.declared.record.OpenWrite.{OpenWrite};
ghost use Rattle.listing_laws.specs.Summary.{loser_of};
ghost use Rattle.log_index.specs.Table.{listed_before, listed_in, unfinished_of};

use crate::table::Tracked;
use std::alloc::{AllocError, Global};
use std::collections::BTreeMap;
use store_model::{Key, List, Lsn, TxId};
use wal_record::{Loser, OpenWrite, PageHead, Run, Unfinished};

pub fn copy_of_head(head: &PageHead) -> PageHead
    ensures { result ≡ head.now }
{
    PageHead {
        head: head.head,
        written: head.written,
        backup: head.backup,
        backup_lsn: head.backup_lsn,
    }
}

pub fn copy_heads(alloc: Global, heads: &[PageHead]) -> Result<Vec<PageHead>, AllocError>
    ensures { IfOk result (λ made. made.items ≡ heads.now) }
{
    let mut made = Vec::with_capacity(alloc, heads.len())?;
    for head in heads {
        made.push(copy_of_head(head))?;
    }
    Ok(made)
}

pub fn copy_of_run(run: &Run) -> Run
    ensures { result ≡ run.now }
{
    Run {
        run: run.run,
        first: run.first,
        last: run.last,
    }
}

pub fn copy_runs(alloc: Global, runs: &[Run]) -> Result<Vec<Run>, AllocError>
    ensures { IfOk result (λ made. made.items ≡ runs.now) }
{
    let mut made = Vec::with_capacity(alloc, runs.len())?;
    for run in runs {
        made.push(copy_of_run(run))?;
    }
    Ok(made)
}

pub fn copy_segments(alloc: Global, segments: &[u32]) -> Result<Vec<u32>, AllocError>
    ensures { IfOk result (λ made. made.items ≡ segments.now) }
{
    let mut made = Vec::new(alloc);
    made.extend_from_slice(segments)?;
    Ok(made)
}

pub fn copy_writes(alloc: Global, writes: &[OpenWrite]) -> Result<Vec<OpenWrite>, AllocError>
    ensures { IfOk result (λ made. made.items ≡ writes.now) }
{
    let mut made = Vec::with_capacity(alloc, writes.len())?;
    for write in writes {
        made.push(OpenWrite {
            lsn: write.lsn,
            key: write.key.copied(),
        })?;
    }
    Ok(made)
}

fn keys_of(alloc: Global, writes: &[OpenWrite]) -> Result<Vec<Key>, AllocError>
    ensures { IfOk result (λ made. made.items ≡ map (λ (w : OpenWrite). w.key) writes.now) }
{
    let mut made = Vec::with_capacity(alloc, writes.len())?;
    for write in writes {
        made.push(write.key.copied())?;
    }
    Ok(made)
}

fn lsns_of(alloc: Global, writes: &[OpenWrite]) -> Result<Vec<Lsn>, AllocError>
    ensures { IfOk result (λ made. made.items ≡ map (λ (w : OpenWrite). w.lsn) writes.now) }
{
    let mut made = Vec::with_capacity(alloc, writes.len())?;
    for write in writes {
        made.push(write.lsn)?;
    }
    Ok(made)
}

/// The LSN of the last of these writes, 0 for none.
pub fn last_open(writes: &[OpenWrite]) -> Lsn
    ensures { result ≡ last_open writes.now }
{
    match writes.last() {
        Some(write) => write.lsn,
        None => 0,
    }
}

fn unfinished(alloc: Global, tx: TxId, tracked: &Tracked) -> Result<Unfinished, AllocError>
    ensures { IfOk result (λ made. made ≡ unfinished_of tx tracked.now) }
{
    let writes = copy_writes(alloc, &tracked.writes)?;
    Ok(Unfinished {
        tx,
        last: tracked.last,
        undo_next: last_open(&tracked.writes),
        writes: List::from_vec(writes),
    })
}

fn loser(alloc: Global, tx: TxId, tracked: &Tracked) -> Result<Loser, AllocError>
    ensures { IfOk result (λ made. made ≡ loser_of (unfinished_of tx tracked.now)) }
{
    let keys = keys_of(alloc, &tracked.writes)?;
    let lsns = lsns_of(alloc, &tracked.writes)?;
    Ok(Loser {
        tx,
        last: tracked.last,
        undo_next: last_open(&tracked.writes),
        keys: List::from_vec(keys),
        lsns: List::from_vec(lsns),
    })
}

/// Adds a transaction if it has open writes.
fn add_unfinished(
    alloc: Global,
    made: &mut Vec<Unfinished>,
    tx: TxId,
    tracked: &Tracked,
) -> Result<(), AllocError>
    ensures { OnOk result (made.new.items ≡ made.old.items ++ listed_before [] (tx, tracked.now)) }
{
    if !tracked.writes.as_slice().is_empty() {
        made.push(unfinished(alloc, tx, tracked)?)?;
    }
    Ok(())
}

/// The transactions that have open writes.
pub fn transactions_of(
    alloc: Global,
    table: &BTreeMap<TxId, Tracked>,
) -> Result<Vec<Unfinished>, AllocError>
    ensures { IfOk result (λ made. made.items ≡ listed_in table.now.entries) }
{
    let mut made = Vec::new(alloc);
    for (tx, tracked) in table {
        add_unfinished(alloc, &mut made, *tx, tracked)?;
    }
    Ok(made)
}

/// Adds a transaction as a loser if it has open writes.
fn add_loser(
    alloc: Global,
    made: &mut Vec<Loser>,
    tx: TxId,
    tracked: &Tracked,
) -> Result<(), AllocError>
    ensures { OnOk result (made.new.items ≡ made.old.items ++ map loser_of (listed_before [] (tx, tracked.now))) }
{
    if !tracked.writes.as_slice().is_empty() {
        made.push(loser(alloc, tx, tracked)?)?;
    }
    Ok(())
}

/// The same as losers.
pub fn losers_of(alloc: Global, table: &BTreeMap<TxId, Tracked>) -> Result<Vec<Loser>, AllocError>
    ensures { IfOk result (λ made. made.items ≡ map loser_of (listed_in table.now.entries)) }
{
    let mut made = Vec::new(alloc);
    for (tx, tracked) in table {
        add_loser(alloc, &mut made, *tx, tracked)?;
    }
    Ok(made)
}
