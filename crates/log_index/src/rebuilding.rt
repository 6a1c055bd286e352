//! What a checkpoint and an analysis list, back as a table.
ghost use Rattle.std.specs.Prelude.{◌≡◌, ◌<◌, ◌+◌, ◌^◌, map, IfOk, OnOk, ℕ};
ghost use Rattle.std.specs.Ordering.{nat_cmp};
ghost use Rattle.std.specs.BTreeMap.{insert_entry};
ghost use Rattle.listing_laws.specs.Summary.{checkpoint_in, last_in, pending_in, unfinished_in, writes_of};
ghost use Rattle.log_index.specs.Table.{AreListed, listed_in, noted_in};
ghost use Rattle.log_index.specs.declared.table.Tracked.{Tracked};

use crate::copies::{copy_heads, copy_runs, copy_segments, copy_writes};
use crate::table::Tracked;
use std::alloc::{AllocError, Global};
use std::collections::BTreeMap;
use store_model::{Key, List, Lsn, TxId};
use wal_record::{Analysis, Checkpoint, Loser, OpenWrite, Unfinished};

fn tracked_of(alloc: Global, unfinished: &Unfinished) -> Result<Tracked, AllocError>
    ensures last { IfOk result (λ made. made.last ≡ unfinished.now.last) }
    ensures writes { IfOk result (λ made. made.writes.items ≡ unfinished.now.writes) }
{
    let writes = copy_writes(alloc, unfinished.writes.as_slice())?;
    Ok(Tracked {
        last: unfinished.last,
        writes,
    })
}

/// A table with these transactions, where they may be listed.
pub fn table_of(
    alloc: Global,
    transactions: &[Unfinished],
) -> Result<BTreeMap<TxId, Tracked>, AllocError>
    ensures listed { AreListed transactions.now → IfOk result (λ made. listed_in made.entries ≡ transactions.now) }
    ensures noted { IfOk result (λ made. (q : ℕ) → noted_in made q ≡ last_in q transactions.now) }
{
    let mut made = BTreeMap::new(alloc);
    for unfinished in transactions {
        let tracked = tracked_of(alloc, unfinished)?;
        made.insert(unfinished.tx, tracked)?;
    }
    Ok(made)
}

/// How many open writes these have.
pub fn pending_of(transactions: &[Unfinished]) -> u64
    ensures { pending_in transactions.now < 2 ^ 64 → result ≡ pending_in transactions.now }
{
    let mut pending: u64 = 0;
    for unfinished in transactions {
        pending = pending.saturating_add(unfinished.writes.len() as u64);
    }
    pending
}

/// The open writes with these LSNs and keys.
fn writes_of(alloc: Global, lsns: &[Lsn], keys: &[Key]) -> Result<Vec<OpenWrite>, AllocError>
    ensures { IfOk result (λ made. made.items ≡ writes_of lsns.now keys.now) }
{
    let count = lsns.len().min(keys.len());
    let mut made = Vec::with_capacity(alloc, count)?;
    for i in 0..count {
        made.push(OpenWrite {
            lsn: lsns[i],
            key: keys[i].copied(),
        })?;
    }
    Ok(made)
}

fn unfinished_in(alloc: Global, loser: &Loser) -> Result<Unfinished, AllocError>
    ensures { IfOk result (λ made. made ≡ unfinished_in loser.now) }
{
    let writes = writes_of(alloc, loser.lsns.as_slice(), loser.keys.as_slice())?;
    Ok(Unfinished {
        tx: loser.tx,
        last: loser.last,
        undo_next: loser.undo_next,
        writes: List::from_vec(writes),
    })
}

fn transactions_in(alloc: Global, losers: &[Loser]) -> Result<Vec<Unfinished>, AllocError>
    ensures { IfOk result (λ made. made.items ≡ map unfinished_in losers.now) }
{
    let mut made = Vec::with_capacity(alloc, losers.len())?;
    for loser in losers {
        made.push(unfinished_in(alloc, loser)?)?;
    }
    Ok(made)
}

/// The checkpoint that lists what an analysis says.
pub fn checkpoint_in(alloc: Global, analysis: &Analysis) -> Result<Checkpoint, AllocError>
    ensures { IfOk result (λ made. made ≡ checkpoint_in analysis.now) }
{
    let pages = copy_heads(alloc, analysis.heads.as_slice())?;
    let transactions = transactions_in(alloc, analysis.losers.as_slice())?;
    let unrestored = copy_segments(alloc, analysis.unrestored.as_slice())?;
    let runs = copy_runs(alloc, analysis.runs.as_slice())?;
    Ok(Checkpoint {
        next_tx: analysis.next_tx,
        commits: analysis.commits,
        limit: analysis.limit,
        pages: List::from_vec(pages),
        transactions: List::from_vec(transactions),
        lost: analysis.lost,
        unrestored: List::from_vec(unrestored),
        runs: List::from_vec(runs),
        next_backup: analysis.next_backup,
        next_run: analysis.next_run,
    })
}
