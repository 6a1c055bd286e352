//! Whether two Checkpoints say the same.
ghost use Rattle.std.specs.Prelude.{◌≡◌, ◌↔◌, IsTrue};

use wal_record::{Checkpoint, OpenWrite, PageHead, Run, Unfinished};

fn same_head(a: &PageHead, b: &PageHead) -> bool
    ensures { IsTrue result ↔ (a.now ≡ b.now) }
{
    a.head == b.head
        && a.written == b.written
        && a.backup == b.backup
        && a.backup_lsn == b.backup_lsn
}

fn same_heads(a: &[PageHead], b: &[PageHead]) -> bool
    ensures { IsTrue result ↔ (a.now ≡ b.now) }
{
    if a.len() != b.len() {
        return false;
    }
    for i in 0..a.len() {
        if !same_head(&a[i], &b[i]) {
            return false;
        }
    }
    true
}

fn same_write(a: &OpenWrite, b: &OpenWrite) -> bool
    ensures { IsTrue result ↔ (a.now ≡ b.now) }
{
    a.lsn == b.lsn && a.key == b.key
}

fn same_writes(a: &[OpenWrite], b: &[OpenWrite]) -> bool
    ensures { IsTrue result ↔ (a.now ≡ b.now) }
{
    if a.len() != b.len() {
        return false;
    }
    for i in 0..a.len() {
        if !same_write(&a[i], &b[i]) {
            return false;
        }
    }
    true
}

fn same_transaction(a: &Unfinished, b: &Unfinished) -> bool
    ensures { IsTrue result ↔ (a.now ≡ b.now) }
{
    a.tx == b.tx
        && a.last == b.last
        && a.undo_next == b.undo_next
        && same_writes(a.writes.as_slice(), b.writes.as_slice())
}

fn same_transactions(a: &[Unfinished], b: &[Unfinished]) -> bool
    ensures { IsTrue result ↔ (a.now ≡ b.now) }
{
    if a.len() != b.len() {
        return false;
    }
    for i in 0..a.len() {
        if !same_transaction(&a[i], &b[i]) {
            return false;
        }
    }
    true
}

fn same_run(a: &Run, b: &Run) -> bool
    ensures { IsTrue result ↔ (a.now ≡ b.now) }
{
    a.run == b.run && a.first == b.first && a.last == b.last
}

fn same_runs(a: &[Run], b: &[Run]) -> bool
    ensures { IsTrue result ↔ (a.now ≡ b.now) }
{
    if a.len() != b.len() {
        return false;
    }
    for i in 0..a.len() {
        if !same_run(&a[i], &b[i]) {
            return false;
        }
    }
    true
}

fn same_segments(a: &[u32], b: &[u32]) -> bool
    ensures { IsTrue result ↔ (a.now ≡ b.now) }
{
    a == b
}

fn same_numbers(a: &Checkpoint, b: &Checkpoint) -> bool
    ensures { IsTrue result ↔ ((a.now.next_tx ≡ b.now.next_tx) × (a.now.commits ≡ b.now.commits) × (a.now.limit ≡ b.now.limit) × (a.now.lost ≡ b.now.lost) × (a.now.next_backup ≡ b.now.next_backup) × (a.now.next_run ≡ b.now.next_run)) }
{
    a.next_tx == b.next_tx
        && a.commits == b.commits
        && a.limit == b.limit
        && a.lost == b.lost
        && a.next_backup == b.next_backup
        && a.next_run == b.next_run
}

fn same_lists(a: &Checkpoint, b: &Checkpoint) -> bool
    ensures { IsTrue result ↔ ((a.now.pages ≡ b.now.pages) × (a.now.transactions ≡ b.now.transactions) × (a.now.unrestored ≡ b.now.unrestored) × (a.now.runs ≡ b.now.runs)) }
{
    same_heads(a.pages.as_slice(), b.pages.as_slice())
        && same_transactions(a.transactions.as_slice(), b.transactions.as_slice())
        && same_segments(a.unrestored.as_slice(), b.unrestored.as_slice())
        && same_runs(a.runs.as_slice(), b.runs.as_slice())
}

/// Whether two Checkpoints say the same.
pub fn same_checkpoint(a: &Checkpoint, b: &Checkpoint) -> bool
    ensures { IsTrue result ↔ (a.now ≡ b.now) }
{
    same_numbers(a, b) && same_lists(a, b)
}
