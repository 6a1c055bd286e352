//! The lists of a Checkpoint, item by item.
ghost use Rattle.std.specs.Prelude.{◌≡◌, ◌<◌, ◌≤◌, true, IsTrue};
ghost use Rattle.std.specs.List.{list_all};
ghost use Rattle.store_model.specs.Along.{AllAlong};
ghost use Rattle.store_model.specs.declared.limits.TheConstants.{HIGHEST};
ghost use Rattle.wal_record.specs.Rules.{KeepsUnfinished, open_write_fits, page_head_fits, run_fits, segment_fits};
ghost use Rattle.wal_record.specs.Rules as rules;
ghost use Rattle.wal_record.specs.State.{is_key};
ghost use Rattle.checkpoint_form.specs.Modest.{KeepsOthers};

use store_model::HIGHEST;
use wal_record::{OpenWrite, PageHead, Run, Unfinished};

/// The most items of a list of open writes: its count has four bytes.
const MOST_LISTED: usize = 0xffff_ffff;

/// Whether it is the LSN of a record, or the number of a transaction, a backup or a run.
fn is_number(number: u64) -> bool
    ensures { result ≡ rules.is_number number }
{
    1 <= number && number <= HIGHEST
}

/// Whether it is the LSN of a record, or 0.
fn is_lsn_or_none(lsn: u64) -> bool
    ensures { result ≡ rules.is_lsn_or_none lsn }
{
    lsn <= HIGHEST
}

/// Whether the entry of a page has numbers in their ranges.
fn is_page_head(entry: &PageHead) -> bool
    ensures { result ≡ page_head_fits entry.now }
{
    is_number(entry.head)
        && is_lsn_or_none(entry.written)
        && is_lsn_or_none(entry.backup)
        && is_lsn_or_none(entry.backup_lsn)
}

/// Whether the entries of pages have numbers in their ranges.
pub(crate) fn are_page_heads(entries: &[PageHead]) -> bool
    ensures { result ≡ list_all page_head_fits entries.now }
{
    entries.iter().all(|entry| is_page_head(entry))
}

/// Whether an open write may stand behind one with this LSN, or first behind 0.
fn write_follows(last: u64, write: &OpenWrite) -> bool
    ensures key { IsTrue (is_key write.now.key) }
    ensures follows { IsTrue result → (last < write.now.lsn) × (write.now.lsn ≤ HIGHEST) }
    ensures all { last < write.now.lsn → write.now.lsn ≤ HIGHEST → IsTrue result }
{
    // that the key is one is known by its type
    let _key = write.key.as_bytes();
    last < write.lsn && write.lsn <= HIGHEST
}

/// Whether open writes stand by rising LSN.
fn are_open_writes(writes: &[OpenWrite]) -> bool
    ensures fit { IsTrue result → AllAlong (λ before w. IsTrue (open_write_fits before w)) writes.now }
    ensures all { AllAlong (λ before w. IsTrue (open_write_fits before w)) writes.now → IsTrue result }
{
    let mut last = 0;
    for write in writes {
        if !write_follows(last, write) {
            return false;
        }
        last = write.lsn;
    }
    true
}

/// Whether a transaction may stand behind one with this number, or first behind 0.
fn transaction_follows(last: u64, transaction: &Unfinished) -> bool
    ensures follows { IsTrue result → (last < transaction.now.tx) × KeepsOthers transaction.now }
    ensures all { last < transaction.now.tx → KeepsOthers transaction.now → IsTrue result }
{
    last < transaction.tx
        && transaction.tx <= HIGHEST
        && is_number(transaction.last)
        && is_lsn_or_none(transaction.undo_next)
        && transaction.writes.len() <= MOST_LISTED
        && are_open_writes(transaction.writes.as_slice())
}

/// Whether transactions stand by rising number, each with fields that keep their rules.
pub(crate) fn are_unfinished(transactions: &[Unfinished]) -> bool
    ensures fit { IsTrue result → AllAlong KeepsUnfinished transactions.now }
    ensures all { AllAlong KeepsUnfinished transactions.now → IsTrue result }
{
    let mut last = 0;
    for transaction in transactions {
        if !transaction_follows(last, transaction) {
            return false;
        }
        last = transaction.tx;
    }
    true
}

/// Whether segments rise.
pub(crate) fn are_segments(segments: &[u32]) -> bool
    ensures fit { IsTrue result → AllAlong (λ before segment. IsTrue (segment_fits before segment)) segments.now }
    ensures all { AllAlong (λ before segment. IsTrue (segment_fits before segment)) segments.now → IsTrue result }
{
    let mut least = 0;
    for segment in segments {
        if u64::from(*segment) < least {
            return false;
        }
        least = u64::from(*segment) + 1;
    }
    true
}

/// Whether an archive run may stand behind one with this first LSN, or first behind 0.
fn run_follows(last: u64, run: &Run) -> bool
    ensures follows { IsTrue result → (last < run.now.first) × (run.now.first ≤ HIGHEST) × IsTrue (rules.is_number run.now.run) × IsTrue (rules.is_number run.now.last) }
    ensures all { last < run.now.first → run.now.first ≤ HIGHEST → IsTrue (rules.is_number run.now.run) → IsTrue (rules.is_number run.now.last) → IsTrue result }
{
    last < run.first && run.first <= HIGHEST && is_number(run.run) && is_number(run.last)
}

/// Whether archive runs stand by rising LSN.
pub(crate) fn are_runs(runs: &[Run]) -> bool
    ensures fit { IsTrue result → AllAlong (λ before x. IsTrue (run_fits before x)) runs.now }
    ensures all { AllAlong (λ before x. IsTrue (run_fits before x)) runs.now → IsTrue result }
{
    let mut last = 0;
    for run in runs {
        if !run_follows(last, run) {
            return false;
        }
        last = run.first;
    }
    true
}
