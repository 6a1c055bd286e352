//! The whole Checkpoint.
ghost use Rattle.std.specs.Prelude.{◌≡◌, ◌≤◌, ◌<◌, ◌^◌, length, true, IsTrue, IfSome, IfNone};
ghost use Rattle.listing_laws.specs.Summary.{pending_in};
ghost use Rattle.wal_record.specs.Rules.{KeepsCheckpoint};
ghost use Rattle.wal_record.specs.Rules as rules;
ghost use Rattle.wal_record.specs.Spelling.{spelling};
ghost use Rattle.wal_record.specs.declared.record.Record.TheVariants as kinds;
ghost use Rattle.checkpoint_form.specs.Modest.{IsModest, KeepsLists};

use crate::lists::{are_page_heads, are_runs, are_segments, are_unfinished};
use store_model::HIGHEST;
use wal_record::{Checkpoint, Unfinished};

/// The most pages and open writes of a lawful log together: one above the greatest limit of a store.
const MOST_USED: usize = 16_385;

/// The most segments that a loss leaves to be restored, and one.
const MOST_SEGMENTS: usize = 1_025;

/// The most archive runs that stand: so many a Checkpoint lists.
pub const MOST_RUNS: usize = 1_024;

/// How many open writes the transactions have, or none where these are more than a lawful log has.
fn pending_in(transactions: &[Unfinished]) -> Option<usize>
    ensures some { IfSome result (λ n. n ≡ pending_in transactions.now) }
    ensures few { IfSome result (λ n. n ≤ 16385) }
    ensures none { IfNone result (16385 < pending_in transactions.now) }
{
    let mut pending = 0;
    for transaction in transactions {
        let writes = transaction.writes.len();
        if writes > MOST_USED - pending {
            return None;
        }
        pending += writes;
    }
    Some(pending)
}

/// Whether the Checkpoint lists no more than a lawful log has.
fn is_modest(checkpoint: &Checkpoint) -> bool
    ensures modest { IsTrue result → IsModest checkpoint.now }
    ensures all { IsModest checkpoint.now → IsTrue result }
{
    let Some(pending) = pending_in(checkpoint.transactions.as_slice()) else {
        return false;
    };
    checkpoint.pages.len() <= MOST_USED - pending
        && checkpoint.transactions.len() <= pending
        && checkpoint.unrestored.len() <= MOST_SEGMENTS
        && checkpoint.runs.len() <= MOST_RUNS
}

/// Whether a number is the next one of its kind: one above a number, or 1.
fn is_next(number: u64) -> bool
    ensures next { IsTrue result → IsTrue (rules.is_next number) }
    ensures all { IsTrue (rules.is_next number) → IsTrue result }
{
    1 <= number && number - 1 <= HIGHEST
}

/// Whether the numbers that come next are numbers.
fn has_numbers(checkpoint: &Checkpoint) -> bool
    ensures numbers { IsTrue result → IsTrue (rules.is_next checkpoint.now.next_tx) × IsTrue (rules.is_next checkpoint.now.next_backup) × IsTrue (rules.is_next checkpoint.now.next_run) }
    ensures all { KeepsCheckpoint checkpoint.now → IsTrue result }
{
    is_next(checkpoint.next_tx) && is_next(checkpoint.next_backup) && is_next(checkpoint.next_run)
}

/// Shows that the other numbers fit into their fields, as they do by their types.
fn fit_by_type(checkpoint: &Checkpoint)
    ensures commits { checkpoint.now.commits < 2 ^ 64 }
    ensures limit { checkpoint.now.limit < 2 ^ 32 }
    ensures lost { checkpoint.now.lost < 2 ^ 32 }
{
    let _commits = checkpoint.commits;
    let _limit = checkpoint.limit;
    let _lost = checkpoint.lost;
}

/// Whether the lists keep their rules.
fn has_lists(checkpoint: &Checkpoint) -> bool
    ensures lists { IsTrue result → KeepsLists checkpoint.now }
    ensures all { KeepsCheckpoint checkpoint.now → IsTrue result }
{
    are_page_heads(checkpoint.pages.as_slice())
        && are_unfinished(checkpoint.transactions.as_slice())
        && are_segments(checkpoint.unrestored.as_slice())
        && are_runs(checkpoint.runs.as_slice())
}

/// Whether the Checkpoint keeps the rules of its fields and is modest, so that it has a spelling of at most 2 MiB.
pub fn has_form(checkpoint: &Checkpoint) -> bool
    ensures keeps { IsTrue result → KeepsCheckpoint checkpoint.now }
    ensures size { IsTrue result → length (spelling (kinds.Checkpoint checkpoint.now)) ≤ 2 ^ 21 }
    ensures all { KeepsCheckpoint checkpoint.now → IsModest checkpoint.now → IsTrue result }
{
    fit_by_type(checkpoint);
    is_modest(checkpoint) && has_numbers(checkpoint) && has_lists(checkpoint)
}
