//! The numbers that a log gives next, its commits, and its limit.
ghost use Rattle.std.specs.Prelude.{◌≡◌, ◌<◌, ◌-◌, ◌^◌, max, suc};
ghost use Rattle.wal_record.specs.Chains.{tx_of};
ghost use Rattle.wal_record.specs.Rules.{HasSpelling};
ghost use Rattle.wal_record.specs.Upkeep.{backup_number, run_number};
ghost use Rattle.listing_laws.specs.Summary.{commits_step, limit_step};

use store_model::TxId;
use wal_record::Record;

/// Each next number is one above the greatest so far.
#[derive(Drop)]
pub struct Numbers {
    pub next_tx: TxId,
    pub next_backup: u64,
    pub next_run: u64,
    pub commits: u64,
    pub limit: u32,
}

/// The transaction that a record names, 0 for none.
fn tx_of(entry: &Record) -> TxId
    ensures { result ≡ tx_of entry.now }
{
    match entry {
        Record::Write(write) => write.tx,
        Record::Apply(apply) => apply.tx,
        Record::Undo(undo) => undo.tx,
        Record::Commit(commit) => commit.tx,
        Record::End(end) => end.tx,
        _ => 0,
    }
}

/// The backup that a record tells of, 0 for none.
fn backup_of(entry: &Record) -> u64
    ensures { result ≡ backup_number entry.now }
{
    match entry {
        Record::BackupDone(done) => done.backup,
        _ => 0,
    }
}

/// The run that a record tells of, 0 for none.
fn run_of(entry: &Record) -> u64
    ensures { result ≡ run_number entry.now }
{
    match entry {
        Record::RunDone(done) => done.run,
        _ => 0,
    }
}

/// One record more.
pub fn note(numbers: &mut Numbers, entry: &Record)
    requires spelling { HasSpelling entry.now }
    ensures next_tx { numbers.new.next_tx ≡ max numbers.old.next_tx (suc (tx_of entry.now)) }
    ensures next_backup { numbers.new.next_backup ≡ max numbers.old.next_backup (suc (backup_number entry.now)) }
    ensures next_run { numbers.new.next_run ≡ max numbers.old.next_run (suc (run_number entry.now)) }
    ensures commits { numbers.old.commits < 2 ^ 64 - 1 → numbers.new.commits ≡ commits_step numbers.old.commits entry.now }
    ensures limit { numbers.new.limit ≡ limit_step numbers.old.limit entry.now }
{
    count(numbers, entry);
    numbers.next_tx = numbers.next_tx.max(tx_of(entry) + 1);
    numbers.next_backup = numbers.next_backup.max(backup_of(entry) + 1);
    numbers.next_run = numbers.next_run.max(run_of(entry) + 1);
}

fn count(numbers: &mut Numbers, entry: &Record)
    ensures others { numbers.new ≡ record numbers.old { commits = numbers.new.commits; limit = numbers.new.limit } }
    ensures commits { numbers.old.commits < 2 ^ 64 - 1 → numbers.new.commits ≡ commits_step numbers.old.commits entry.now }
    ensures limit { numbers.new.limit ≡ limit_step numbers.old.limit entry.now }
{
    match entry {
        Record::Format(format) => numbers.limit = format.limit,
        Record::Commit(_) => numbers.commits = numbers.commits.saturating_add(1),
        _ => {}
    }
}
