//! Writing a record.
ghost use Rattle.std.specs.Prelude.{◌≡◌, ◌++◌, ◌∷◌, OnOk, OnErr, length};
ghost use Rattle.wal_record.specs.Rules.{HasSpelling, KeepsCheckpoint, KeepsBackupDone, KeepsSplit, KeepsGrow};
ghost use Rattle.wal_record.specs.Spelling.{spelling};
ghost use Rattle.wal_record.specs.declared.record.Record.TheVariants as kinds;
ghost use Rattle.record_codec.specs.Parts.{change_bytes, losses_bytes};

use crate::list_writing::{
    put_page_heads, put_page_lsns, put_runs, put_segments, put_transactions,
};
use state_codec::{put_argument, put_key, put_maybe_value, put_state, put_u8, put_u32, put_u64};
use std::alloc::{AllocError, Global};
use store_model::{Key, Lsn, Memory, PageNo, TxId};
use wal_record::{
    Adopt, Apply, BackupDone, Checkpoint, Commit, End, Format, Grow, Lost, Purge, Record, Restored,
    RunDone, Split, Undo, Write, Written,
};

/// Room for the longest record of a row, so that its bytes are never moved while it is spelled. Longer records, those
/// with lists or a page's state, make more room.
const ROOM: usize = 640;

fn put_format(out: &mut Vec<u8>, found: &Format) -> Result<(), AllocError>
    ensures { OnOk result (out.new.items ≡ out.old.items ++ spelling (kinds.Format found.now)) }
{
    out.push(1)?;
    put_u32(out, found.limit)
}

/// Appends a kind, and what each change of a row has behind it: its transaction, its page and its key, each with the
/// record before.
fn put_change(
    out: &mut Vec<u8>,
    kind: u8,
    tx: TxId,
    prev: Lsn,
    page: PageNo,
    page_prev: Lsn,
    key: &Key,
) -> Result<(), AllocError>
    ensures { OnOk result (out.new.items ≡ out.old.items ++ kind ∷ change_bytes tx prev page page_prev key.now) }
{
    out.push(kind)?;
    put_u64(out, tx)?;
    put_u64(out, prev)?;
    put_u32(out, page)?;
    put_u64(out, page_prev)?;
    put_key(out, key)
}

fn put_write(out: &mut Vec<u8>, found: &Write) -> Result<(), AllocError>
    ensures { OnOk result (out.new.items ≡ out.old.items ++ spelling (kinds.Write found.now)) }
{
    put_change(
        out,
        2,
        found.tx,
        found.prev,
        found.page,
        found.page_prev,
        &found.key,
    )?;
    put_maybe_value(out, &found.old)?;
    put_maybe_value(out, &found.new)
}

fn put_apply(out: &mut Vec<u8>, found: &Apply) -> Result<(), AllocError>
    ensures { OnOk result (out.new.items ≡ out.old.items ++ spelling (kinds.Apply found.now)) }
{
    put_change(
        out,
        3,
        found.tx,
        found.prev,
        found.page,
        found.page_prev,
        &found.key,
    )?;
    put_u8(out, found.operator)?;
    put_argument(out, &found.argument)?;
    put_maybe_value(out, &found.old)
}

fn put_undo(out: &mut Vec<u8>, found: &Undo) -> Result<(), AllocError>
    ensures { OnOk result (out.new.items ≡ out.old.items ++ spelling (kinds.Undo found.now)) }
{
    put_change(
        out,
        4,
        found.tx,
        found.prev,
        found.page,
        found.page_prev,
        &found.key,
    )?;
    put_maybe_value(out, &found.restores)?;
    put_u64(out, found.undo_next)
}

fn put_commit(out: &mut Vec<u8>, found: &Commit) -> Result<(), AllocError>
    ensures { OnOk result (out.new.items ≡ out.old.items ++ spelling (kinds.Commit found.now)) }
{
    out.push(5)?;
    put_u64(out, found.tx)?;
    put_u64(out, found.prev)
}

fn put_end(out: &mut Vec<u8>, found: &End) -> Result<(), AllocError>
    ensures { OnOk result (out.new.items ≡ out.old.items ++ spelling (kinds.End found.now)) }
{
    out.push(6)?;
    put_u64(out, found.tx)?;
    put_u64(out, found.prev)
}

fn put_adopt(out: &mut Vec<u8>, found: &Adopt) -> Result<(), AllocError>
    ensures { OnOk result (out.new.items ≡ out.old.items ++ spelling (kinds.Adopt found.now)) }
{
    out.push(8)?;
    put_u32(out, found.parent)?;
    put_u64(out, found.parent_prev)?;
    put_u32(out, found.fosterer)?;
    put_u64(out, found.fosterer_prev)?;
    put_u32(out, found.child)?;
    put_key(out, &found.key)
}

fn put_purge(out: &mut Vec<u8>, found: &Purge) -> Result<(), AllocError>
    ensures { OnOk result (out.new.items ≡ out.old.items ++ spelling (kinds.Purge found.now)) }
{
    out.push(10)?;
    put_u32(out, found.page)?;
    put_u64(out, found.page_prev)
}

fn put_written(out: &mut Vec<u8>, found: &Written) -> Result<(), AllocError>
    ensures { OnOk result (out.new.items ≡ out.old.items ++ spelling (kinds.Written found.now)) }
{
    out.push(11)?;
    put_u32(out, found.page)?;
    put_u64(out, found.lsn)
}

fn put_run_done(out: &mut Vec<u8>, found: &RunDone) -> Result<(), AllocError>
    ensures { OnOk result (out.new.items ≡ out.old.items ++ spelling (kinds.RunDone found.now)) }
{
    out.push(14)?;
    put_u64(out, found.run)?;
    put_u64(out, found.first)?;
    put_u64(out, found.last)
}

fn put_lost(out: &mut Vec<u8>, found: &Lost) -> Result<(), AllocError>
    ensures { OnOk result (out.new.items ≡ out.old.items ++ spelling (kinds.Lost found.now)) }
{
    out.push(15)?;
    put_u32(out, found.pages)
}

fn put_restored(out: &mut Vec<u8>, found: &Restored) -> Result<(), AllocError>
    ensures { OnOk result (out.new.items ≡ out.old.items ++ spelling (kinds.Restored found.now)) }
{
    out.push(16)?;
    put_u32(out, found.segment)
}

#[tactic(auto, unfolding(wal_record::specs::Spelling::checkpoint_bytes))]
fn put_checkpoint(out: &mut Vec<u8>, found: &Checkpoint) -> Result<(), AllocError>
    requires { KeepsCheckpoint found.now }
    ensures { OnOk result (out.new.items ≡ out.old.items ++ spelling (kinds.Checkpoint found.now)) }
{
    out.push(12)?;
    put_u64(out, found.next_tx)?;
    put_u64(out, found.commits)?;
    put_u32(out, found.limit)?;
    put_page_heads(out, &found.pages)?;
    put_transactions(out, &found.transactions)?;
    put_losses(out, found)
}

/// Appends what a Checkpoint says of lost pages, of runs, and of the numbers to come.
fn put_losses(out: &mut Vec<u8>, found: &Checkpoint) -> Result<(), AllocError>
    requires { KeepsCheckpoint found.now }
    ensures { OnOk result (out.new.items ≡ out.old.items ++ losses_bytes found.now) }
{
    put_u32(out, found.lost)?;
    put_segments(out, &found.unrestored)?;
    put_runs(out, &found.runs)?;
    put_u64(out, found.next_backup)?;
    put_u64(out, found.next_run)
}

fn put_backup_done(out: &mut Vec<u8>, found: &BackupDone) -> Result<(), AllocError>
    requires { KeepsBackupDone found.now }
    ensures { OnOk result (out.new.items ≡ out.old.items ++ spelling (kinds.BackupDone found.now)) }
{
    out.push(13)?;
    put_u64(out, found.backup)?;
    put_u32(out, found.segment)?;
    put_page_lsns(out, &found.pages)
}

fn put_split(out: &mut Vec<u8>, found: &Split) -> Result<(), AllocError>
    requires { KeepsSplit found.now }
    ensures { OnOk result (out.new.items ≡ out.old.items ++ spelling (kinds.Split found.now)) }
{
    out.push(7)?;
    put_u32(out, found.page)?;
    put_u64(out, found.page_prev)?;
    put_u32(out, found.child)?;
    put_state(out, &found.child_state)
}

fn put_grow(out: &mut Vec<u8>, found: &Grow) -> Result<(), AllocError>
    requires { KeepsGrow found.now }
    ensures { OnOk result (out.new.items ≡ out.old.items ++ spelling (kinds.Grow found.now)) }
{
    out.push(9)?;
    put_u64(out, found.page_prev)?;
    put_u32(out, found.child)?;
    put_state(out, &found.child_state)
}

/// Appends the spelling, or part of it where memory runs out.
fn put_record(out: &mut Vec<u8>, found: &Record) -> Result<(), AllocError>
    requires { HasSpelling found.now }
    ensures { OnOk result (out.new.items ≡ out.old.items ++ spelling found.now) }
{
    match found {
        Record::Format(found) => put_format(out, found),
        Record::Write(found) => put_write(out, found),
        Record::Apply(found) => put_apply(out, found),
        Record::Undo(found) => put_undo(out, found),
        Record::Commit(found) => put_commit(out, found),
        Record::End(found) => put_end(out, found),
        Record::Split(found) => put_split(out, found),
        Record::Adopt(found) => put_adopt(out, found),
        Record::Grow(found) => put_grow(out, found),
        Record::Purge(found) => put_purge(out, found),
        Record::Written(found) => put_written(out, found),
        Record::Checkpoint(found) => put_checkpoint(out, found),
        Record::BackupDone(found) => put_backup_done(out, found),
        Record::RunDone(found) => put_run_done(out, found),
        Record::Lost(found) => put_lost(out, found),
        Record::Restored(found) => put_restored(out, found),
    }
}

/// Appends the one spelling of a record, which is spelled apart first: where memory runs out, `out` is as before.
pub fn encode(alloc: Global, found: &Record, out: &mut Vec<u8>) -> Result<(), Memory>
    requires { HasSpelling found.now }
    ensures ok { OnOk result (out.new.items ≡ out.old.items ++ spelling found.now) }
    ensures err { OnErr result (out.new.items ≡ out.old.items) }
{
    let mut bytes = Vec::with_capacity(alloc, ROOM)?;
    put_record(&mut bytes, found)?;
    out.extend_from_slice(&bytes)?;
    Ok(())
}

/// The spelling of a Commit. It takes no memory.
pub fn commit_bytes(commit: &Commit) -> [u8; 17]
    ensures { result ≡ spelling (kinds.Commit commit.now) }
{
    let [a, b, c, d, e, f, g, h] = commit.tx.to_be_bytes();
    let [i, j, k, l, m, n, o, p] = commit.prev.to_be_bytes();
    [5, a, b, c, d, e, f, g, h, i, j, k, l, m, n, o, p]
}
