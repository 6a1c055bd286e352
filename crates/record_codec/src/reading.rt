//! Reading a record.
ghost use Rattle.std.specs.Prelude.{◌≡◌, ◌≢◌, ◌≤◌, ◌++◌, ◌∷◌, ℕ, List, length, take, Err, IfOk};
ghost use Rattle.wal_record.specs.declared.record.Record.{Record};
ghost use Rattle.wal_record.specs.declared.record.Record.TheVariants as kinds;
ghost use Rattle.wal_record.specs.Rules.{HasSpelling};
ghost use Rattle.wal_record.specs.Spelling.{spelling};
ghost use Rattle.wal_record.specs.Reading.{Read, as_kind, record_at, format_at, write_at, apply_at, undo_at, commit_at, end_at, adopt_at, purge_at, written_at, run_done_at, lost_at, restored_at, checkpoint_at, backup_done_at, split_at, grow_at};
ghost use Rattle.state_codec.specs.declared.fault.FieldFault.TheVariants as faults;
ghost use Rattle.state_codec.specs.Gives.{Gives, Fails};
ghost use Rattle.record_codec.specs.Gives.{Tells, IsFound};
ghost use Rattle.record_codec.specs.Row.{Begins};

use crate::fault::RecordFault;
use crate::lists::{page_heads_at, page_lsns_at, runs_at, segments_at, transactions_at};
use state_codec::{
    FieldFault, argument_at, child_at, key_at, limit_at, lsn_or_none_at, maybe_value_at,
    new_value_at, next_at, number_at, page_at, state_at, u8_at, u32_at, u64_at,
};
use std::alloc::Global;
use store_model::{Lsn, PageNo, TxId};
use wal_record::{
    Adopt, Apply, BackupDone, Checkpoint, Commit, End, Format, Grow, Lost, Purge, Record, Restored,
    RunDone, Split, Undo, Write, Written,
};

#[tactic(auto, unfolding(wal_record::specs::Reading::format_at))]
fn format_at(bytes: &[u8]) -> Result<(Record, &[u8]), FieldFault>
    ensures { Gives (λ x. (x.0, x.1.now)) result (as_kind kinds.Format (format_at bytes.now)) }
{
    let (limit, rest) = limit_at(bytes)?;
    Ok((Record::Format(Format { limit }), rest))
}

/// What a Write begins with: its transaction and its page, each with the record before.
#[derive(Clone, Copy)]
struct Head {
    tx: TxId,
    prev: Lsn,
    page: PageNo,
    page_prev: Lsn,
}

fn head_at(bytes: &[u8]) -> Result<(Head, &[u8]), FieldFault>
    ensures { Begins result bytes.now }
{
    let (tx, rest) = number_at(bytes)?;
    let (prev, rest) = lsn_or_none_at(rest)?;
    let (page, rest) = page_at(rest)?;
    let (page_prev, rest) = lsn_or_none_at(rest)?;
    let head = Head {
        tx,
        prev,
        page,
        page_prev,
    };
    Ok((head, rest))
}

#[tactic(auto, unfolding(wal_record::specs::Reading::apply_at))]
fn apply_at(bytes: &[u8]) -> Result<(Apply, &[u8]), FieldFault>
    ensures { Gives (λ x. (x.0, x.1.now)) result (apply_at bytes.now) }
{
    let (tx, rest) = number_at(bytes)?;
    let (prev, rest) = lsn_or_none_at(rest)?;
    let (page, rest) = page_at(rest)?;
    let (page_prev, rest) = lsn_or_none_at(rest)?;
    let (key, rest) = key_at(rest)?;
    let (operator, rest) = u8_at(rest)?;
    let (argument, rest) = argument_at(rest)?;
    let (old, rest) = maybe_value_at(rest)?;
    let found = Apply {
        tx,
        prev,
        page,
        page_prev,
        key,
        operator,
        argument,
        old,
    };
    Ok((found, rest))
}

#[tactic(auto, unfolding(wal_record::specs::Reading::undo_at))]
fn undo_at(bytes: &[u8]) -> Result<(Undo, &[u8]), FieldFault>
    ensures { Gives (λ x. (x.0, x.1.now)) result (undo_at bytes.now) }
{
    let (tx, rest) = number_at(bytes)?;
    let (prev, rest) = lsn_or_none_at(rest)?;
    let (page, rest) = page_at(rest)?;
    let (page_prev, rest) = lsn_or_none_at(rest)?;
    let (key, rest) = key_at(rest)?;
    let (restores, rest) = maybe_value_at(rest)?;
    let (undo_next, rest) = lsn_or_none_at(rest)?;
    let found = Undo {
        tx,
        prev,
        page,
        page_prev,
        key,
        restores,
        undo_next,
    };
    Ok((found, rest))
}

#[tactic(auto, unfolding(wal_record::specs::Reading::commit_at))]
fn commit_at(bytes: &[u8]) -> Result<(Record, &[u8]), FieldFault>
    ensures { Gives (λ x. (x.0, x.1.now)) result (as_kind kinds.Commit (commit_at bytes.now)) }
{
    let (tx, rest) = number_at(bytes)?;
    let (prev, rest) = lsn_or_none_at(rest)?;
    Ok((Record::Commit(Commit { tx, prev }), rest))
}

#[tactic(auto, unfolding(wal_record::specs::Reading::end_at))]
fn end_at(bytes: &[u8]) -> Result<(Record, &[u8]), FieldFault>
    ensures { Gives (λ x. (x.0, x.1.now)) result (as_kind kinds.End (end_at bytes.now)) }
{
    let (tx, rest) = number_at(bytes)?;
    let (prev, rest) = lsn_or_none_at(rest)?;
    Ok((Record::End(End { tx, prev }), rest))
}

#[tactic(auto, unfolding(wal_record::specs::Reading::adopt_at))]
fn adopt_at(bytes: &[u8]) -> Result<(Record, &[u8]), FieldFault>
    ensures { Gives (λ x. (x.0, x.1.now)) result (as_kind kinds.Adopt (adopt_at bytes.now)) }
{
    let (parent, rest) = page_at(bytes)?;
    let (parent_prev, rest) = lsn_or_none_at(rest)?;
    let (fosterer, rest) = page_at(rest)?;
    let (fosterer_prev, rest) = lsn_or_none_at(rest)?;
    let (child, rest) = child_at(rest)?;
    let (key, rest) = key_at(rest)?;
    let found = Adopt {
        parent,
        parent_prev,
        fosterer,
        fosterer_prev,
        child,
        key,
    };
    Ok((Record::Adopt(found), rest))
}

#[tactic(auto, unfolding(wal_record::specs::Reading::purge_at))]
fn purge_at(bytes: &[u8]) -> Result<(Record, &[u8]), FieldFault>
    ensures { Gives (λ x. (x.0, x.1.now)) result (as_kind kinds.Purge (purge_at bytes.now)) }
{
    let (page, rest) = page_at(bytes)?;
    let (page_prev, rest) = lsn_or_none_at(rest)?;
    Ok((Record::Purge(Purge { page, page_prev }), rest))
}

#[tactic(auto, unfolding(wal_record::specs::Reading::written_at))]
fn written_at(bytes: &[u8]) -> Result<(Record, &[u8]), FieldFault>
    ensures { Gives (λ x. (x.0, x.1.now)) result (as_kind kinds.Written (written_at bytes.now)) }
{
    let (page, rest) = page_at(bytes)?;
    let (lsn, rest) = number_at(rest)?;
    Ok((Record::Written(Written { page, lsn }), rest))
}

#[tactic(auto, unfolding(wal_record::specs::Reading::run_done_at))]
fn run_done_at(bytes: &[u8]) -> Result<(Record, &[u8]), FieldFault>
    ensures { Gives (λ x. (x.0, x.1.now)) result (as_kind kinds.RunDone (run_done_at bytes.now)) }
{
    let (run, rest) = number_at(bytes)?;
    let (first, rest) = number_at(rest)?;
    let (last, rest) = number_at(rest)?;
    Ok((Record::RunDone(RunDone { run, first, last }), rest))
}

#[tactic(auto, unfolding(wal_record::specs::Reading::lost_at))]
fn lost_at(bytes: &[u8]) -> Result<(Record, &[u8]), FieldFault>
    ensures { Gives (λ x. (x.0, x.1.now)) result (as_kind kinds.Lost (lost_at bytes.now)) }
{
    let (pages, rest) = u32_at(bytes)?;
    Ok((Record::Lost(Lost { pages }), rest))
}

#[tactic(auto, unfolding(wal_record::specs::Reading::restored_at))]
fn restored_at(bytes: &[u8]) -> Result<(Record, &[u8]), FieldFault>
    ensures { Gives (λ x. (x.0, x.1.now)) result (as_kind kinds.Restored (restored_at bytes.now)) }
{
    let (segment, rest) = u32_at(bytes)?;
    Ok((Record::Restored(Restored { segment }), rest))
}

#[tactic(auto, unfolding(wal_record::specs::Reading::checkpoint_at))]
fn checkpoint_at(alloc: Global, bytes: &[u8]) -> Result<(Record, &[u8]), FieldFault>
    ensures { Gives (λ x. (x.0, x.1.now)) result (as_kind kinds.Checkpoint (checkpoint_at bytes.now)) }
{
    let (next_tx, rest) = next_at(bytes)?;
    let (commits, rest) = u64_at(rest)?;
    let (limit, rest) = u32_at(rest)?;
    let (pages, rest) = page_heads_at(alloc, rest)?;
    let (transactions, rest) = transactions_at(alloc, rest)?;
    let (lost, rest) = u32_at(rest)?;
    let (unrestored, rest) = segments_at(alloc, rest)?;
    let (runs, rest) = runs_at(alloc, rest)?;
    let (next_backup, rest) = next_at(rest)?;
    let (next_run, rest) = next_at(rest)?;
    let found = Checkpoint {
        next_tx,
        commits,
        limit,
        pages,
        transactions,
        lost,
        unrestored,
        runs,
        next_backup,
        next_run,
    };
    Ok((Record::Checkpoint(found), rest))
}

#[tactic(auto, unfolding(wal_record::specs::Reading::backup_done_at))]
fn backup_done_at(alloc: Global, bytes: &[u8]) -> Result<(Record, &[u8]), FieldFault>
    ensures { Gives (λ x. (x.0, x.1.now)) result (as_kind kinds.BackupDone (backup_done_at bytes.now)) }
{
    let (backup, rest) = number_at(bytes)?;
    let (segment, rest) = u32_at(rest)?;
    let (pages, rest) = page_lsns_at(alloc, rest)?;
    let found = BackupDone {
        backup,
        segment,
        pages,
    };
    Ok((Record::BackupDone(found), rest))
}

#[tactic(auto, unfolding(wal_record::specs::Reading::split_at))]
fn split_at(alloc: Global, bytes: &[u8]) -> Result<(Record, &[u8]), FieldFault>
    ensures { Gives (λ x. (x.0, x.1.now)) result (as_kind kinds.Split (split_at bytes.now)) }
{
    let (page, rest) = page_at(bytes)?;
    let (page_prev, rest) = lsn_or_none_at(rest)?;
    let (child, rest) = child_at(rest)?;
    let (child_state, rest) = state_at(alloc, rest)?;
    let found = Split {
        page,
        page_prev,
        child,
        child_state,
    };
    Ok((Record::Split(found), rest))
}

#[tactic(auto, unfolding(wal_record::specs::Reading::grow_at))]
fn grow_at(alloc: Global, bytes: &[u8]) -> Result<(Record, &[u8]), FieldFault>
    ensures { Gives (λ x. (x.0, x.1.now)) result (as_kind kinds.Grow (grow_at bytes.now)) }
{
    let (page_prev, rest) = lsn_or_none_at(bytes)?;
    let (child, rest) = child_at(rest)?;
    let (child_state, rest) = state_at(alloc, rest)?;
    let found = Grow {
        page_prev,
        child,
        child_state,
    };
    Ok((Record::Grow(found), rest))
}

/// The record behind the byte of its kind. Records of a row are read apart.
#[tactic(auto, unfolding(wal_record::specs::Reading::record_at))]
fn record_at(alloc: Global, kind: u8, rest: &[u8]) -> Result<(Record, &[u8]), FieldFault>
    requires no_write { kind ≢ 2 }
    requires no_apply { kind ≢ 3 }
    requires no_undo { kind ≢ 4 }
    ensures { Gives (λ x. (x.0, x.1.now)) result (record_at (kind ∷ rest.now)) }
{
    match kind {
        1 => format_at(rest),
        5 => commit_at(rest),
        6 => end_at(rest),
        7 => split_at(alloc, rest),
        8 => adopt_at(rest),
        9 => grow_at(alloc, rest),
        10 => purge_at(rest),
        11 => written_at(rest),
        12 => checkpoint_at(alloc, rest),
        13 => backup_done_at(alloc, rest),
        14 => run_done_at(rest),
        15 => lost_at(rest),
        16 => restored_at(rest),
        _ => Err(FieldFault::Bad {
            left: 1 + rest.len(),
        }),
    }
}

/// The fault at its byte.
fn fault_in(bytes: &[u8], fault: FieldFault) -> RecordFault
    requires { (left : ℕ) → fault ≡ faults.Bad left → left ≤ length bytes.now }
    ensures { (read : Read Record) → Fails fault read → Tells (Err result) read (length bytes.now) }
{
    match fault {
        FieldFault::Memory => RecordFault::Memory,
        FieldFault::Bad { left } => RecordFault::Bad {
            byte: bytes.len() - left,
        },
    }
}

// A record of a row has room for a key and values, and whoever passes it on copies them: the dearer the less is known
// there of its kind. So each of these kinds is read and told by a call of its own.

/// A Write and its length, or where the first fault is.
#[inline(never)]
fn write_told(bytes: &[u8], rest: &[u8]) -> Result<(Record, usize), RecordFault>
    requires { record_at bytes.now ≡ as_kind kinds.Write (write_at rest.now) }
    ensures { Tells result (record_at bytes.now) (length bytes.now) }
{
    let (head, rest) = match head_at(rest) {
        Ok(read) => read,
        Err(fault) => return Err(fault_in(bytes, fault)),
    };
    let (key, rest) = match key_at(rest) {
        Ok(read) => read,
        Err(fault) => return Err(fault_in(bytes, fault)),
    };
    let (old, rest) = match maybe_value_at(rest) {
        Ok(read) => read,
        Err(fault) => return Err(fault_in(bytes, fault)),
    };
    let (new, after) = match new_value_at(&old, rest) {
        Ok(read) => read,
        Err(fault) => return Err(fault_in(bytes, fault)),
    };
    let found = Write {
        tx: head.tx,
        prev: head.prev,
        page: head.page,
        page_prev: head.page_prev,
        key,
        old,
        new,
    };
    Ok((Record::Write(found), bytes.len() - after.len()))
}

/// An Apply and its length, or where the first fault is.
#[inline(never)]
fn apply_told(bytes: &[u8], rest: &[u8]) -> Result<(Record, usize), RecordFault>
    requires { record_at bytes.now ≡ as_kind kinds.Apply (apply_at rest.now) }
    ensures { Tells result (record_at bytes.now) (length bytes.now) }
{
    match apply_at(rest) {
        Ok((found, after)) => Ok((Record::Apply(found), bytes.len() - after.len())),
        Err(fault) => Err(fault_in(bytes, fault)),
    }
}

/// An Undo and its length, or where the first fault is.
#[inline(never)]
fn undo_told(bytes: &[u8], rest: &[u8]) -> Result<(Record, usize), RecordFault>
    requires { record_at bytes.now ≡ as_kind kinds.Undo (undo_at rest.now) }
    ensures { Tells result (record_at bytes.now) (length bytes.now) }
{
    match undo_at(rest) {
        Ok((found, after)) => Ok((Record::Undo(found), bytes.len() - after.len())),
        Err(fault) => Err(fault_in(bytes, fault)),
    }
}

/// A record of another kind and its length, or where the first fault is.
fn other_told(
    alloc: Global,
    bytes: &[u8],
    kind: u8,
    rest: &[u8],
) -> Result<(Record, usize), RecordFault>
    requires parts { bytes.now ≡ kind ∷ rest.now }
    requires no_write { kind ≢ 2 }
    requires no_apply { kind ≢ 3 }
    requires no_undo { kind ≢ 4 }
    ensures { Tells result (record_at bytes.now) (length bytes.now) }
{
    match record_at(alloc, kind, rest) {
        Ok((found, rest)) => Ok((found, bytes.len() - rest.len())),
        Err(fault) => Err(fault_in(bytes, fault)),
    }
}

/// The record in front and its length, or where the first fault is.
#[tactic(auto, unfolding(wal_record::specs::Reading::record_at))]
fn told(alloc: Global, bytes: &[u8]) -> Result<(Record, usize), RecordFault>
    ensures { Tells result (record_at bytes.now) (length bytes.now) }
{
    let [kind, rest @ ..] = bytes else {
        return Err(RecordFault::Bad { byte: 0 });
    };
    match *kind {
        2 => write_told(bytes, rest),
        3 => apply_told(bytes, rest),
        4 => undo_told(bytes, rest),
        kind => other_told(alloc, bytes, kind, rest),
    }
}

/// The record that the bytes begin with, and its length. Want of memory apart, it is refused exactly where the bytes
/// begin with no record, at the byte where the first field begins that is cut or breaks its rule.
pub fn decode(alloc: Global, bytes: &[u8]) -> Result<(Record, usize), RecordFault>
    // What is found keeps its rules, and its spelling begins the bytes.
    ensures found { IfOk result (λ x. HasSpelling x.0 × (take x.1 bytes.now ≡ spelling x.0)) }
    // Where a spelling begins the bytes, that record is found, unless memory ran out.
    ensures only { (r : Record) (rest : List ℕ) → HasSpelling r → bytes.now ≡ spelling r ++ rest → IsFound result r }
    // Where a fault is.
    ensures exact { Tells result (record_at bytes.now) (length bytes.now) }
{
    told(alloc, bytes)
}
