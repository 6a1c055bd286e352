//! A record as a line: its LSN, its kind and its fields in order.
use crate::lists::{put_heads, put_images, put_runs, put_segments, put_transactions};
use crate::state::put_state;
use field_line::Line;
use std::alloc::{AllocError, Global};
use store_model::{Key, Lsn, PageNo, TxId, Value};
use wal_record::{
    Adopt, Apply, BackupDone, Checkpoint, Grow, Purge, Record, RunDone, Split, Undo, Write, Written,
};

/// The line of a record.
pub fn record_line(alloc: Global, lsn: Lsn, record: &Record) -> Result<Line, AllocError> {
    let mut line = Line::new(alloc, "record")?;
    line.count(lsn)?;
    line.word(kind_of(record))?;
    put_fields(&mut line, record)?;
    Ok(line)
}

fn kind_of(record: &Record) -> &'static str {
    match record {
        Record::Format(_) => "Format",
        Record::Write(_) => "Write",
        Record::Apply(_) => "Apply",
        Record::Undo(_) => "Undo",
        Record::Commit(_) => "Commit",
        Record::End(_) => "End",
        Record::Split(_) => "Split",
        Record::Adopt(_) => "Adopt",
        Record::Grow(_) => "Grow",
        Record::Purge(_) => "Purge",
        Record::Written(_) => "Written",
        Record::Checkpoint(_) => "Checkpoint",
        Record::BackupDone(_) => "BackupDone",
        Record::RunDone(_) => "RunDone",
        Record::Lost(_) => "Lost",
        Record::Restored(_) => "Restored",
    }
}

fn put_fields(line: &mut Line, record: &Record) -> Result<(), AllocError> {
    match record {
        Record::Format(r) => line.number("limit", u64::from(r.limit)),
        Record::Write(r) => put_write(line, r),
        Record::Apply(r) => put_apply(line, r),
        Record::Undo(r) => put_undo(line, r),
        Record::Commit(r) => put_step(line, r.tx, r.prev),
        Record::End(r) => put_step(line, r.tx, r.prev),
        Record::Split(r) => put_split(line, r),
        Record::Adopt(r) => put_adopt(line, r),
        Record::Grow(r) => put_grow(line, r),
        Record::Purge(r) => put_purge(line, r),
        Record::Written(r) => put_written(line, r),
        Record::Checkpoint(r) => put_checkpoint(line, r),
        Record::BackupDone(r) => put_backup(line, r),
        Record::RunDone(r) => put_run(line, r),
        Record::Lost(r) => line.number("pages", u64::from(r.pages)),
        Record::Restored(r) => line.number("segment", u64::from(r.segment)),
    }
}

fn put_step(line: &mut Line, tx: TxId, prev: Lsn) -> Result<(), AllocError> {
    line.numbers(&[("tx", tx), ("prev", prev)])
}

/// Adds what each change of a row begins with.
fn put_change(
    line: &mut Line,
    tx: TxId,
    prev: Lsn,
    page: PageNo,
    page_prev: Lsn,
    key: &Key,
) -> Result<(), AllocError> {
    line.numbers(&[
        ("tx", tx),
        ("prev", prev),
        ("page", u64::from(page)),
        ("page_prev", page_prev),
    ])?;
    line.text("key", key.as_bytes())
}

fn put_value(line: &mut Line, name: &str, value: &Option<Value>) -> Result<(), AllocError> {
    match value {
        Some(value) => line.text(name, value.as_bytes()),
        None => line.absent(name),
    }
}

fn put_write(line: &mut Line, r: &Write) -> Result<(), AllocError> {
    put_change(line, r.tx, r.prev, r.page, r.page_prev, &r.key)?;
    put_value(line, "old", &r.old)?;
    put_value(line, "new", &r.new)
}

fn put_apply(line: &mut Line, r: &Apply) -> Result<(), AllocError> {
    put_change(line, r.tx, r.prev, r.page, r.page_prev, &r.key)?;
    line.number("operator", u64::from(r.operator))?;
    line.text("argument", r.argument.as_bytes())?;
    put_value(line, "old", &r.old)
}

fn put_undo(line: &mut Line, r: &Undo) -> Result<(), AllocError> {
    put_change(line, r.tx, r.prev, r.page, r.page_prev, &r.key)?;
    put_value(line, "restores", &r.restores)?;
    line.number("undo_next", r.undo_next)
}

fn put_split(line: &mut Line, r: &Split) -> Result<(), AllocError> {
    line.numbers(&[
        ("page", u64::from(r.page)),
        ("page_prev", r.page_prev),
        ("child", u64::from(r.child)),
    ])?;
    put_state(line, &r.child_state)
}

fn put_adopt(line: &mut Line, r: &Adopt) -> Result<(), AllocError> {
    line.numbers(&[
        ("parent", u64::from(r.parent)),
        ("parent_prev", r.parent_prev),
        ("fosterer", u64::from(r.fosterer)),
        ("fosterer_prev", r.fosterer_prev),
        ("child", u64::from(r.child)),
    ])?;
    line.text("key", r.key.as_bytes())
}

fn put_grow(line: &mut Line, r: &Grow) -> Result<(), AllocError> {
    line.numbers(&[("page_prev", r.page_prev), ("child", u64::from(r.child))])?;
    put_state(line, &r.child_state)
}

fn put_purge(line: &mut Line, r: &Purge) -> Result<(), AllocError> {
    line.numbers(&[("page", u64::from(r.page)), ("page_prev", r.page_prev)])
}

fn put_written(line: &mut Line, r: &Written) -> Result<(), AllocError> {
    line.numbers(&[("page", u64::from(r.page)), ("lsn", r.lsn)])
}

fn put_checkpoint(line: &mut Line, r: &Checkpoint) -> Result<(), AllocError> {
    line.numbers(&[
        ("next_tx", r.next_tx),
        ("commits", r.commits),
        ("limit", u64::from(r.limit)),
    ])?;
    put_heads(line, r.pages.as_slice())?;
    put_transactions(line, r.transactions.as_slice())?;
    put_losses(line, r)
}

/// Adds what a Checkpoint says of lost pages and of the vault.
fn put_losses(line: &mut Line, r: &Checkpoint) -> Result<(), AllocError> {
    line.number("lost", u64::from(r.lost))?;
    put_segments(line, r.unrestored.as_slice())?;
    put_runs(line, r.runs.as_slice())?;
    line.numbers(&[("next_backup", r.next_backup), ("next_run", r.next_run)])
}

fn put_backup(line: &mut Line, r: &BackupDone) -> Result<(), AllocError> {
    line.numbers(&[("backup", r.backup), ("segment", u64::from(r.segment))])?;
    put_images(line, r.pages.as_slice())
}

fn put_run(line: &mut Line, r: &RunDone) -> Result<(), AllocError> {
    line.numbers(&[("run", r.run), ("first", r.first), ("last", r.last)])
}
