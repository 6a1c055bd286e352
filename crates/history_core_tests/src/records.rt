//! Records, as `inspect` lists them. Lists are told in short.
use crate::fields::{argument, key, number, operator, small, value, word_at};
use std::alloc::Global;
use store_model::{Bound, Key, List, Value};
use wal_record::{
    Apply, BackupDone, Checkpoint, Commit, End, Format, LeafRow, Lost, OpenWrite, PageHead,
    PageLsn, PageState, Record, Restored, Rows, RunDone, Split, Undo, Unfinished, Write, Written,
};

fn write(line: &str) -> Option<Record> {
    Some(Record::Write(Write {
        tx: number(line, "tx")?,
        prev: number(line, "prev")?,
        page: small(line, "page")?,
        page_prev: number(line, "page_prev")?,
        key: key(line)?,
        old: value(line, "old"),
        new: value(line, "new"),
    }))
}

fn apply(line: &str) -> Option<Record> {
    Some(Record::Apply(Apply {
        tx: number(line, "tx")?,
        prev: number(line, "prev")?,
        page: small(line, "page")?,
        page_prev: number(line, "page_prev")?,
        key: key(line)?,
        operator: operator(line)?,
        argument: argument(line)?,
        old: value(line, "old"),
    }))
}

fn undo(line: &str) -> Option<Record> {
    Some(Record::Undo(Undo {
        tx: number(line, "tx")?,
        prev: number(line, "prev")?,
        page: small(line, "page")?,
        page_prev: number(line, "page_prev")?,
        undo_next: number(line, "undo_next")?,
        key: key(line)?,
        restores: value(line, "restores"),
    }))
}

/// The leaf of the keys from `low` to o, with the longest values.
fn upper_leaf(alloc: Global, low: Key) -> Option<PageState> {
    let first = *low.as_bytes().first()?;
    let mut rows = List::new(alloc);
    for byte in first..=b'o' {
        let row = LeafRow {
            key: Key::new(&[byte])?,
            tombstone: false,
            value: Value::new(&[b'.'; 256])?,
        };
        rows.push(row).ok()?;
    }
    Some(PageState {
        level: 0,
        low: Bound::of_key(&low),
        high: Bound::top(),
        foster: None,
        rows: Rows::Leaf(rows),
    })
}

fn split(alloc: Global, line: &str) -> Option<Record> {
    Some(Record::Split(Split {
        page: small(line, "page")?,
        page_prev: number(line, "page_prev")?,
        child: small(line, "child")?,
        child_state: upper_leaf(alloc, key(line)?)?,
    }))
}

/// A list of one item.
fn one<X: Drop>(alloc: Global, item: X) -> Option<List<X>> {
    let mut items = List::new(alloc);
    items.push(item).ok()?;
    Some(items)
}

/// The transaction that the line names, with one open write of the key x, or none.
fn open_write(alloc: Global, line: &str) -> Option<List<Unfinished>> {
    let Some(lsn) = number(line, "open") else {
        return Some(List::new(alloc));
    };
    let writes = one(
        alloc,
        OpenWrite {
            lsn,
            key: Key::new(b"x")?,
        },
    )?;
    one(
        alloc,
        Unfinished {
            tx: 1,
            last: lsn,
            undo_next: lsn,
            writes,
        },
    )
}

/// Of a store of one page and 8 places, without commits and upkeep.
fn checkpoint(alloc: Global, line: &str) -> Option<Record> {
    let (next_tx, head) = (number(line, "next_tx")?, number(line, "head")?);
    let pages = one(
        alloc,
        PageHead {
            head,
            written: 0,
            backup: 0,
            backup_lsn: 0,
        },
    )?;
    Some(Record::Checkpoint(Checkpoint {
        next_tx,
        commits: 0,
        limit: 8,
        pages,
        transactions: open_write(alloc, line)?,
        lost: 0,
        unrestored: List::new(alloc),
        runs: List::new(alloc),
        next_backup: 1,
        next_run: 1,
    }))
}

/// A backup of one page.
fn backup(alloc: Global, line: &str) -> Option<Record> {
    let (page, lsn) = (small(line, "page")?, number(line, "lsn")?);
    Some(Record::BackupDone(BackupDone {
        backup: number(line, "backup")?,
        segment: small(line, "segment")?,
        pages: one(alloc, PageLsn { page, lsn })?,
    }))
}

fn run(line: &str) -> Option<Record> {
    Some(Record::RunDone(RunDone {
        run: number(line, "run")?,
        first: number(line, "first")?,
        last: number(line, "last")?,
    }))
}

fn written(line: &str) -> Option<Record> {
    Some(Record::Written(Written {
        page: small(line, "page")?,
        lsn: number(line, "lsn")?,
    }))
}

/// The record of a line, by its kind.
pub fn record_of(alloc: Global, line: &str) -> Option<Record> {
    let tx = number(line, "tx").unwrap_or(0);
    let prev = number(line, "prev").unwrap_or(0);
    match word_at(line, 2) {
        "Format" => Some(Record::Format(Format {
            limit: small(line, "limit")?,
        })),
        "Write" => write(line),
        "Apply" => apply(line),
        "Undo" => undo(line),
        "Commit" => Some(Record::Commit(Commit { tx, prev })),
        "End" => Some(Record::End(End { tx, prev })),
        "Split" => split(alloc, line),
        "Checkpoint" => checkpoint(alloc, line),
        "BackupDone" => backup(alloc, line),
        "RunDone" => run(line),
        "Written" => written(line),
        "Lost" => Some(Record::Lost(Lost {
            pages: small(line, "pages")?,
        })),
        "Restored" => Some(Record::Restored(Restored {
            segment: small(line, "segment")?,
        })),
        _ => None,
    }
}
