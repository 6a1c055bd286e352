//! The records of the log.
//!
//! A record's log sequence number (LSN) is its place in the log, counted from 1; 0 stands for none.
//! `prev` is the LSN of the transaction's record before this one, and a field that ends in `_prev` that
//! of the record before this one that names the page. So each transaction and each page has a chain
//! of records. Chains of pages are those of single-page repair (Graefe and Kuno 2012).

use crate::analysis::{PageHead, Run};
use crate::page::PageState;
use store_model::{Key, List, Lsn, OpValue, PageNo, TxId, Value};

/// Makes the first page of a store that has room for `limit` pages and writes not yet undone.
#[derive(Drop)]
pub struct Format {
    pub limit: u32,
}

/// Gives a key a new value, or none.
#[derive(Drop)]
pub struct Write {
    pub tx: TxId,
    pub prev: Lsn,
    pub page: PageNo,
    pub page_prev: Lsn,
    pub key: Key,
    pub old: Option<Value>,
    pub new: Option<Value>,
}

/// Gives a key what an operator makes of its value and an argument.
#[derive(Drop)]
pub struct Apply {
    pub tx: TxId,
    pub prev: Lsn,
    pub page: PageNo,
    pub page_prev: Lsn,
    pub key: Key,
    pub operator: u8,
    pub argument: OpValue,
    pub old: Option<Value>,
}

/// Takes back the last write of a transaction that wasn't taken back: a compensation log record
/// (Mohan et al. 1992). `undo_next` is the `prev` of the record that it takes back.
#[derive(Drop)]
pub struct Undo {
    pub tx: TxId,
    pub prev: Lsn,
    pub page: PageNo,
    pub page_prev: Lsn,
    pub key: Key,
    pub restores: Option<Value>,
    pub undo_next: Lsn,
}

/// Commits a transaction.
#[derive(Drop)]
pub struct Commit {
    pub tx: TxId,
    pub prev: Lsn,
}

/// Ends a transaction whose writes have all been undone.
#[derive(Drop)]
pub struct End {
    pub tx: TxId,
    pub prev: Lsn,
}

/// Moves the upper rows of a page to a new page, its foster child. `child_state` is what the new page
/// holds.
#[derive(Drop)]
pub struct Split {
    pub page: PageNo,
    pub page_prev: Lsn,
    pub child: PageNo,
    pub child_state: PageState,
}

/// Moves the pointer to a foster child from its foster parent, the fosterer, to their parent.
#[derive(Drop)]
pub struct Adopt {
    pub parent: PageNo,
    pub parent_prev: Lsn,
    pub fosterer: PageNo,
    pub fosterer_prev: Lsn,
    pub child: PageNo,
    pub key: Key,
}

/// Moves the content of the root, page 1, to a new page, which becomes the root's only child.
/// `child_state` is that content.
#[derive(Drop)]
pub struct Grow {
    pub page_prev: Lsn,
    pub child: PageNo,
    pub child_state: PageState,
}

/// Removes the tombstones of a leaf.
#[derive(Drop)]
pub struct Purge {
    pub page: PageNo,
    pub page_prev: Lsn,
}

/// The image of the page with this LSN was written to the data device.
#[derive(Drop)]
pub struct Written {
    pub page: PageNo,
    pub lsn: Lsn,
}

/// A write that is neither undone nor committed: the LSN of its record, and its key.
#[derive(Drop)]
pub struct OpenWrite {
    pub lsn: Lsn,
    pub key: Key,
}

/// A transaction with open writes, oldest first. `last` is the LSN of its last record, and `undo_next`
/// that of its last open write.
#[derive(Drop)]
pub struct Unfinished {
    pub tx: TxId,
    pub last: Lsn,
    pub undo_next: Lsn,
    pub writes: List<OpenWrite>,
}

/// What an opening has to know of the log before this record. The pages are those from 1 on, the
/// transactions stand by rising number, the unrestored segments and the runs rise. `lost` is the
/// number of pages at the last loss of the data device, 0 for none.
#[derive(Drop)]
pub struct Checkpoint {
    pub next_tx: TxId,
    pub commits: u64,
    pub limit: u32,
    pub pages: List<PageHead>,
    pub transactions: List<Unfinished>,
    pub lost: u32,
    pub unrestored: List<u32>,
    pub runs: List<Run>,
    pub next_backup: u64,
    pub next_run: u64,
}

/// A page, and the LSN of an image of it.
#[derive(Drop)]
pub struct PageLsn {
    pub page: PageNo,
    pub lsn: Lsn,
}

/// A backup of these pages of a segment is durable, each with the image of that LSN.
#[derive(Drop)]
pub struct BackupDone {
    pub backup: u64,
    pub segment: u32,
    pub pages: List<PageLsn>,
}

/// An archive run of the page records with LSNs from `first` to `last` is durable.
#[derive(Drop)]
pub struct RunDone {
    pub run: u64,
    pub first: Lsn,
    pub last: Lsn,
}

/// The data device was lost and replaced when the store had this many pages.
#[derive(Drop)]
pub struct Lost {
    pub pages: u32,
}

/// The pages of a segment were restored since the last loss. A segment is 16 neighbouring pages,
/// counted from 0.
#[derive(Drop)]
pub struct Restored {
    pub segment: u32,
}

/// A record of the log.
#[derive(Drop)]
pub enum Record {
    Format(Format),
    Write(Write),
    Apply(Apply),
    Undo(Undo),
    Commit(Commit),
    End(End),
    Split(Split),
    Adopt(Adopt),
    Grow(Grow),
    Purge(Purge),
    Written(Written),
    Checkpoint(Checkpoint),
    BackupDone(BackupDone),
    RunDone(RunDone),
    Lost(Lost),
    Restored(Restored),
}
