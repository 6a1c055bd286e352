//! What is entered in one hold of the journal's lock.

use store_model::{List, Lsn, Reply, Request, TxId};
use wal_record::Record;

/// The answer of a request, as it is to be entered.
#[derive(Drop)]
pub struct Said {
    pub session: u32,
    pub tx: TxId,
    pub request: Request,
    pub reply: Reply,
}

/// One to three records, or none, and the answer of a request. What the journal alone knows is left open in the records: the
/// records before them of their transaction and of their pages, the number of a page that they make, and what a
/// checkpoint and a loss tell. In the group a new page goes by the number that its Split or Grow gives the child.
/// `room` says that the group is to be refused where a transaction might not be undone after it for want of room. `lsn` is
/// left open too: it becomes the LSN of the first record.
#[derive(Drop)]
pub struct Group {
    pub recs: List<Record>,
    pub said: Option<Said>,
    pub room: bool,
    pub lsn: Lsn,
}
