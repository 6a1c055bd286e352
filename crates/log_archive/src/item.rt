//! The items of a run.

use store_model::Lsn;
use wal_record::Record;

/// A record with its LSN.
#[derive(Drop)]
pub struct Numbered {
    pub lsn: Lsn,
    pub rec: Record,
}
