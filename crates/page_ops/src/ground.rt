//! The shared words of a life.
use crate::life::Life;
use books::BookTables;
use front::Board;
use wal_record::Entry;

/// What the threads of a life share beside its locks: the words of its count and of its books.
#[derive(Drop)]
pub struct Ground<N: Life> {
    pub board: Board<Entry, N>,
    pub tables: BookTables<N>,
}
