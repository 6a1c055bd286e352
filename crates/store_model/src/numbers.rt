//! The numbers that name things.

/// A log sequence number: the place of a record in the log, counted from 1. 0 names none.
pub type Lsn = u64;

/// The number of a page, counted from 1.
pub type PageNo = u32;

/// The number of a transaction, counted from 1.
pub type TxId = u64;

/// A place in the history of a life: how many entries it has up to the named one, with that one.
pub type Pos = u64;
