//! What the calls of a journal answer.

use store_model::{List, Lsn, Pos, TxId};
use wal_record::{Analysis, PageHead, Record, Run};

/// What became of a group.
#[derive(Debug, Drop)]
pub enum Entered {
    /// It was entered, and its last entry stands here.
    At(Pos),
    /// There is no room for a page more. Nothing was entered.
    NoRoom,
    /// Another thread has undone the write, ended the loser or restored the segment: the entry that came first stands here.
    /// Nothing was entered.
    Late(Pos),
}

/// What became of a lock.
#[derive(Debug, Drop)]
pub enum Grant {
    /// The transaction holds it. The entry stands here.
    Held(Pos),
    /// No live transaction holds a lock that conflicts with it, and this loser is the least that does.
    Loser(TxId),
}

/// A commit that is acknowledged: where, and the number of commits of the log up to this one.
#[derive(Debug, Drop)]
pub struct Committed {
    pub pos: Pos,
    pub number: u64,
}

/// Where a record is.
#[derive(Drop)]
pub enum Found {
    /// The log keeps it.
    Record(Record),
    /// The log has forgotten it, and this archive run has it.
    Run(Run),
}

/// What a journal knows. The losers are those of the opening log that have no End yet, by rising number.
#[derive(Drop)]
pub struct Survey {
    /// Of the log as it is now.
    pub analysis: Analysis,
    pub losers: List<TxId>,
    /// How many Undos the life has entered.
    pub undone: u64,
    /// How many pages the life has repaired, counting each time.
    pub repaired: u64,
    /// The first LSN that the log keeps.
    pub first_kept: Lsn,
    /// The last LSN.
    pub last: Lsn,
    /// Up to which LSN the log is durable.
    pub durable: Lsn,
}

/// What a bring needs to know of a page.
#[derive(Drop)]
pub struct Listed {
    /// The ends of its traces.
    pub ends: PageHead,
    /// Whether its segment is unrestored.
    pub unrestored: bool,
    /// How many pages there were when the data device was last lost; 0 where it never was. Those behind them were never on
    /// the lost device.
    pub lost: u32,
}

/// What a step of help may work on.
#[derive(Drop)]
pub struct Work {
    /// The least loser that has no End.
    pub loser: Option<TxId>,
    /// The least segment that is unrestored.
    pub segment: Option<u32>,
    /// How many archive runs stand.
    pub runs: u32,
    /// The last LSN that they have.
    pub archived: Lsn,
    /// Up to which LSN the log is durable.
    pub durable: Lsn,
}
