//! How far an inspection of a log has come.

use crate::chains::Chains;
use crate::halt::Halt;
use log_blocks::{CHECKPOINT_AT, PAYLOAD_AT};
use std::alloc::{AllocError, Global};
use store_model::Lsn;
use wal_record::Record;

/// What a log has.
#[derive(Clone, Copy, Debug, PartialEq, Eq)]
pub struct Totals {
    pub blocks: u64,
    pub records: u64,
    /// The LSN of the last record, 0 for none.
    pub last: Lsn,
}

/// A block: its number, where it stands behind the log's start, and its header.
#[derive(Clone, Copy)]
pub struct Block {
    pub number: u64,
    pub offset: u64,
    pub first: u64,
    pub checkpoint: u64,
    pub count: u16,
    pub length: u32,
}

/// What was seen of a log so far.
#[derive(Drop)]
pub struct Walk {
    start: u64,
    /// How far behind the start the next block stands.
    offset: u64,
    seen: Totals,
    chains: Chains,
    /// The LSN of the last Checkpoint, where the log can tell.
    checkpoint: Option<Lsn>,
}

impl Walk {
    /// Nothing yet, of a log from this offset on.
    pub fn new(alloc: Global, start: u64) -> Walk {
        Walk {
            start,
            offset: 0,
            seen: Totals {
                blocks: 0,
                records: 0,
                last: 0,
            },
            chains: Chains::new(alloc, start == 0),
            checkpoint: if start == 0 { Some(0) } else { None },
        }
    }

    pub fn totals(&self) -> Totals {
        self.seen
    }

    /// The number of the next block.
    pub fn next_block(&self) -> u64 {
        self.seen.blocks
    }

    /// How far behind the start the next block stands.
    pub fn offset(&self) -> u64 {
        self.offset
    }

    /// The offset of the log where the next block stands.
    pub fn place(&self) -> u64 {
        self.start.saturating_add(self.offset)
    }

    /// The next record has this LSN. Whether it goes on with its chains.
    pub fn add(&mut self, lsn: Lsn, record: &Record) -> Result<bool, AllocError> {
        if let Record::Checkpoint(_) = record {
            self.checkpoint = Some(lsn);
        }
        self.seen.records = self.seen.records.saturating_add(1);
        self.seen.last = lsn;
        self.chains.add(lsn, record)
    }

    /// The block ends, whose records were added. Its Checkpoint has to be the last one.
    pub fn end(&mut self, block: &Block) -> Result<(), Halt> {
        let right = match self.checkpoint {
            Some(checkpoint) => checkpoint == block.checkpoint,
            None => true,
        };
        if !right {
            return Err(self.bad_at(CHECKPOINT_AT as u64));
        }
        let size = PAYLOAD_AT as u64 + u64::from(block.length);
        self.offset = self.offset.saturating_add(size);
        self.seen.blocks = self.seen.blocks.saturating_add(1);
        Ok(())
    }

    /// The field at this byte of the next block breaks its rule.
    pub fn bad_at(&self, byte: u64) -> Halt {
        Halt::Block {
            block: self.seen.blocks,
            byte,
            at: self.place(),
        }
    }
}
