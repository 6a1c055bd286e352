//! What is counted of the blocks in memory, so that a Commit can't be refused.
ghost use Rattle.std.specs.Prelude.{◌≡◌, ◌≤◌, ◌<◌, ◌+◌, ◌^◌, true};

use log_blocks::{MOST_BYTES, PAYLOAD_AT};
use store_model::Lsn;

/// LSNs and offsets stay below this: beyond it a record is want of memory.
const LIMIT: u64 = 1 << 62;

/// The bytes that a Commit takes at most: it may begin a block.
pub const COMMIT: u64 = 40;

#[derive(Drop)]
pub struct Counted {
    /// How many records there are.
    pub records: u64,
    /// At most how many bytes they and the commits to come take on the disk.
    pub bytes: u64,
    /// The LSN of the last Checkpoint.
    pub checkpoint: Lsn,
}

impl Counted {
    /// Whether so many records more, and so many bytes of them, pass no limit behind a log that ends at an LSN and an
    /// offset, with so many commits to come.
    pub fn has_room(&self, next: Lsn, end: u64, spare: usize, count: u64, size: u64) -> bool
        requires counted { (self.now.records + spare ≤ 2 ^ 62) × (self.now.bytes ≤ 2 ^ 62) }
        requires few { (count ≤ 3) × (size ≤ MOST_BYTES) }
        ensures { (result ≡ true) → (next + self.now.records + spare + count ≤ 2 ^ 62) × (end + self.now.bytes + size + PAYLOAD_AT < 2 ^ 62) }
    {
        next < LIMIT
            && end < LIMIT
            && next + self.records + spare as u64 + count <= LIMIT
            && end + self.bytes + size + (PAYLOAD_AT as u64) < LIMIT
    }

    /// Records have joined, the last Checkpoint being at this LSN.
    pub fn add(&mut self, count: u64, size: u64, checkpoint: Lsn)
        requires { (self.old.records + count < 2 ^ 64) × (self.old.bytes + size + PAYLOAD_AT < 2 ^ 64) }
        ensures { self.new ≡ record { records = self.old.records + count; bytes = self.old.bytes + size + PAYLOAD_AT; checkpoint = checkpoint } }
    {
        self.records += count;
        self.bytes += size + PAYLOAD_AT as u64;
        self.checkpoint = checkpoint;
    }
}
