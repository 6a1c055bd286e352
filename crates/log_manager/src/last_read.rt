//! The payload that was read last, with the places of its records.
//!
//! Who undoes or repairs reads records backwards. Of a block that is read so, the payload is kept, and where its records
//! begin is noted once: each of them is decoded twice at most.
ghost use Rattle.std.specs.Prelude.{◌≡◌, ◌↔◌, ◌≤◌, ◌<◌, ◌-◌, ℕ, List, length, IfErr, IfOk, true};
ghost use Rattle.std.specs.List.{All};
ghost use Rattle.store_model.specs.declared.fault.Fault.TheVariants as faults;
ghost use Rattle.wal_record.specs.Rules.{HasSpelling};
ghost use Rattle.wal_record.specs.declared.record.Record.{Record};
ghost use Rattle.log_manager.specs.LastRead.{AreStarts, IsStart, IsWithin};
ghost use Rattle.log_manager.specs.Managed.{IsAt, IsReadAt, IsUnreadAt};
ghost use Rattle.log_manager.specs.Payload.{bytes_of};

use crate::reading::record_from;
use std::alloc::Global;
use std::marker::Model;
use store_model::{Fault, Lsn, Memory};
use wal_record::Record;

/// The payload of a block.
#[derive(Drop)]
pub struct LastRead {
    /// The number of the block.
    block: u64,
    /// The LSN of its first record, and that behind its last.
    first: Lsn,
    behind: Lsn,
    payload: Vec<u8>,
    /// Where its records begin, the first ones in order.
    starts: Vec<usize>,
}

impl Model for LastRead {
    ghost use Rattle.std.specs.Prelude.{◌<◌, length};
    ghost use Rattle.log_manager.specs.LastRead.{AreStarts, ReadBlock};

    ghost Value = { ReadBlock };

    ghost view = { λ r. record { block = r.block; first = r.first; behind = r.behind; payload = r.payload.items } };

    ghost invariant = { λ r. (0 < length r.starts.items) × AreStarts r.payload.items r.starts.items };
}

impl LastRead {
    /// The payload of the block with this number, of which no record was decoded yet.
    pub fn new(
        alloc: Global,
        block: u64,
        first: Lsn,
        behind: Lsn,
        payload: Vec<u8>,
    ) -> Result<LastRead, Memory>
        ensures { IfOk result (λ r. r ≡ record { block = block; first = first; behind = behind; payload = payload.items }) }
    {
        let mut starts = Vec::new(alloc);
        starts.push(0)?;
        Ok(LastRead {
            block,
            first,
            behind,
            payload,
            starts,
        })
    }

    /// Whether the block has the record of this LSN.
    pub fn has(&self, lsn: Lsn) -> bool
        ensures { (result ≡ true) ↔ IsWithin self.now lsn }
    {
        self.first <= lsn && lsn < self.behind
    }

    /// The record of this LSN.
    pub fn record(&mut self, alloc: Global, lsn: Lsn) -> Result<Record, Fault>
        requires { self.old.first ≤ lsn }
        ensures same { self.new ≡ self.old }
        ensures found { (rs : List Record) → All HasSpelling rs → self.old.payload ≡ bytes_of rs → lsn - self.old.first < length rs → IfOk result (IsAt rs (lsn - self.old.first)) × IfErr result (λ fault. fault ≡ faults.Memory) }
        ensures read { IfOk result (IsReadAt self.old.payload (lsn - self.old.first)) }
        ensures spelling { IfOk result HasSpelling }
        ensures refused { IfErr result (IsUnreadAt self.old.block self.old.payload (lsn - self.old.first)) }
    {
        let place = lsn - self.first;
        let at = start_of(alloc, self.block, &self.payload, &mut self.starts, place)?;
        match record_from(alloc, self.block, &self.payload, at) {
            Ok((found, _)) => Ok(found),
            Err(fault) => Err(fault),
        }
    }
}

/// Where the record at this place of a payload begins. What wasn't noted yet is found from the last one on that was.
fn start_of(
    alloc: Global,
    block: u64,
    payload: &[u8],
    starts: &mut Vec<usize>,
    place: u64,
) -> Result<usize, Fault>
    requires some { 0 < length starts.old.items }
    requires starts { AreStarts payload.now starts.old.items }
    ensures some { 0 < length starts.new.items }
    ensures starts { AreStarts payload.now starts.new.items }
    ensures start { IfOk result (IsStart payload.now place) }
    ensures found { (rs : List Record) → All HasSpelling rs → payload.now ≡ bytes_of rs → place < length rs → IfErr result (λ fault. fault ≡ faults.Memory) }
    ensures refused { IfErr result (IsUnreadAt block payload.now place) }
{
    let known = starts.len() - 1;
    let mut at = starts[known];
    for _ in known as u64..place {
        match record_from(alloc, block, payload, at) {
            Ok((_, next)) => at = next,
            Err(fault) => return Err(fault),
        }
        starts.push(at)?;
    }
    Ok(starts[place as usize])
}
