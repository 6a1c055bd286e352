//! Records of a block's payload.
ghost use Rattle.std.specs.Prelude.{◌≡◌, ◌≤◌, ◌<◌, ◌+◌, ◌++◌, ℕ, List, length, drop, IfErr, IfOk, OnErr, OnOk};
ghost use Rattle.std.specs.List.{All};
ghost use Rattle.store_model.specs.declared.fault.Fault.TheVariants as faults;
ghost use Rattle.wal_record.specs.Rules.{HasSpelling};
ghost use Rattle.wal_record.specs.declared.record.Record.{Record};
ghost use Rattle.wal_record.specs.Spelling.{spelling};
ghost use Rattle.log_manager.specs.Payload.{IsSurplus, NotRead, bytes_of};

use log_blocks::PAYLOAD_AT;
use record_codec::{RecordFault, decode};
use std::alloc::Global;
use store_model::Fault;
use wal_record::Record;

/// The record that begins at this byte of a payload, and the byte behind it. `block` is the number of the block.
pub fn record_from(
    alloc: Global,
    block: u64,
    payload: &[u8],
    at: usize,
) -> Result<(Record, usize), Fault>
    requires within { at ≤ length payload.now }
    ensures within { IfOk result (λ x. x.1 ≤ length payload.now) }
    ensures next { IfOk result (λ x. HasSpelling x.0 × (drop at payload.now ≡ spelling x.0 ++ drop x.1 payload.now)) }
    ensures only { (r : Record) (rest : List ℕ) → HasSpelling r → drop at payload.now ≡ spelling r ++ rest → IfOk result (λ x. x.0 ≡ r) × IfErr result (λ fault. fault ≡ faults.Memory) }
    ensures refused { (front : List Record) → All HasSpelling front → payload.now ≡ bytes_of front ++ drop at payload.now → IfErr result (NotRead block front payload.now) }
{
    let (_, rest) = payload.split_at(at);
    match decode(alloc, rest) {
        Ok((found, length)) => Ok((found, at + length)),
        Err(RecordFault::Memory) => Err(Fault::Memory),
        Err(RecordFault::Bad { byte }) => Err(Fault::LogBad {
            block,
            byte: (PAYLOAD_AT + at + byte) as u64,
        }),
    }
}

/// No byte stands behind this one, where the last record of a payload ends that its block counts. `block` is the number
/// of the block.
pub fn ends_at(block: u64, payload: &[u8], at: usize) -> Result<(), Fault>
    requires within { at ≤ length payload.now }
    ensures ok { OnOk result (at ≡ length payload.now) }
    ensures refused { OnErr result (at < length payload.now) }
    ensures surplus { (rs : List Record) → All HasSpelling rs → payload.now ≡ bytes_of rs ++ drop at payload.now → IfErr result (IsSurplus block rs payload.now) }
{
    if at < payload.len() {
        return Err(Fault::LogBad {
            block,
            byte: (PAYLOAD_AT + at) as u64,
        });
    }
    Ok(())
}
