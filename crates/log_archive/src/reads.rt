//! The records of a log, one by one.
ghost use Rattle.std.specs.Prelude.{◌≡◌, ◌↔◌, ◌-◌, ◌^◌, ◌≤◌, ℕ, List, Option, Some, length, min, IfOk, IfErr, IfSome};
ghost use Rattle.wal_record.specs.Chains.{record_with};
ghost use Rattle.wal_record.specs.Rules.{HasSpelling};
ghost use Rattle.wal_record.specs.declared.record.Record.{Record};
ghost use Rattle.log_archive.specs.Reads.{FailsToRead, IsUnknown, SaysEnd};

use std::alloc::Global;
use std::sync::Wait;
use store_model::{Fault, Lsn};
use wal_record::Record;

/// The records of a log by their LSNs, for an archive. One that the log keeps no more wants memory.
pub trait Reads {
    /// The logs by which it answers.
    ghost answers: { Self → List Record → Type 0 };

    /// How many faults of the log disk came at device calls made through it.
    ghost log_faults: { Self → ℕ };

    /// How many faults of the vault came at device calls made through it.
    ghost vault_faults: { Self → ℕ };

    /// The LSN up to which the log was durable when the life ended, where that is known.
    ghost ended: { Self → Option ℕ };

    /// How many faults of the log disk came at device calls made through it.
    fn log_faults(&self) -> u64
        ensures { result ≡ min (log_faults self.now) (2 ^ 64 - 1) };

    /// How many faults of the vault came at device calls made through it.
    fn vault_faults(&self) -> u64
        ensures { result ≡ min (vault_faults self.now) (2 ^ 64 - 1) };

    /// The record of an LSN.
    fn read<W: Wait>(&mut self, rt: &W, alloc: Global, lsn: Lsn) -> Result<Record, Fault>
        requires there { (log : List Record) → answers self.old log → (1 ≤ lsn) × (lsn ≤ length log) }
        ensures found { (log : List Record) → answers self.old log → IfOk result (λ r. record_with log lsn ≡ Some r) }
        ensures spelling { IfOk result HasSpelling }
        ensures answers { (log : List Record) → answers self.old log ↔ answers self.new log }
        ensures later { (log_faults self.old ≤ log_faults self.new) × (vault_faults self.old ≤ vault_faults self.new) }
        ensures ended { IfSome (ended self.old) (λ at. (ended self.new ≡ Some at) × SaysEnd at result) }
        ensures refused { IfErr result (FailsToRead (IsUnknown (answers self.old)) (log_faults self.old) (log_faults self.new) (ended self.new)) };
}
