//! The records of a page, one by one.
ghost use Rattle.std.specs.Prelude.{◌≡◌, ◌↔◌, ◌+◌, ◌-◌, ◌^◌, ◌≤◌, ℕ, List, Option, Some, min, IsTrue, IfOk, IfErr, IfSome, OnOk};
ghost use Rattle.wal_record.specs.Chains.{names_at, record_with};
ghost use Rattle.wal_record.specs.Rules.{HasSpelling};
ghost use Rattle.wal_record.specs.State.{KeepsState};
ghost use Rattle.wal_record.specs.Upkeep.{page_backup};
ghost use Rattle.wal_record.specs.declared.record.Record.{Record};
ghost use Rattle.page_ops.specs.Desks.{Faults, KeepsFaults};
ghost use Rattle.page_repair.specs.Chains.{FailsAtVault, FailsToFollow, IsBackup, IsUnknown, SaysEnd};

use page_image::Sealed;
use std::alloc::Global;
use std::sync::Wait;
use store_model::{Fault, Lsn, PageNo};
use wal_record::Record;

/// The records of pages by their LSNs, and the images of pages in backups.
pub trait Chain {
    /// The logs by which it answers.
    ghost answers: { Self → List Record → Type 0 };

    /// How many records were asked for.
    ghost calls: { Self → ℕ };

    /// How many faults of the log disk and of the vault came at device calls made through it.
    ghost faults: { Self → Faults };

    /// The LSN up to which the log was durable when the life ended, where that is known.
    ghost ended: { Self → Option ℕ };

    /// How many records were asked for.
    fn calls(&self) -> u64
        ensures { result ≡ min (calls self.now) (2 ^ 64 - 1) };

    /// How many faults of the log disk came at device calls made through it.
    fn log_faults(&self) -> u64
        ensures { result ≡ min (faults self.now).log (2 ^ 64 - 1) };

    /// How many faults of the vault came at device calls made through it.
    fn vault_faults(&self) -> u64
        ensures { result ≡ min (faults self.now).vault (2 ^ 64 - 1) };

    /// The record of an LSN, which names the page. It is in the log, or in an archive run.
    fn record_at<R: Wait>(
        &mut self,
        rt: &R,
        alloc: Global,
        page: PageNo,
        lsn: Lsn,
    ) -> Result<Record, Fault>
        requires named { (log : List Record) → answers self.old log → IsTrue (names_at log lsn page) }
        ensures found { (log : List Record) → answers self.old log → IfOk result (λ r. record_with log lsn ≡ Some r) }
        ensures spelling { IfOk result HasSpelling }
        ensures answers { (log : List Record) → answers self.old log ↔ answers self.new log }
        ensures counted { calls self.new ≡ calls self.old + 1 }
        ensures faults { KeepsFaults (faults self.old) (faults self.new) }
        ensures ended { IfSome (ended self.old) (λ at. (ended self.new ≡ Some at) × SaysEnd at result) }
        ensures refused { IfErr result (FailsToFollow (IsUnknown (answers self.old)) (faults self.old) (faults self.new) (ended self.new)) };

    /// The page as this backup has it, its last one.
    fn backup_of<R: Wait>(
        &mut self,
        rt: &R,
        alloc: Global,
        page: PageNo,
        backup: u64,
    ) -> Result<Sealed, Fault>
        requires last { (log : List Record) → answers self.old log → (1 ≤ backup) × (backup ≡ (page_backup log page).backup) }
        ensures found { (log : List Record) → answers self.old log → IfOk result (IsBackup log page) }
        ensures keeps { IfOk result (λ x. KeepsState x.state) }
        ensures answers { (log : List Record) → answers self.old log ↔ answers self.new log }
        ensures counted { calls self.new ≡ calls self.old }
        ensures faults { KeepsFaults (faults self.old) (faults self.new) }
        ensures ended { ended self.new ≡ ended self.old }
        ensures refused { IfErr result (FailsAtVault (IsUnknown (answers self.old)) (faults self.old) (faults self.new)) };
}
