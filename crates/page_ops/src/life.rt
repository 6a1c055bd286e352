//! The name of a life.
use books::BookNames;
use front::CountName;
use std::marker::Brand;

/// Names a life. The one call that splits what the life is made from picks the names.
pub trait Life: CountName + BookNames {
    ghost use Rattle.std.specs.Prelude.{ℕ, List};
    ghost use Rattle.page_ops.specs.Names.{LedgerName};
    ghost use Rattle.wal_record.specs.declared.record.Record.{Record};

    /// The logs with which the life may have begun: those for which its devices stood.
    ghost opens: { List Record → Type 0 };

    /// The ledger of all entries of the history.
    ghost entries: { LedgerName };

    /// The ledger of those entries that belong to a session.
    ghost session_entries: { LedgerName };

    /// The ledger of the log disk's faults in this life.
    ghost log_faults: { LedgerName };

    /// The ledger of the vault's faults in this life.
    ghost vault_faults: { LedgerName };

    /// The ledger of the data device's faults in this life.
    ghost data_faults: { LedgerName };

    /// The ledger of the sessions and desks that were made.
    ghost made: { LedgerName };

    /// The log disk's count of faults when the life began.
    ghost log_faults_before: { ℕ };

    /// The vault's count of faults when the life began.
    ghost vault_faults_before: { ℕ };

    /// The data device's count of faults when the life began.
    ghost data_faults_before: { ℕ };
}

impl Life for Brand {
    ghost use Rattle.page_ops.specs.Names.{no_ledger};

    ghost opens = { λ _. Unit {0} };

    ghost entries = { no_ledger };

    ghost session_entries = { no_ledger };

    ghost log_faults = { no_ledger };

    ghost vault_faults = { no_ledger };

    ghost data_faults = { no_ledger };

    ghost made = { no_ledger };

    ghost log_faults_before = { 0 };

    ghost vault_faults_before = { 0 };

    ghost data_faults_before = { 0 };
}
