//! What a log's backups are to whoever reads them.
//!
//! A repair or a restore begins at a page's last backup (Graefe and Kuno 2012). The law says what it will find there: the log
//! names an object whose bytes it determines, and in that object stands the page's image at the LSN that the log tells. So what
//! is read of an object that the log names (`named_objects`) is an image from which the page can be redone.
#![tactic(auto)]

ghost use Rattle.std.specs.Prelude.{ℕ, List};
ghost use Rattle.wal_record.specs.declared.record.Record.{Record};
ghost use Rattle.backup_laws.specs.Named.{BackupLaw};

/// The last backup of a page is an object that the log names, in which the page's image stands.
pub fn backup_law()
    ensures { (log : List Record) (p : ℕ) → BackupLaw log p }
{}
