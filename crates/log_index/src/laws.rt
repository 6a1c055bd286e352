//! A law of what a listing notes.
ghost use Rattle.std.specs.Prelude.{List, ℕ};
ghost use Rattle.wal_record.specs.declared.record.Record.{Record};
ghost use Rattle.log_index.specs.Noted.{NotedLaw};

/// What was noted last of a transaction is its last record, as long as it isn't over.
pub fn noted_law()
    ensures { (log : List Record) (r : Record) (t : ℕ) → NotedLaw log r t }
{}
