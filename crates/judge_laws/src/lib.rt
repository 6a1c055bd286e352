//! Laws by which a judge of histories keeps less than the definitions speak of.
//!
//! The definitions of a legal history speak of every other transaction and of all that a log ever said. A judge keeps the
//! locks that were taken, the losers of the opening log, and a listing of the log. The laws say that these tell the same.
//!
//! The crate runs nothing. Each function is empty, and its contract is a law; the statements stand in `specs/`.
#![tactic(auto)]

ghost use Rattle.std.specs.Prelude.{List};
ghost use Rattle.wal_record.specs.declared.entry.Entry.{Entry};
ghost use Rattle.wal_record.specs.declared.record.Record.{Record};
ghost use Rattle.judge_laws.specs.Locks.{LockLaw, OwnLaw, RefuseLaw};

/// A transaction that a session began, and every live one, holds the locks that it took, and no others.
pub fn own_law()
    ensures { (opening : List Record) (history : List Entry) → OwnLaw opening history }
{}

/// A live transaction may lock a range exactly where no other one took a lock in conflict, and no loser of the opening log
/// has an open write of a key in the range.
pub fn lock_law()
    ensures { (opening : List Record) (history : List Entry) → LockLaw opening history }
{}

/// A live transaction may be refused a range exactly where the named one is the least other that took a lock in conflict.
pub fn refuse_law()
    ensures { (opening : List Record) (history : List Entry) → RefuseLaw opening history }
{}
