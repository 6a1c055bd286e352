//! Laws of the losers of an opening log, in the life that goes on from it.
//!
//! A loser is a transaction that a stop left with open writes. In the next life it holds a lock on the key of each until
//! that write is undone. Nobody keeps these locks in a table: they are read off the listing of the log, which has the
//! open writes of each transaction. Several threads may be about to undo the same write, and all but one come late.
//!
//! The crate runs nothing. Each function is empty, and its contract is a law; the statements stand in `specs/`, and with
//! them what a table of losers has (`AreLosers`).
#![tactic(auto)]

ghost use Rattle.std.specs.Prelude.{List, Bool, ℕ};
ghost use Rattle.loser_laws.specs.Late.{EndedLaw, UndoneLaw};
ghost use Rattle.loser_laws.specs.Ways.{LeastLaw, WaysLaw};
ghost use Rattle.wal_record.specs.declared.entry.Entry.{Entry};
ghost use Rattle.wal_record.specs.declared.record.Record.{Record};
ghost use Rattle.wal_record.specs.declared.record.Undo.{Undo};

/// With what a lock conflicts: locks that were taken, and keys of losers' open writes. No loser is live.
pub fn ways_law()
    ensures { (opening : List Record) (history : List Entry) → WaysLaw opening history }
{}

/// The first loser in the list of which a test holds is the least one.
pub fn least_law()
    ensures { (log : List Record) (test : ℕ → Bool) → LeastLaw log test }
{}

/// An undo of a loser is timely exactly where the loser's last open write stands above the LSN that the undo names.
pub fn undone_law()
    ensures { (opening : List Record) (history : List Entry) (undo : Undo) → UndoneLaw opening history undo }
{}

/// A loser has its End where the life has entered it.
pub fn ended_law()
    ensures { (opening : List Record) (history : List Entry) (tx : ℕ) → EndedLaw opening history tx }
{}
