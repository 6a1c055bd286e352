//! Laws of logs and of histories.
//!
//! The crate runs nothing. Each function is empty, and its contract is a law about the definitions of
//! wal_record; the statements stand in `specs/`. They hold of every log whose records are lawful one by
//! one, and of every legal history, with all kinds of records and entries in them.
#![tactic(auto)]

ghost use Rattle.std.specs.Prelude.{List, ℕ};
ghost use Rattle.wal_record.specs.declared.entry.Entry.{Entry};
ghost use Rattle.wal_record.specs.declared.record.Record.{Record};
ghost use Rattle.wal_record.specs.declared.record.Undo.{Undo};
ghost use Rattle.wal_record.specs.Left.{Life};
ghost use Rattle.log_laws.specs.Beginnings.{BeginningLaw, BeginningOfHistoryLaw, CommitsLaw, OwnWritesLaw, StructureLaw};
ghost use Rattle.log_laws.specs.Central.{CentralLaw, CentralLawOfLives};
ghost use Rattle.log_laws.specs.Left.{LeftLaw, LivesLaw};
ghost use Rattle.log_laws.specs.Locks.{EnteringLaw, HoldersLaw, LocksLaw, LoserLocksLaw};
ghost use Rattle.log_laws.specs.Phases.{LiveLaw, StepsLaw};
ghost use Rattle.log_laws.specs.Places.{PlacesLaw};
ghost use Rattle.log_laws.specs.Room.{PendingLaw, UndoRoomLaw};
ghost use Rattle.log_laws.specs.Serial.{SerialLaw};

/// The central law: the current contents at a key that no transaction has an open write of are the
/// committed ones; else they are what its writer's open writes make of these.
pub fn central_law()
    ensures { (log : List Record) → CentralLaw log }
{}

/// The same at every moment of a legal life.
pub fn central_law_of_lives()
    ensures { (opening : List Record) (history : List Entry) → CentralLawOfLives opening history }
{}

/// The serial law: the committed transactions of a legal history, run one after the other from the
/// committed contents of the opening log, have the replies that were said, and end in the committed
/// contents of the whole log.
pub fn serial_law()
    ensures { (opening : List Record) (history : List Entry) → SerialLaw opening history }
{}

/// What a stop leaves of a legal history's log has the first of its committed transactions, every
/// acknowledged one among them, and no other effect.
pub fn left_law()
    ensures { (opening : List Record) (history : List Entry) (own : List Record) → LeftLaw opening history own }
{}

/// Over any number of lives, each of which opens what the stop before it left, the committed
/// transactions that the stops left, run one after the other, make the committed contents of the last
/// log.
pub fn lives_law()
    ensures { (opening : List Record) (lives : List Life) → LivesLaw opening lives }
{}

/// A key that a transaction has locked for writing has no open write of another one, and a last open
/// write can be taken back.
pub fn entering_law()
    ensures { (opening : List Record) (history : List Entry) → EnteringLaw opening history }
{}

/// The locks on the keys of two losers' open writes don't conflict.
pub fn loser_locks_law()
    ensures { (log : List Record) → LoserLocksLaw log }
{}

/// A record changes the number of pending writes as it changes the open writes of its transaction.
pub fn pending_law()
    ensures { (log : List Record) (r : Record) → PendingLaw log r }
{}

/// An undo lowers the number of pending writes by one.
pub fn undo_room_law()
    ensures { (log : List Record) (u : Undo) → UndoRoomLaw log u }
{}

/// A transaction is live exactly where it was begun and has neither a commit nor an end.
pub fn live_law()
    ensures { (opening : List Record) (history : List Entry) → LiveLaw opening history }
{}

/// A committed transaction has no step after its commit.
pub fn steps_law()
    ensures { (opening : List Record) (history : List Entry) → StepsLaw opening history }
{}

/// No two transactions of a legal history hold conflicting locks, losers among them, and who has an
/// open write of a key has locked it.
pub fn locks_law()
    ensures { (opening : List Record) (history : List Entry) → LocksLaw opening history }
{}

/// A beginning of a lawful log is lawful; one of a sound log that has kept its room is sound. Page heads never fall.
pub fn beginning_law()
    ensures { (log rest : List Record) → BeginningLaw log rest }
{}

/// A beginning of a legal history is legal.
pub fn beginning_of_history_law()
    ensures { (opening : List Record) (history rest : List Entry) → BeginningOfHistoryLaw opening history rest }
{}

/// The open writes of a transaction are among its records.
pub fn own_writes_law()
    ensures { (log : List Record) (tx : ℕ) → OwnWritesLaw log tx }
{}

/// Only a commit changes the committed contents.
pub fn commits_law()
    ensures { (log : List Record) (r : Record) → CommitsLaw log r }
{}

/// A record that names no transaction, as one of the tree or of upkeep, changes neither the current nor
/// the committed contents, nor any open write.
pub fn structure_law()
    ensures { (log : List Record) (r : Record) → StructureLaw log r }
{}

/// Who holds a lock is live, or a loser of the opening log.
pub fn holders_law()
    ensures { (opening : List Record) (history : List Entry) → HoldersLaw opening history }
{}

/// The open writes of a transaction in short tell the LSN and the key of each one.
pub fn places_law()
    ensures { (log : List Record) (tx : ℕ) → PlacesLaw log tx }
{}
