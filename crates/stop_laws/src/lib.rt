//! Laws of what a stop leaves on the disk of a log.
//!
//! A crash leaves a beginning of the log: the records that were durable, and some of those that waited, whole groups of them
//! in order. Old records were forgotten. `specs/Stops` says what has to hold of the log for such a beginning to be one that a
//! stop may leave of the life, and that the next life can open it: the opening log and each acknowledged commit are durable
//! (`IsSafe`), the store has its room wherever a group ends (`WaitsInGroups`), and what was forgotten is needed by no opening.
//! `LeavesLife` is what follows: whatever the disk keeps now or after a crash stands for such a log. The lemmas that carry
//! these over the calls of a log stand in `proofs/`.
//!
//! The crate runs nothing. Each function is empty, and its contract is a law.
#![tactic(auto)]

ghost use Rattle.std.specs.Prelude.{List, ℕ};
ghost use Rattle.wal_record.specs.declared.record.Record.{Record};
ghost use Rattle.stop_laws.specs.Laws.{EnoughLaw};

/// What is enough of a log for an opening is enough of a longer one; and the records from the recycle point on are enough.
pub fn enough_law()
    ensures { (log : List Record) (first : ℕ) → EnoughLaw log first }
{}
