//! The locks that the transactions of a life took and still hold: the part of legality that is about locks.
//!
//! A transaction keeps each lock until its commit or end. [`TakenLocks`] keeps, for each transaction, the list of its
//! locks, entry by entry; all of them go when it is over. It judges whatever comes, and so keeps locks as the history
//! has them, also where they conflict.
//!
//! `AreTaken history locks` (`specs/Taken`) says that they are those of this history. What is promised, for every history,
//! whether it is legal or not:
//!
//! 1. [`TakenLocks::covers`] and [`TakenLocks::covers_write`] are exact: whether one lock of the transaction includes a
//!    range, or lets it write a key.
//! 2. [`TakenLocks::first_in_way`] is the least other transaction with a conflicting lock, and none exactly where no other
//!    one has any.
//! 3. [`TakenLocks::note`] takes the next entry. Where memory runs out they are still those of the history before.
//!
//! The first two take a time by the number of locks of the one transaction, the third one by that of all held locks.
//! Locks of losers of the opening log aren't among them: nobody took these in this life.
#![tactic(auto)]

mod held;
mod taken;

pub use taken::TakenLocks;
