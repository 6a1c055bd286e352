//! Locks on ranges of keys, held by transactions until they end.
//!
//! Whoever reads a range must not meet keys that another transaction puts into it, or takes out, before the first one
//! ends. So locks stand on half-open ranges of keys, and not on keys that were found (Gray, Lorie, Putzolu and Traiger
//! 1976); a single key is the range from it up to the next possible key.
//!
//! The model is what is held: locks, each a transaction, a range and a mode (`specs/Lock`, `specs/Held`). What is
//! promised, in its words:
//!
//! 1. No two held locks conflict: ranges of different transactions that overlap are both shared.
//! 2. [`RangeLocks::acquire`] is refused exactly where another transaction's lock conflicts, and names the least such
//!    transaction, and of its conflicting ranges the one with the least low bound, then the least high bound.
//! 3. [`RangeLocks::covers`] and [`RangeLocks::holders`] are exact.
//! 4. [`RangeLocks::release_all`] leaves every lock of the others, and takes no memory.
//! 5. Where memory runs out, what is held stays as it was.
//!
//! Behind it, locks on single keys stand in ordered sets by key, so that a lock is found, taken and checked in a time that
//! is logarithmic in their number: for each mode one set for short keys, whose entries are small, and one for long ones.
//! For their release each transaction has the bytes of their keys, one key behind the other. The few locks on wider
//! ranges stand in a list for each transaction, and each check looks at all of them.
#![tactic(auto)]

mod entry;
mod holders;
mod key_list;
mod keys;
mod point;
mod point_locks;
mod point_set;
mod range_locks;
mod refusal;
mod release;
mod rival;
mod search;
mod wider;

pub use range_locks::RangeLocks;
pub use refusal::LockRefused;
