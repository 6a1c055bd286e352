//! Where the transactions of a log stand: the part of a lawful record that is about its transaction.
//!
//! Whether a record may stand next depends, for one part, on its transaction alone: which record of it was the last, whether
//! it has a Commit or an End, which of its writes are open, and whether another transaction has an open write of the same
//! key. [`Chains`] keeps this record by record: an ordered map of those that are under way, with the open writes of each, and
//! the numbers of those that are over.
//!
//! `AreChainsOf log chains` (`specs/Chains`) says that they are those of these records. What is promised, of every log,
//! lawful or not:
//!
//! 1. [`Chains::is_linked`], [`Chains::is_alone`], [`Chains::takes_back`] and [`Chains::has_open`] are exact, and
//!    [`Chains::open_count`] is the number of open writes.
//! 2. [`Chains::note`] takes the next record, for which [`Chains::prepare`] made room. Noting takes no memory and can't fail.
//!
//! Each call but one takes a time that is logarithmic in the number of transactions; `is_alone` goes through the open writes of
//! all that are under way.
#![tactic(auto)]

mod chain;
mod chains;

pub use chains::Chains;
