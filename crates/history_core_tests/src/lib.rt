//! Histories audited entry by entry.
//!
//! The crate has tests alone, since a crate with tests is proved a second time with them. Each history is a text with what
//! the judge says of it, worked out by hand: it is legal as it stands, and the table beside it says where it is refused with
//! any one entry left out, with any two neighbours swapped, and with some entries changed. Those of `journal_locks`,
//! `journal_writes` and `journal_losers` are what the steps of journal_tests enter.
//!
//! Some damages are legal. The tables name them by a word:
//!
//! - `last`: what is left is the first part of a legal history;
//! - `told`: what is left out or added only tells what is so, and nothing behind it asks whether it was told;
//! - `unused`: nothing behind it needs the lock, or the End;
//! - `apart`: neither of the two needs the other one, or bars it;
//! - `either`: the entry in its place does the same for those behind it.
#![tactic(auto)]

#[cfg(test)]
mod audit;
#[cfg(test)]
mod fields;
#[cfg(test)]
mod journal_locks;
#[cfg(test)]
mod journal_losers;
#[cfg(test)]
mod journal_writes;
#[cfg(test)]
mod locks;
#[cfg(test)]
mod reading;
#[cfg(test)]
mod records;
#[cfg(test)]
mod splits;
#[cfg(test)]
mod tests;
#[cfg(test)]
mod transactions;
#[cfg(test)]
mod upkeep;
