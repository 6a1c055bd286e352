//! What stands between the tree, the pools and the journal: what names a life, pages in hand and the rights to them, and
//! the traits by which each thread of a life works.
//!
//! A life of the store is what happens from an opening to the next stop or close. [`Life`] names one in a type: its
//! count and its books, the ledgers that count its entries and the faults of its devices, and the logs with which it
//! may have begun. It has ghost members alone, so it costs nothing. Every token of a life, and every value that holds
//! one, has that type parameter. A lock round such a value still tells which life it is of.
//!
//! - [`Unnamed`] is what a life is made from, before it has a name: a count, a shelf and six blank ledgers.
//! - [`Unnamed::split`] makes of it the [`Ground`], which has the words that threads share, and the [`Tokens`]: the
//!   front, the mark, a first pass, the three books and the six ledgers. The call that splits it picks the names from
//!   what it splits, so no two lives share a count, a book or a ledger.
//! - [`Held`] is a page in somebody's hand, with the one right to it. [`Rights`] are what a call of the journal is handed.
//! - [`Entering`] and [`Journaling`] are a thread's way to the journal, [`Pages`] is its way to the pages of a pool. Each
//!   has the same contract whether one thread owns what lies behind it or threads share it under a lock.
//!
//! A ledger counts in two ways: a book, which lies where it is locked, and shares, which callers hold. The book's
//! total is the sum of the shares' amounts, so whoever holds all parts of a ledger knows its total.
//!
//! The model of a call is what its caller knows (`specs/Seeing`): what its pass has seen of the history, what its rights
//! claim, and its shares of the ledgers. What several calls enter together is `specs/Gains`. What is promised:
//!
//! 1. Each call of the journal is one hold of its lock. It finds the history at some moment, adds exactly the entries that
//!    its answer names, and shows the pass the whole history (`Enters`). The durable number that the pass has seen never
//!    falls; a flush, a recycling and a commit say how far it has risen.
//! 2. Then the history is legal, the log of the life sound, and no group is half entered (`IsConsistent`).
//! 3. The rights handed in agree with their books at that moment, and those handed back agree then (`Agree`). So what a
//!    right stands for, nobody else has changed since.
//! 4. A group is refused for want of room, for lateness and for the end of the life exactly where its answer says so
//!    (`specs/Outcomes`, `specs/Causes`).
//! 5. A page in hand is the image that the log makes of it, at its head (`IsInHand`). It is so after each later history with
//!    which its right agrees (`proofs/Staying`).
//! 6. Whoever holds all parts of the ledger of entries, and has seen what was entered, is alone: the history gains what it
//!    enters itself, and nothing else (`proofs/Alone`).
#![tactic(auto)]

mod entering;
mod ground;
mod group;
mod held;
mod journaling;
mod ledgers;
mod life;
mod outcome;
mod pages;
mod rights;
mod taken;
mod unnamed;

pub use entering::Entering;
pub use ground::Ground;
pub use group::{Group, Said};
pub use held::Held;
pub use journaling::Journaling;
pub use ledgers::{DataFaults, Entries, LogFaults, Made, NewLedger, SessionEntries, VaultFaults};
pub use life::Life;
pub use outcome::{Committed, Entered, Found, Grant, Listed, Survey, Work};
pub use pages::Pages;
pub use rights::Rights;
pub use taken::Taken;
pub use unnamed::{Tokens, Unnamed};
