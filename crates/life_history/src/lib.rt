//! The history of a life as the journal keeps it: who began what, how many entries each session has, and the books.
//!
//! A journal keeps three things together: the records of the log, the locks, and the history. This crate has the last.
//! [`History`] adds entries, raises the rights of pages and sessions with them, and counts them in the ledgers. It knows
//! no record's meaning and no lock: who calls it has seen that the entries are legal there, and says so.
//!
//! The model is the history itself, a list of entries. What holds of it whenever a call ends is `IsKept` (`specs/Kept`):
//! the history is consistent for every log with which the life may have begun, the books are those of the history, the
//! ledgers count its entries, and each transaction was begun once, by one session. What is promised:
//!
//! 1. [`History::see`] and its kin show a pass the whole history; the rights agree with it.
//! 2. [`History::session`] gives a session that nobody has yet, and [`History::begin`] the next transaction.
//! 3. [`History::enter_lock`], [`History::enter_refused`] and [`History::enter_declined`] add an entry of a session that is
//!    no record and moves no transaction. [`History::enter_group`] adds the records of a group and its answer, in one
//!    step: all rights are raised with them, and the right to a new page, which [`History::open_page`] gave, comes into its
//!    place.
//! 4. [`History::enter_commit`] adds a transaction's commit, and [`History::acknowledge`] that it is acknowledged, with
//!    which its session has no transaction any more. The room for both was made as it began.
//! 5. [`History::enter_repaired`] adds that a page was repaired, which is no session's entry. [`History::undone`] and
//!    [`History::repaired`] tell how many writes the life has undone and how many pages it has repaired.
//!
//! [`Counts`] are a thread's shares of the ledgers of its life, what it knows of the life's end, and how many faults of the
//! log disk it has counted.
#![tactic(auto)]

mod counts;
mod history;
mod raising;
mod stand;

pub use counts::Counts;
pub use history::{History, MOST_ENTRIES};
pub use raising::{head_after, names};
