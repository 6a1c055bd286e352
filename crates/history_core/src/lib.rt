//! A judge of the entries of a life's history.
//!
//! A history is legal where each entry is allowed after those before it, by what the opening log and the history say.
//! [`Judge`] keeps what it needs of them: the phases of transactions, the locks that they took, the judge of the log, the
//! losers of the opening log, and what the last entry asks of the next one. So no answer goes through the history.
//!
//! `IsJudgeOf opening history judge` (`specs/Judging`) says that the judge has come to the end of this legal history.
//! What is promised:
//!
//! 1. [`Judge::start`] reads an opening log once. Where the log is lawful it is the judge of the empty history behind it, and
//!    else there is none.
//! 2. [`Judge::step`] is exact for every entry, records among them: it goes on where the entry is legal there, and else
//!    changes nothing. So a history is legal exactly where each of its entries is taken in turn. Where memory runs out, the
//!    judge stays where it was.
//!
//! Whether a record is lawful is record_judge's to say. Here stand the rules of a life: phases, locks, replies, and what the
//! last entry asks of the next one, as the write that a leaf was split for.
#![tactic(auto)]

mod entering;
mod judge;
mod locking;
mod noting;
mod refusing;
mod replying;
mod starting;
mod tests_of;

pub use judge::Judge;
