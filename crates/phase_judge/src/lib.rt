//! Where the transactions of a life stand, and which session began which: the part of legality that needs no log.
//!
//! Which entry may come next in a life's history depends, for one part, on its transactions alone: whether one is live
//! or committed, who began it, how many are live, and which number is next. [`Phases`] keeps this entry by entry, so
//! that no question goes through the history: two ordered maps, one by transaction and one by session.
//!
//! `ArePhasesOf opening history phases` (`specs/Phases`) says that they are those of this history behind this opening
//! log. What is promised, for every legal history:
//!
//! 1. [`Phases::is_live`], [`Phases::is_committed`] and [`Phases::is_owner`] are exact; so is [`Phases::may_begin`],
//!    wherever no write waits to be told.
//! 2. [`Phases::note`] takes the next legal entry. Where memory runs out they are still those of the history before.
//!
//! Each call takes a time that is logarithmic in the number of transactions and sessions.
#![tactic(auto)]

mod phases;
mod stage;

pub use phases::Phases;
pub use stage::Stage;
