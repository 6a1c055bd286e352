//! Undo through the tree: the open writes of a transaction are taken back, last one first, each on the leaf that has its
//! key now (Mohan et al. 1992).
//!
//! A write is undone by key and not by page, since its row may have moved to another leaf by then. Each step finds the last
//! open write, descends to its leaf, and enters an Undo that gives the key the value that the write found. It stands over
//! the traits alone. What is promised, for live transactions and for losers of the opening log alike:
//!
//! 1. [`undo_one`] undoes one write, the last open one (`undone`, `gains`), and tells where its Undo stands. It says that
//!    there is none exactly where the transaction has no open write left. It is never refused for want of room
//!    (`refused`): what a write took was left for its undo.
//! 2. [`end`] enters the End of a transaction that has no open write left.
//! 3. [`roll_back`] and [`undo_loser`] do the one until there is nothing left, and then the other. Where they are refused
//!    what was undone stays so, and they may be called again (`owner`).
//!
//! A live transaction is undone by the right to its session, a loser by none. Two threads may undo a loser, each a part of
//! it: who comes late finds the next write, or the End, of the other. No page is held behind a call and no frame reserved.
#![tactic(auto)]

mod ending;
mod owner;
mod rolling;
mod taking_back;
mod undid;
mod undoing;

pub use ending::end;
pub use rolling::{roll_back, undo_loser};
pub use undid::Undid;
pub use undoing::undo_one;
