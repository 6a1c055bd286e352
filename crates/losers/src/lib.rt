//! The losers of the log that a life began with.
//!
//! A loser is a transaction that has open writes where a log ends. The life that goes on from there takes these writes
//! back, one by one from the last on, and then ends the loser; several threads may be about to do so at once (Sauer,
//! Graefe and Härder, *Instant restore after a media failure*, 2017, of undo on demand). So whoever comes is told whether
//! another one came first, and where that stands.
//!
//! [`Losers`] keeps of each loser where its last Undo or End stands, and whether it has its End. The model is the list of
//! the losers in the order in which they were handed in, by rising number. All memory is taken as it is made. Each call
//! goes through the list once.
#![tactic(auto)]

mod losers;

pub use losers::{LoserState, Losers};
