//! Which records have a spelling.
//!
//! A record stands in a log only where its fields keep their rules: numbers in their ranges, texts and lists no longer than
//! their limits, a state that keeps the rules of a state. Whoever reads records from bytes knows that by the reading. Whoever is
//! handed a record as a value asks [`has_spelling`], which is exact for every kind but a Checkpoint: of those a log takes one
//! alone, the one that its listing makes, and whoever has the listing compares.
//!
//! [`keeps_state`] is the same test of a page's state.
#![tactic(auto)]

mod backup;
mod bytes;
mod fields;
mod forms;

pub use bytes::keeps_state;
pub use forms::has_spelling;
