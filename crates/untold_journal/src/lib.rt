//! A history of which no opening log is known and in which nobody has a session, for tests of what keeps pages up.
//!
//! Only what that enters is added: that a page was written or repaired, that a segment was restored ([`Untold`]). Since no opening
//! log is known, a journal over it may tell anything of the log, and its tests say what their journal tells. [`alone_in`] gives the
//! entry of a group that has one such record alone.
#![tactic(auto)]

mod counts;
mod untold;

pub use counts::Counts;
pub use untold::{Untold, alone_in};
