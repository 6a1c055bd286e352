//! The journal of one thread on a log disk in memory, through its traits.
//!
//! The crate has tests alone, since a crate with tests is proved a second time with them. Each plays a table of steps
//! (`journal_steps`) in a life that is opened from its log disk. What is expected was worked out by hand: each call's answer,
//! and the number of the entries behind it. No opening log is told.
#![tactic(auto)]

#[cfg(test)]
mod lives;
#[cfg(test)]
mod locks;
#[cfg(test)]
mod loser_lives;
#[cfg(test)]
mod tests;
#[cfg(test)]
mod writes;
