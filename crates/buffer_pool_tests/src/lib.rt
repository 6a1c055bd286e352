//! The pool of one thread over a data device in memory: which images it takes, what it rebuilds, and what it drops.
//!
//! The crate has tests alone. Its journal tells the ends of one page's traces, and its supply rebuilds an empty leaf. It
//! stands in a crate of its own, since a crate with tests is proved a second time with them.
#![tactic(auto)]

#[cfg(test)]
mod life;
#[cfg(test)]
mod refused;
#[cfg(test)]
mod supply;
#[cfg(test)]
mod telling;
#[cfg(test)]
mod tests;
