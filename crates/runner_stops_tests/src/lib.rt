//! What runs leave whose log disk refuses a call, or whose machine stops.
//!
//! The crate has tests alone. A fuse blows at each call of a commit and of a format, and a stop keeps each number of bytes; it
//! blows at each call of lives with a split, an abort and losers, of those that undo them, and of one with a vault, in which the
//! vault and the data device fail at each of their calls, too. What the next life finds is
//! written down beside the scripts.
#![tactic(auto)]

#[cfg(test)]
mod commits;
#[cfg(test)]
mod cuts;
#[cfg(test)]
mod formats;
#[cfg(test)]
mod vaults;
