//! What a log on a disk in memory finds after a crash, how a bad log is named, and what the calls cost the disk.
//!
//! The crate has tests alone, and the disk that they count by: they show on real bytes what the contracts of
//! `log_blocks` say of every disk, and the counts of device calls, of which no contract speaks.
#![tactic(auto)]

#[cfg(test)]
mod costs;
#[cfg(test)]
mod crashes;
#[cfg(test)]
mod ending;
#[cfg(test)]
mod fixture;
#[cfg(test)]
mod laying;
mod metered;
#[cfg(test)]
mod strangers;

pub use metered::Metered;
