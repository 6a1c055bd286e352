//! How the devices in memory behave, and which of their calls a fuse counts.
//!
//! The crate has tests alone, of what no clause of `media` and `media_mem` says: which bytes are kept, which calls fail.
#![tactic(auto)]

#[cfg(test)]
mod disks;
#[cfg(test)]
mod faults;
#[cfg(test)]
mod fuses;
#[cfg(test)]
mod pages;
#[cfg(test)]
mod vaults;
