//! Whole scripts.
//!
//! The crate has tests alone. They run scripts on devices in memory: worked ones of one transaction and of several, of lives
//! that follow each other, of trees, of pages on the data device and of its loss, of backups, of help and of refusals, random
//! ones beside an ordered map, and a small example of a bank. What they expect is written down beside the scripts. They stand
//! in a crate of their own, since a crate with tests is proved a second time with them.
#![tactic(auto)]

#[cfg(test)]
mod bank;
#[cfg(test)]
mod devices;
#[cfg(test)]
mod helping;
#[cfg(test)]
mod losses;
#[cfg(test)]
mod random;
#[cfg(test)]
mod refusals;
#[cfg(test)]
mod restarts;
#[cfg(test)]
mod schedules;
#[cfg(test)]
mod scripts;
#[cfg(test)]
mod storing;
#[cfg(test)]
mod trees;
