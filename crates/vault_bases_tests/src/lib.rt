//! Bases from a vault in memory: where a page's image stands in an object, which record is taken from an archive run, which
//! objects are bad, and that faults are counted.
//!
//! The crate has tests alone, since a crate with tests is proved a second time with them. Its journal tells what last backup
//! each page has, and which records a run has; no opening log is known, so any bytes may stand for an object. What is expected
//! was worked out by hand from the tables of objects' fields.
#![tactic(auto)]

#[cfg(test)]
mod bases;
#[cfg(test)]
mod life;
#[cfg(test)]
mod objects;
#[cfg(test)]
mod runs;
#[cfg(test)]
mod telling;
