//! The log's layers on real bytes: records by their numbers (`log_manager`), a listing that goes on and comes back
//! (`log_index`), and what a log says from its last Checkpoint on (`log_analysis`).
//!
//! The crate has tests alone. They stand here and not in those crates, since a crate with tests is proved twice.
#![tactic(auto)]

#[cfg(test)]
mod disks;
#[cfg(test)]
mod listing;
#[cfg(test)]
mod payloads;
#[cfg(test)]
mod records;
#[cfg(test)]
mod spelled;
