//! Archive runs on a vault in memory: the bytes of a run, which byte of a faulty one is named, and which calls a fuse may
//! refuse.
//!
//! The crate has tests alone. The object and the tables were written by another program from the table of fields.
#![tactic(auto)]

#[cfg(test)]
mod records;
#[cfg(test)]
mod runs;
#[cfg(test)]
mod tables;
