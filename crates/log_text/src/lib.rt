//! Logs as texts, and disks in memory that hold them: for tests of whatever reads a log.
//!
//! Each line of a text is a block of the log, and a stroke parts the records in it. A record is spelled word by word: its
//! kind, then its fields, each as a number in so many bytes, as the LSN of a record of the same text, or as bytes. So the
//! bytes are made without any part of the codecs that are under test. The records have the LSNs from 1 on; a Checkpoint may
//! be left out, or what stands before it overwritten ([`Given`]).
//!
//! A text that isn't so gives nothing, as want of memory does. No more is promised.
#![tactic(auto)]

mod disk;
mod spelled;

pub use disk::{Given, disk_of};
pub use spelled::lsn_of;
