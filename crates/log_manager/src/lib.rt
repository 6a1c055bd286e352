//! The log as a list of records.
//!
//! The layer below keeps blocks; whoever repairs, restarts or undoes reads records by their LSN, and a transaction's
//! commit must not fail for want of memory. A [`LogManager`] is the list of the records that its blocks hold
//! (`specs/Records`): the stable ones on the disk, and those that wait for a flush. An LSN is a record's number from 1
//! on, without gaps.
//!
//! It promises that
//!
//! - a group of one to three records joins the list at its end and stays in one block, so a crash leaves it whole or
//!   not at all; a Commit joins without memory, where room was reserved for it;
//! - after `flush_to` all records up to that LSN are stable, and at every moment of it a crash leaves the records that
//!   were stable before, then some of the waiting ones in order (write-ahead logging; Mohan et al. 1992);
//! - `read` gives the record of an LSN, and a block that doesn't hold records is named with the byte of its first
//!   fault;
//! - `recycle_to` forgets whole blocks from the front, never the last one.
#![tactic(auto)]

mod counted;
mod last_read;
mod laws;
mod manager;
mod reading;
mod spelling;

pub use laws::groups_law;
pub use manager::LogManager;
pub use reading::{ends_at, record_from};
