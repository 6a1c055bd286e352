//! Devices in memory, which tell what they hold.
//!
//! Each keeps the contract of its trait, with the clauses on content and on crashes as theorems, and takes a list of
//! the numbers of the calls that are to fail, counted from 1. A call that runs out of memory fails too. Where memory
//! is ample, a device with an empty list never fails. Round one of these, [`NeverFails`] promises so by its type.
#![tactic(auto)]

mod copy;
mod disk;
mod faults;
mod history;
mod pages;
mod sink;
mod source;
mod vault;

pub use disk::MemDisk;
pub use media::NeverFails;
pub use pages::MemPages;
pub use sink::MemSink;
pub use source::MemSource;
pub use vault::{MemVault, State};
