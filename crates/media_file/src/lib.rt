//! Devices in the files of a folder, and standard streams as source and sink.
//!
//! The log stands in chunk files of 1 MiB, `log-0`, `log-1` and so on, by offset, and `log.start` has the offset of the
//! first kept byte. Page p stands in `pages.dat` from offset (p - 1) * 4,096 on. Objects of the vault stand in the folder
//! `vault`, as `run-ID` and `bak-ID-PART`.
//!
//! A sync is the system's sync of each file that was written, and of the folder where a name was made or changed in it.
//! What has to change as a whole (`log.start`, an object) is written beside, synced, renamed, and the folder synced.
//!
//! These devices tell nothing of what they hold, since no contract can say what a file gives. They promise the causes
//! alone: a call fails only where its device's count of faults rose. That the files hold what was written is tested.
#![tactic(auto)]

mod chunks;
mod disk;
mod faults;
mod folder;
mod pages;
mod streams;
mod vault;

pub use disk::FileDisk;
pub use folder::Folder;
pub use pages::FilePages;
pub use streams::{StreamSink, StreamSource};
pub use vault::FileVault;
