//! What the devices in files do where the system doesn't do all that it is asked: no folder, no room, short writes, files
//! that were cut or are of others; and what they sync, which no reading of files shows.
//!
//! The crate has tests alone. They use the system's files through `watched`, which counts syncs and may run out of room.
#![tactic(auto)]

#[cfg(test)]
mod folders;
#[cfg(test)]
mod log;
#[cfg(test)]
mod pages;
#[cfg(test)]
mod vault;
#[cfg(test)]
mod watched;
