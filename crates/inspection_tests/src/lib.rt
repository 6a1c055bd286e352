//! What an inspection says of devices in memory: the line of each kind of thing, and the first fault by block, page and
//! byte.
//!
//! The crate has tests alone. The bytes of the devices are spelled by hand from the formats, and so are the lines.
#![tactic(auto)]

#[cfg(test)]
mod bytes;
#[cfg(test)]
mod log;
#[cfg(test)]
mod objects;
#[cfg(test)]
mod pages;
