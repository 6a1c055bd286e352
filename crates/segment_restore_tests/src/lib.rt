//! A segment of a lost device that comes back from the log, and from images of backups: what is written to the device, what is
//! read of the log, and when it is entered that the segment is restored.
//!
//! The crate has tests alone, since a crate with tests is proved a second time with them. Its journal tells a log of two pages,
//! which stands as a text; no opening log is known, so it may tell any. What is expected was worked out by hand from that text.
#![tactic(auto)]

#[cfg(test)]
mod bases;
#[cfg(test)]
mod life;
#[cfg(test)]
mod log;
#[cfg(test)]
mod telling;
#[cfg(test)]
mod tests;
