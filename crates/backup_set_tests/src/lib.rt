//! Backups on a vault in memory: which byte of a faulty object is named, and which calls of the vault a fuse may refuse.
//!
//! The crate has tests alone. The bytes of objects are worked out by hand from the table of fields, with a digest that
//! another program computed.
#![tactic(auto)]

#[cfg(test)]
mod segments;
