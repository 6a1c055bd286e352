//! What records, keys and sizes make of pages, worked out by hand from the rules (`docs/DEFINITIONS.md`).
//!
//! The contracts of `page_rows` name the definitions of `wal_record`, and so can't show that these are the rules. This
//! crate has nothing but tests of that: each kind of record where it may be redone and where it may not, each place of
//! a key, and sizes. They stand in a crate of their own, since a crate with tests is proved a second time with them.
//!
//! A row of a table has its fields between semicolons, its name first. Records and states are written as their bytes
//! (`docs/FORMATS.md`), in pairs of hexadecimal digits; a pair may stand several times, as in `76*256`.
#![tactic(auto)]

#[cfg(test)]
mod changes;
#[cfg(test)]
mod leaf_records;
#[cfg(test)]
mod other_records;
#[cfg(test)]
mod places;
#[cfg(test)]
mod redone;
#[cfg(test)]
mod sizes;
#[cfg(test)]
mod text;
#[cfg(test)]
mod tree_records;
