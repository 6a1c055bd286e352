//! Records and their bytes, worked out by hand from the table of fields (`docs/FORMATS.md`).
//!
//! The contracts of `record_codec` name the definitions of `wal_record`, and so can't show that these are the format.
//! This crate has nothing but tests of that: each kind of record, each field at the edges of its rule, each field that
//! is cut, and each field that breaks its rule, with the byte that is named then. They stand in a crate of their own,
//! since a crate with tests is proved a second time with them.
//!
//! A row of a table has one word for each field of the format. A word is made of pairs of hexadecimal digits; a part of
//! it may stand several times, as in `00*7,09`, the number 9 in eight bytes.
#![tactic(auto)]

#[cfg(test)]
mod cuts;
#[cfg(test)]
mod edges;
#[cfg(test)]
mod faults;
#[cfg(test)]
mod kinds;
#[cfg(test)]
mod row;
