//! Pages rebuilt along chains that stand as texts, from nothing, from images and from backups, and chains that are those of
//! no log.
//!
//! The crate has tests alone. Each row of a table says how many records were asked for and what came of it: the page as
//! bytes, or the fault.
#![tactic(auto)]

#[cfg(test)]
mod backups;
#[cfg(test)]
mod rebuilt;
#[cfg(test)]
mod spelled;
#[cfg(test)]
mod table;
