//! The vault of a life, by what a pass has seen: an object that the log names reads as the log says.
//!
//! A record says that a backup of a segment, or an archive run, is durable. So it names an object, and what stands in the log
//! before it determines the object's bytes: the pages' images at the LSNs that the record tells, or the records of the
//! run's range that name pages (`specs/Named`). Whoever reads an object, to repair a page or to restore a segment (Graefe, Guy
//! and Sauer 2015), gets exactly these bytes.
//!
//! An object is made in three steps, each in a call of its own so that no lock spans two device calls: its bytes are put as a
//! draft, the draft is synced, and then a record names it (`specs/Drafts`). What is named stays as it was at each of them,
//! also where the vault fails. [`name_object`] takes the three steps, and makes the log durable up to the record.
//!
//! [`Objects`] is the vault of a life, whether one thread owns it or threads share it under a lock. [`OwnObjects`] is one
//! that a thread owns, over any vault of media. It has the right to maintenance, without which no record names an object; so
//! at each moment it knows all objects that are named. A [`Naming`] is what a record says that names one.
#![tactic(auto)]

mod draft;
mod making;
mod naming;
mod naming_entry;
mod objects;
mod own_objects;

pub use draft::{Done, Draft, Drafted};
pub use making::name_object;
pub use naming::Naming;
pub use objects::Objects;
pub use own_objects::OwnObjects;
