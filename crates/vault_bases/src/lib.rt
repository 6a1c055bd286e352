//! Images of pages from the backups of a life, and their records from its archive runs.
//!
//! A repair or a restore of a page begins at its last backup, so that only the records that came later are redone (Graefe and
//! Kuno 2012). The log says which backup that is and what LSN the page has in it, and it names the object of the vault in which
//! the image stands (`backup_laws`). [`VaultBases`] reads that image by what a pass has seen, over any vault of a life
//! (`named_objects`).
//!
//! It is read by two short calls where the backup has the page's whole segment, and else from the whole object. Each call sees
//! the history as it is then. A backup that was the last one at an earlier call may be so no more, but its object stays named,
//! and its image one of the page: so that image is given.
//!
//! A record that the log has forgotten stands in the object of an archive run, which the log names, too. It is read whole, and
//! the page's record with that LSN is taken from it.
//!
//! What is promised: an image that is given is the one that the last backup of the page had at some moment of the call, and no
//! younger than the head that is asked for. None is given exactly where the log has no backup of the page, or its last one is
//! younger. A record that is given is the log's. Nothing is entered. In a life whose opening log is known no object is bad.
#![tactic(auto)]

mod bases;
mod copies;
mod last_backup;
mod reading;
mod runs;
mod tally;

pub use bases::VaultBases;
pub use tally::Tally;
