//! Backups, archive runs and Checkpoints of a log: the part of a lawful record that is about its upkeep.
//!
//! - [`Backups`] keeps the number of the last backup and which segments it has, record by record: a backup that goes on repeats
//!   none, and one that begins is the next. `AreBackupsOf log backups` (`specs/Backups`) says that it is that of these records.
//!   [`Backups::may_stand`] is exact: whether a BackupDone keeps the rule of backups.
//! - [`may_stand`] is exact for a RunDone, by the runs that stand: whether it goes on behind the last one, or covers neighbouring
//!   ones, two or more, and how many stand then.
//! - [`same_checkpoint`] is exact: whether two Checkpoints say the same.
//!
//! None but [`Backups::note`] takes memory. A call takes a time by the runs that stand, the pages of a backup, the segments of the
//! last one, or the items of a Checkpoint.
#![tactic(auto)]

mod backups;
mod checkpoint;
mod runs;

pub use backups::Backups;
pub use checkpoint::same_checkpoint;
pub use runs::may_stand;
