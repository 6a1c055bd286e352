//! A log with its listing: the records themselves, and what has to be known of them to go on.
//!
//! The log manager keeps records as a list and forgets their meaning; the listing keeps their meaning and forgets the
//! records. Whoever adds to a log needs both, and needs them of the same records. [`ListedLog`] is the pair: what is
//! added to the one is noted in the other, in one call that is done whole or not at all.
//!
//! Contracts see both side by side. `IsLogWith` of `specs/Listed` says of which records they are: the listing is
//! theirs, and the blocks have the last of them, stable ones and waiting ones. It also names the transactions of which the
//! listing knows the last record, by any test: a log that was read from a Checkpoint on doesn't tell it of those that undid
//! all their writes and lost their End, and nobody adds a record to them. What is promised:
//!
//! 1. [`ListedLog::append_group`] adds one record, or two that stand together, all in one block. Of a lawful log, it is then the
//!    longer log with its listing. After a refusal both are of the same records as before.
//! 2. [`ListedLog::commit`] adds a Commit without memory, where [`ListedLog::reserve_commit`] made room.
//! 3. [`ListedLog::flush_to`] makes the log durable up to an LSN. The records stay the same, also where it fails.
//! 4. All that the listing knows of the records is read off [`ListedLog::listing`].
//! 5. [`ListedLog::read`] gives the record of an LSN that the log keeps. [`ListedLog::recycle`] forgets the blocks that end
//!    before the recycle point, and nothing while records wait. The records stay the same, also where
//!    these fail.
//! 6. The records that wait are groups, each whole in one block (`WaitsInGroups` of stop_laws). Behind a call of the disk the
//!    log goes on so; or it has ended, and what the disk keeps, also after a crash, stands for the first of the records, at
//!    least the durable ones, with the store's room behind them and enough for the next opening (`GoesOnOrEnds`).
//! 7. [`ListedLog::fuse`] and [`ListedLog::refused`] are the disk's; [`ListedLog::into_device`] gives it back as it is. Where a
//!    call answers `LogFault`, the disk failed by itself, or an armed fuse refused a call of it (`Blames` of media).
#![tactic(auto)]

mod keeping;
mod listed_log;
mod noting;

pub use listed_log::ListedLog;
