//! A life opened from its log disk.
//!
//! An opening reads the headers of the blocks, and the records from the last Checkpoint on; no page is read, and nothing is
//! redone or undone. What the life has to know is in the listing: the right to each page at its head, the losers, the
//! numbers that come next (instant restart; Graefe, Guy and Sauer 2016). Pages come by repair when they are first wanted,
//! losers are undone when a lock meets them.
//!
//! It is three calls. [`read_log`] makes of a disk its log with its listing, before the life has a name: so the name can be
//! picked by what was found. [`prepare`] makes, of the listing and of what a life begins with, the pages' rights at home,
//! the right to maintenance and the losers; that is all that may want memory, and the log stays with the caller. [`start`]
//! makes of these the journal of one thread, and tells the pass that goes on that the opening log is durable. `MayBegin` of
//! `specs/Begins` says which logs the life may have begun with: each log for which the disk stood is one. A disk that is given
//! back still stands for the logs for which it stood.
//!
//! Of any disk that tells its bytes, also one that stands for no log, `specs/Bytes` says what was seen in them: an open log
//! has the blocks that they stood for, a log is refused as not formatted only where it is empty, and as bad only at a block
//! and byte that are at fault. [`count_found`] says what an opening has found: how many commits, and how many losers.
#![tactic(auto)]

mod beginning;
mod finding;
mod reading;

pub use beginning::{Begun, Prepared, prepare, start};
pub use finding::{Found, count_found};
pub use reading::{NotOpened, WhyNot, read_log};
