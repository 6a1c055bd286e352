//! The journal: the value behind the journal lock.
//!
//! Whatever threads of a life tell each other of its store, they tell by the journal: it has the log, the locks and the
//! history, and no entry of any of them is made without it. So each of its calls finds a history that is legal, and leaves
//! one that is.
//!
//! - The log with its listing (`listed_log`) has the records, and what has to be known of them to go on.
//! - The lock table (`range_lock`) has the locks of the transactions that are live.
//! - The history (`life_history`) has the entries, the books of pages and sessions, and the ledgers.
//! - The table of losers (`losers`) has of each loser of the opening log where its last Undo or End stands, and whether it
//!   has its End.
//!
//! Contracts see a journal as its history, its end, what its log disk tells of its calls, and the durable blocks of its log
//! (`specs/State`). What holds whenever the lock is free is `IsKept` (`specs/Kept`): for each log with which the
//! life may have begun, the log and its listing are those of the life; the table holds exactly the locks that were taken
//! and not released; the table of losers is that of the history; there is room for the commit of each live transaction; what passes were told to be durable is; and as
//! long as the log hasn't ended, no commit waits for its acknowledgement and no fault was counted. What each of the three
//! keeps of itself is its own invariant. Beside it stands `AreSafe` (`specs/Stops`): the durable records have the opening log
//! and each acknowledged commit, and those that wait are whole groups; once the log has ended, the disk keeps at least the
//! durable ones. What is promised so far:
//!
//! 1. [`Journal::begin`] begins a transaction, and makes the room in the log that its commit needs.
//! 2. [`Journal::lock`] locks a range exactly where no other transaction's lock conflicts. Where that of a live one does, it
//!    enters the refusal, and tells the least holder and the first of its conflicting ranges. Where only losers' do, it tells
//!    the least of these, and enters nothing. A loser's locks are on the keys of its open writes, and are read off the listing.
//! 3. [`Journal::enter`] enters a group in any life, told or not: an answer alone, a record of any kind,
//!    with its answer or without, or two records that may stand together, such as the split of a page and the write that
//!    it was made for. An End stands alone; by it the session's transaction is over, and its locks are let go. Whoever asks may also
//!    undo a write of a loser, or end it: these records belong to no session. It fills the group in by the listing
//!    (`group_filling`), adds it to the log in one block and to the history in one step, and raises the rights; the right to a page that the group makes comes into its place. Where
//!    a group asks for room in the store and there is none, its request is entered as declined, and the answer is `Full`; a
//!    group without a request isn't entered.
//! 4. [`Journal::commit`] takes no memory. It enters the Commit, gives the locks back, makes the log durable up to it, and
//!    only then enters that it is acknowledged. [`Journal::flush`] makes the log durable alone.
//! 5. [`Journal::refuse`] enters that a request is declined, since its operator gives no value.
//! 6. [`Journal::read`] gives the record of an LSN, or the standing archive run that has it where the log has forgotten it.
//!    [`Journal::listing`] is what is known of the life's log. [`Journal::repaired`] enters the repair of a page of which an
//!    image was written since the last loss. [`Journal::recycle`] makes the log durable and forgets all blocks of it that
//!    nothing needs, but never the last one (`Recycles`).
//! 7. A fault of the log disk ends the life. From then on each call that enters or flushes tells that, and enters
//!    nothing; through one account it is always the same LSN.
//!
//! 8. It keeps where each segment was restored last. A group that restores a segment that isn't unrestored any more isn't
//!    entered, and its answer is `Late`, with the place of the entry that came first. So is the Undo of a loser's write that
//!    isn't its last open one any more, and the End of a loser that has one. [`losers_of`] gives the losers with which a life
//!    begins; [`Journal::least_loser`] and [`Journal::losers`] tell those that are left.
//!
//! 9. [`Journal::start`] tells the first pass that the opening log is durable. [`Journal::into_device`] hands the log disk out
//!    as the life stops, at any moment, also behind a fault: whatever it keeps then, or after a crash, stands for a log that a
//!    stop may leave of the life (`Leaves`). That has each acknowledged commit and all that passes were told to be durable, and
//!    is enough for the next opening.
//!
//! 10. [`Journal::fuse`] and [`Journal::refused`] are the disk's. Each call says what became of the disk's calls: it made none
//!    (`IsUntouched`), or it made some, and where it answers `LogFault` the disk failed by itself or an armed fuse refused a call
//!    (`BlamesDisk`). Where it made none the same blocks are durable, and else those and maybe more (`KeepsBlocks`); only a recycling
//!    lets some go. An end stays (`KeepsEnd`), and counts learn of no other (`LearnsEnd`). [`Journal::end`] tells it: the opening
//!    log and each acknowledged commit stand up to that LSN, and it is no LSN behind the last record (`IsDurableUpto`).
//!
//! A group that isn't built yet is refused as one that wants memory, which the traits allow.
#![tactic(auto)]

mod checkpointing;
mod device;
mod ends;
mod filling;
mod group_entering;
mod in_way;
mod journal;
mod late;
mod reading;
mod restored;
mod taken;
mod undone;

pub use journal::Journal;
pub use undone::losers_of;
