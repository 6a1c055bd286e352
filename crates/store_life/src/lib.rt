//! A life of named transactions over the store of one thread.
//!
//! [`StoreLife`] has the active transactions of a life by name, each with its session, beside a journal and pages that are
//! lent to each call. There is one call for each command: [`StoreLife::begin`], [`StoreLife::ask`], [`StoreLife::commit`],
//! [`StoreLife::abort`], [`StoreLife::checkpoint`], [`StoreLife::mark_lost`] and [`StoreLife::survey`];
//! and [`StoreLife::undo_next`] for one step of a help. Whoever calls them has all parts of the ledger of entries, so nobody else
//! enters anything (`Runs` of `specs/SoFar`), and the history is known whole: each call says which entries it added
//! (`specs/Turns`).
//!
//! The model is the history so far, and the active names with their sessions and transactions in the order of their beginning.
//! What is promised:
//!
//! 1. A call adds its command's own entries in their order, and beside them what may stand there, and nothing else. Behind a
//!    refusal that isn't an answer there are none of its own but an abort's undos, and a Commit, a Checkpoint or a Lost that met
//!    the end of the life. A refused abort has entered no End. A step on the losers of the opening log adds one Undo or one End,
//!    of the least that is left, and before it upkeep (`specs/Steps`).
//! 2. The history is legal and the log of the life sound, for each log with which the life may have begun; so its committed
//!    transactions are serial, and a stop leaves the first of them, at each moment ([`StoreLife::look`]).
//! 3. At most 64 names are active: where 64 are, a begin is refused. Where each live transaction of the history has a name
//!    (`HasNames` of `specs/SoFar`), it is so behind each call, and in a life that begins here it is so at first. Then a begin
//!    below 64 names isn't refused as `TooManyActive`, if a log is known with which the life may have begun; else it is only
//!    where 64 transactions are live. A command of a name that isn't active is refused as `NotActive`, and all is as before.
//! 4. Each other refusal has its cause, said of what was known before the call. No page is held behind a call, and no frame
//!    reserved.
//! 5. What the journal's object tells of the log disk goes on through each call (`Keeps` of `page_ops`): its parts stay, its
//!    counts of faults don't fall, and a known end stays. Where the log disk tells of its calls, and a fault of it was counted, it
//!    failed a call by itself or a fuse refused one. Only a begin makes a session.
#![tactic(auto)]

mod asking;
mod beginning;
mod ending;
mod life;
mod undoing;

pub use life::{Named, StoreLife};
