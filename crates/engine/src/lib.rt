//! The requests of one thread, over any journal and any pages.
//!
//! A caller has [`Session`]s, each with at most one transaction, and a thread's way to the journal and to the pages. A
//! request locks what it touches first, and only then looks at it. It stands over the traits alone: whoever shares the
//! journal and the pages with other threads calls the same functions. There are sessions, the beginning of transactions,
//! their commit and their [`abort`], and the requests [`get`], [`put`], [`del`], [`apply`] and [`scan`].
//!
//! The model of a session is what its right claims, and what its pass has seen of the history. What is promised:
//!
//! 1. [`begin`] gives a session a transaction, and [`commit`] ends it: its Commit and then its acknowledgement are entered,
//!    and the log is durable up to the Commit. [`abort`] undoes its writes, last one first, and then enters its End
//!    (`undone`, `ended`, `freed`). A session's transaction is live, unless a commit of it was refused (`specs/Sittings`).
//! 2. A request that is answered has its answer last in the history, told to its session's transaction, and its reply is
//!    that of the ordered map of the current contents (`said`). A write's record stands directly before it. Where a lock is
//!    refused, no room is left for a write, or an operator gives no value, that is entered last; nothing is behind any
//!    other refusal (`answers`, `conflict`, `full`, `gives_none`).
//! 3. Beside them a request enters at most its lock, the undo and the end of losers that were in the way of the lock, what
//!    keeps the tree up, and what the upkeep of pages enters (`specs/Beside`). No loser is undone for a request that
//!    conflicts with a live transaction.
//! 4. Each refusal has its cause, said of what was known before the call (`refused`, `ends`); a call that is done met no
//!    end of the life (`open`).
//! 5. No page is held behind a call, and no frame reserved (`none`, `reserved`).
#![tactic(auto)]

mod aborting;
mod answered;
mod applying;
mod asking;
mod beginning;
mod changing;
mod committing;
mod declining;
mod getting;
mod locking;
mod saying;
mod scanning;
mod seeing;
mod session;
mod telling;
mod writing;

pub use aborting::abort;
pub use answered::Answered;
pub use applying::apply;
pub use asking::get;
pub use beginning::{begin, new_session};
pub use committing::commit;
pub use scanning::scan;
pub use seeing::see_session;
pub use session::Session;
pub use writing::{del, put};
