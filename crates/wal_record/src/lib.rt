//! The vocabulary of the store: what stands in its log, on its pages and in a life's history, and
//! what that means.
//!
//! The crate has types and definitions, and no code. The types are the records of the log, the state
//! of a page, the summary of a log that an opening makes, and the entries of a history. The
//! definitions in `specs/` say, in plain lists and numbers and in the field's terms, which bytes spell
//! a record, what a log stands for, which log is sound, which history is legal, and what a stop may
//! leave. Every promise of the crates above is stated in these words, so they are the part to review
//! first. `docs/DEFINITIONS.md` goes through them in the order in which they are best read.
//!
//! The definitions fold whole lists of records over one ordered map and over whole pages. The code of
//! the crates above never does: it repairs single pages along their chains, keeps locks in tables,
//! and compensates losers key by key.
#![tactic(auto)]

mod analysis;
mod entry;
mod page;
mod record;

pub use analysis::{Analysis, Loser, PageHead, Run};
pub use entry::Entry;
pub use page::{BranchRow, Foster, LeafRow, PageState, Rows};
pub use record::{
    Adopt, Apply, BackupDone, Checkpoint, Commit, End, Format, Grow, Lost, OpenWrite, PageLsn,
    Purge, Record, Restored, RunDone, Split, Undo, Unfinished, Write, Written,
};
