//! Maintenance: what keeps openings and repairs short, and what an opening has left to do.
//!
//! [`checkpoint`] enters a Checkpoint through any journal and makes the log durable up to it, so that an opening reads the log
//! from there on (fuzzy checkpoints, as in Mohan et al., TODS 1992: no page is written for it, and nobody waits). The journal
//! fills in what the record lists, in the same hold of its lock in which it is entered; so it says what the log before it says.
//!
//! What is promised of it: where it is done, exactly one Checkpoint was entered by this call, its LSN is the answer, and the log
//! is durable up to it (`entered`, `durable`). Refused for want of memory, it has entered nothing; where the log disk fails in it,
//! the Checkpoint stands in the history, and whether the next opening finds it is open. Each refusal has its cause (`refused`,
//! `ends`).
//!
//! [`mark_lost`] does the same with a record that says that the data device was lost, with the pages that the store has then. From
//! then on each segment with one of them is unrestored until the log says that it was restored (instant restore: Graefe, Guy and
//! Sauer 2015); so a loss outlives the life in which it comes. What is promised of it is as of a Checkpoint.
//!
//! [`undo_step`] takes one step to undo the losers of the opening log, which an opening leaves as they are. It is the undo pass
//! of a restart, one write at a time and beside other work. What is promised (`takes`): one Undo or one End was entered by this
//! call, of the loser that was the least one left; or no loser is left without an End; or another thread ended that loser
//! meanwhile. Beside it stands upkeep of the tree and of pages alone. Refused, it has entered no Undo and no End, and each
//! refusal has its cause (`refused`).
#![tactic(auto)]

mod checkpointing;
mod losing;
mod step;
mod undoing;

pub use checkpointing::checkpoint;
pub use losing::mark_lost;
pub use step::Step;
pub use undoing::undo_step;
