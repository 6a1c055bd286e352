//! A journal that one thread owns, behind the traits.
//!
//! Descents, system transactions, pools and sessions know a journal by the traits of page_ops alone. [`OwnJournal`] is the
//! journal of a life with a thread's shares of its ledgers, and meets [`page_ops::Entering`] and [`page_ops::Journaling`]:
//! so whatever is proved over the traits holds of a store on this journal.
//!
//! Each call is one call of the journal, or one look at it and then what its listing tells: the ends of a page's traces,
//! and whether its segment is unrestored. Such questions take no memory, and cost at most the logarithm of what is listed.
//!
//! Its account is the thread's counts with what the log disk tells of its calls (`specs/Told`). So whoever knows it by the traits
//! alone knows of the disk that without a fuse no call is refused, and that where a fault was counted the disk failed a call by
//! itself or its fuse refused one.
//!
//! Where a thread's counts know of an end, it is the journal's (`knows`, which holds of each [`OwnJournal`]). So the LSN of an
//! answer `Ended` is what [`OwnJournal::end`] tells. [`OwnJournal::end_seen`] tells it beside the whole history.
#![tactic(auto)]

mod asking;
mod journaling;
mod own;

pub use own::OwnJournal;
