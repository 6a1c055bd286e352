//! A life that one thread owns: from its opening to its stop.
//!
//! [`open_life`] makes of a log that was read, of a data device, a vault and what names a life, an [`OwnLife`] and its pages
//! (`store_pages`): the journal and the pool of a store (`plain_store`), and its named transactions (`store_life`). The pages are
//! lent to each call that wants them. Each command of the life is a call: [`OwnLife::begin`], [`OwnLife::ask`], [`OwnLife::commit`],
//! [`OwnLife::abort`], [`OwnLife::checkpoint`], [`OwnLife::backup`], [`OwnLife::archive`], [`OwnLife::lose`], [`OwnLife::help`],
//! [`OwnLife::survey`] and [`OwnLife::close`]. They are for a life that goes on; whether it has ended, and with which LSN,
//! [`OwnLife::ended`] tells at any moment. [`OwnLife::into_devices`] stops it.
//!
//! The model (`specs/State`) is the history, how much of the log is known to be durable, the active names, the LSN with which the
//! life ended, if it has, and what the log disk tells of its calls. What is promised:
//!
//! 1. Each call adds to the history its command's own entries, and beside them what may stand there, as `store_life` has it. A
//!    close adds what tells of pages that were written, and behind it no page is dirty and the whole log is durable. A help adds
//!    Undos and Ends of losers, then what the segments that it restores and the pages that it brings enter, then that
//!    pages were written, then that archive runs are done (`specs/Helps`). It takes the steps that were asked for, or fewer, and
//!    then no loser is left without an End, no segment is unrestored, no page awaits redo, none is dirty, and fewer than 1,000
//!    durable records wait for a run or 1,024 runs stand; while a loser is left each step is an Undo or an End.
//!    A backup adds that its segments are done, an archive that runs are (`specs/Backed`).
//! 2. A life ends only where a call answers `LogFault`: then the log disk failed by itself, or an armed fuse refused a call;
//!    the opening log and each acknowledged commit are durable. After any other answer or refusal it goes on. No answer tells of a
//!    fault of the data device; one of the vault is told only where the pages have counted one more.
//! 3. At each moment the history is legal and serial, and a stop leaves the first of its transactions ([`OwnLife::look`]); what
//!    the log disk keeps as it is handed back, and whatever a crash leaves of it then, stands for such a log, each image of the
//!    data device is of that log, and each object that it names is synced in the vault (`AreLeft`).
//!
//! Where a count of the life is used up, calls want memory.
#![tactic(auto)]

mod closing;
mod helping;
mod leaving;
mod life;
mod opened;
mod seeing;
mod storing;

pub use life::OwnLife;
pub use opened::{LifeRefused, open_life};
