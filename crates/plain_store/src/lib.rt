//! A store of one thread: the journal of a life and its pool of pages, opened together.
//!
//! An opening has read the log disk (`opening::read_log`). [`open_store`] makes of that log, a data device and a supply of
//! pages a [`PlainStore`], over whose journal and pool the requests of `engine` run. No page is read and nothing is
//! redone or undone as it opens (instant restart; Graefe, Guy and Sauer 2016): a page comes from the data device, or by repair
//! from the log, when a request first wants it, and a loser is undone when a lock meets it.
//!
//! What is promised: the history of the new life is empty, no page is in a frame, and each page's right is at home at the
//! page's head in the log. Nothing was counted in the life's ledgers. An opening is refused only for want of memory, and
//! then each device is handed back as it was.
//!
//! The data device may have images that earlier lives wrote (`AreEarlier` of `specs/Opens`): whatever log the life begins
//! with, each is the page's sealed image in it. The opening log is durable, and the pass of the images is told so before it is
//! shown them. [`PlainStore::into_devices`] hands the devices back as the life stops: whatever the log disk keeps then, or
//! after a crash, stands for a log that a stop may leave of the life, with as many records at least as each image of the data
//! device is made of.
#![tactic(auto)]

mod opened;
mod store;

pub use opened::{StoreRefused, open_store};
pub use store::PlainStore;
