//! The log of a store on its disk: made where there is none, or read, so that a life may begin on it.
//!
//! The model is the use that a disk was put to last (`Last` in `specs/Turns` of `life_commands`), which says which logs may be
//! found on it, and what is known of its bytes whatever they stand for (`specs/Bytes` of `life_commands`).
//!
//! - [`make_log`] makes the log of a store on a disk whose log is empty: its first record, which it makes durable.
//! - [`open`] reads the log of a disk, and tells its Commits and losers. A life may begin then on a log that may be found
//!   (`specs/Beginnings`).
//!
//! What is promised: each status has its cause in the logs that may be found, and what the disk keeps then is such a log, too
//! (`specs/Openings`); a status shows what the bytes are (`specs/Shows`); over an open gate no log is made, and of bytes that
//! are no block none is opened; what is known of the disk's bytes stays so. A fault is the disk's own, or a fuse made it.
#![tactic(auto)]

mod logs;
mod opened;

pub use logs::{NotOpened, make_log, open};
pub use opened::Opened;
