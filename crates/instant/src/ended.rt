//! How the program ended.

use runner::Status;
use std::fmt;

/// Why the program ends: the run did, or there are no devices to run on.
#[derive(Drop)]
pub enum Ended {
    Ran(Status),
    /// Another process has the folder.
    InUse,
    /// The folder's files can't be opened, or aren't those of a store.
    Unopened,
}

impl Ended {
    /// The code of the program.
    pub fn code(&self) -> u8 {
        match self {
            Ended::Ran(status) => status.code(),
            Ended::InUse => 75,
            Ended::Unopened => 74,
        }
    }

    /// Whether all was done, so that there is nothing to say.
    pub fn is_done(&self) -> bool {
        match self {
            Ended::Ran(status) => *status == Status::Done,
            _ => false,
        }
    }
}

impl fmt::Display for Ended {
    fn fmt<W: fmt::Write>(&self, f: &mut fmt::Formatter<W>) -> fmt::Result {
        match self {
            Ended::Ran(status) => status.fmt(f),
            Ended::InUse => f.write_str("the folder is in use by another process"),
            Ended::Unopened => f.write_str("the folder's files can't be opened"),
        }
    }
}
