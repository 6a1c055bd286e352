//! How the program ended.

use inspection::Halt;
use std::alloc::{AllocError, AllocFailed};
use std::{fmt, io};

/// Why the program ends before all is printed.
#[derive(Drop)]
pub enum Ended {
    /// Something breaks its rule. A line says what.
    Fault,
    /// The words of the call are in no grammar, or no folder stands there.
    Usage,
    Memory,
    /// The folder's files can't be read.
    Input,
    Output,
    /// A process writes into the folder.
    InUse,
}

impl Ended {
    /// The code of the program.
    pub fn code(&self) -> u8 {
        match self {
            Ended::Fault => 1,
            Ended::Usage => 2,
            Ended::Memory => 71,
            Ended::Input | Ended::Output => 74,
            Ended::InUse => 75,
        }
    }
}

impl From<AllocError> for Ended {
    fn from(_error: AllocError) -> Ended {
        Ended::Memory
    }
}

impl<T: Drop> From<AllocFailed<T>> for Ended {
    fn from(_error: AllocFailed<T>) -> Ended {
        Ended::Memory
    }
}

impl From<io::Error> for Ended {
    fn from(_error: io::Error) -> Ended {
        Ended::Input
    }
}

impl From<Halt> for Ended {
    fn from(halt: Halt) -> Ended {
        match halt {
            Halt::Memory => Ended::Memory,
            Halt::Device => Ended::Input,
            Halt::Sink => Ended::Output,
            Halt::Block { .. } | Halt::Page { .. } => Ended::Fault,
        }
    }
}

impl fmt::Display for Ended {
    fn fmt<W: fmt::Write>(&self, f: &mut fmt::Formatter<W>) -> fmt::Result {
        f.write_str(match self {
            Ended::Fault => "the store is at fault",
            Ended::Usage => "usage: inspect FOLDER [--verify]",
            Ended::Memory => "out of memory",
            Ended::Input => "the folder's files can't be read",
            Ended::Output => "output failed",
            Ended::InUse => "the folder is in use by another process",
        })
    }
}
