//! Why bytes are no record.
use std::error::Error;
use std::fmt;

/// Why bytes begin with no record.
#[derive(Clone, Copy, Debug, PartialEq, Eq)]
pub enum RecordFault {
    /// Memory ran out. It says nothing of the bytes.
    Memory,
    /// The first field that is cut or breaks its rule begins at this byte, counted from 0.
    Bad { byte: usize },
}

impl fmt::Display for RecordFault {
    fn fmt<W: fmt::Write>(&self, f: &mut fmt::Formatter<W>) -> fmt::Result {
        match self {
            RecordFault::Memory => f.write_str("out of memory"),
            RecordFault::Bad { byte } => write!(
                f,
                "no record: the field at byte {byte} is cut or breaks its rule"
            ),
        }
    }
}

impl Error for RecordFault {}
