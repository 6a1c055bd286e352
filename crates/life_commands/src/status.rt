//! How a run ends.
ghost use Rattle.std.specs.Prelude.{◌≡◌};
ghost use Rattle.life_commands.specs.Status.{code_of};
ghost use Rattle.life_commands.specs.declared.status.Status.TheVariants as statuses;

use std::alloc::AllocError;
use std::fmt;
use store_model::{ObjectKind, ObjectName};

/// How a run ends. Lines are counted from 1.
#[derive(Clone, Copy, Debug, PartialEq, Eq)]
pub enum Status {
    /// The script was read to its end, and each command has its lines.
    Done,
    /// Want of memory.
    Memory,
    /// The words are no call.
    Usage,
    /// The words ask for a generated script, and none is generated yet.
    NoGenerator,
    /// No script goes on with this line, or its command isn't lawful there, or the input ends within it.
    Script { line: u64 },
    /// The source failed.
    SourceFault,
    /// The sink failed.
    SinkFault,
    /// The log disk failed.
    LogFault,
    /// An open gate of the log stands before bytes that are no block of this store, or a record breaks its form.
    LogBad { block: u64, byte: u64 },
    /// A block of the log can't be read where a page or a transaction of an open life needs it. It comes only where the log disk
    /// tells nothing, or stood for no log as it was opened.
    BlockBad { block: u64, byte: u64 },
    /// The vault failed.
    VaultFault,
    /// An object of the vault can't be read where a page of an open life needs it, or isn't what the log says of it. It comes only
    /// where a device tells nothing, or stood for no log as it was opened.
    VaultBad { object: ObjectName, byte: u64 },
    /// The log is empty.
    NotFormatted,
    /// The log disk holds a log already.
    AlreadyFormatted,
    /// The line asks for what isn't built yet.
    NotBuilt { line: u64 },
}

impl Status {
    /// The exit code of the program.
    pub fn code(self) -> u8
        ensures { result ≡ code_of self }
    {
        match self {
            Status::Done => 0,
            Status::Memory => 1,
            Status::Usage => 2,
            Status::NoGenerator => 12,
            Status::Script { line: _ } => 3,
            Status::SourceFault => 4,
            Status::SinkFault => 5,
            Status::LogFault => 6,
            Status::VaultFault => 7,
            Status::LogBad { block: _, byte: _ } => 8,
            Status::BlockBad { block: _, byte: _ } => 8,
            Status::VaultBad { object: _, byte: _ } => 9,
            Status::NotFormatted => 10,
            Status::AlreadyFormatted => 11,
            Status::NotBuilt { line: _ } => 12,
        }
    }
}

impl From<AllocError> for Status {
    ghost from_gives = { λ _ status. status ≡ statuses.Memory };

    fn from(_error: AllocError) -> Status {
        Status::Memory
    }
}

impl fmt::Display for Status {
    fn fmt<W: fmt::Write>(&self, f: &mut fmt::Formatter<W>) -> fmt::Result {
        match self {
            Status::Done => f.write_str("done"),
            Status::Memory => f.write_str("out of memory"),
            Status::Usage => f.write_str("usage"),
            Status::NoGenerator => f.write_str("generate is not built"),
            Status::Script { line } => write!(f, "script fault in line {line}"),
            Status::SourceFault => f.write_str("input failed"),
            Status::SinkFault => f.write_str("output failed"),
            Status::LogFault => f.write_str("log failed"),
            Status::LogBad { block, byte } => write!(f, "log block {block} bad at byte {byte}"),
            Status::BlockBad { block, byte } => write!(f, "log block {block} bad at byte {byte}"),
            Status::VaultFault => f.write_str("vault failed"),
            Status::VaultBad { object, byte } => {
                let ObjectName { kind, id, part } = object;
                match kind {
                    ObjectKind::Run => write!(f, "object run-{id} bad at byte {byte}"),
                    ObjectKind::Backup => write!(f, "object bak-{id}-{part} bad at byte {byte}"),
                }
            }
            Status::NotFormatted => f.write_str("not formatted"),
            Status::AlreadyFormatted => f.write_str("already formatted"),
            Status::NotBuilt { line } => write!(f, "not built in line {line}"),
        }
    }
}
