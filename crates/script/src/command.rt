//! The kinds of line of a script.
use crate::name::Name;
use store_model::{PageNo, Request};

/// A device that a fuse can refuse.
#[derive(Clone, Copy, Debug, PartialEq, Eq)]
pub enum Device {
    Log,
    Data,
    Vault,
}

/// A line of a script.
#[derive(Drop)]
pub enum Command {
    /// An empty line, or a comment, which begins with `#`.
    Nothing,
    /// `format` or `format N`: pages and writes not yet undone, 8 to 16,384 together.
    Format {
        limit: Option<u32>,
    },
    Open,
    Begin(Name),
    /// `get T KEY`, `put T KEY VALUE`, `del T KEY`, `scan T LOW HIGH` or `op T OP KEY ARG`.
    Ask(Name, Request),
    Commit(Name),
    Abort(Name),
    Checkpoint,
    Backup,
    Archive,
    Merge,
    Recycle,
    Lose,
    /// `help N`: at most this many steps of restart, 1 to 1,000,000.
    Help {
        steps: u32,
    },
    Stat,
    Close,
    /// `stop` or `stop K`: a crash that keeps the first K unsynced bytes of the log disk.
    Stop {
        keep: Option<u64>,
    },
    Damage {
        page: PageNo,
    },
    /// `fuse DEV N`: the device refuses each call after the next N.
    Fuse {
        device: Device,
        calls: u64,
    },
    Renew {
        device: Device,
    },
    /// `parallel W R` or `parallel W R show` opens a section of 1 to 16 workers with up to 1,000,000 retries.
    Parallel {
        workers: u32,
        retries: u32,
        show: bool,
    },
    /// In a section: `worker M`, which carries out its requests as 1 to 1,000 transactions.
    Worker {
        transactions: u32,
    },
    /// In a section: a request of the worker, without a name.
    Step(Request),
    /// Ends a section.
    End,
}
