//! Why a call of the store is refused.
ghost use Rattle.std.specs.Prelude.{◌≡◌};
ghost use Rattle.store_model.specs.declared.fault.Fault.TheVariants as faults;

use crate::numbers::{Lsn, Pos, TxId};
use crate::object::ObjectName;
use crate::range::KeyRange;
use std::alloc::{AllocError, AllocFailed};
use std::error::Error;
use std::fmt;

/// Want of memory. It is never merged with another refusal, and says nothing of anything but memory.
#[derive(Clone, Copy, Debug, PartialEq, Eq)]
pub struct Memory;

impl fmt::Display for Memory {
    fn fmt<W: fmt::Write>(&self, f: &mut fmt::Formatter<W>) -> fmt::Result {
        f.write_str("out of memory")
    }
}

impl Error for Memory {}

impl From<AllocError> for Memory {
    fn from(_error: AllocError) -> Memory {
        Memory
    }
}

impl<T: Drop> From<AllocFailed<T>> for Memory {
    fn from(_error: AllocFailed<T>) -> Memory {
        Memory
    }
}

/// Why a call is refused. A call's contract says which of these it may answer, when, and what stays the same.
#[derive(Debug, Drop)]
pub enum Fault {
    /// Want of memory.
    Memory,
    /// The log disk failed in this call.
    LogFault,
    /// The vault failed in this call.
    VaultFault,
    /// The life has ended: an earlier call met a fault of the log disk, or a limit is reached. `at` is the LSN up to
    /// which the log was durable then.
    Ended {
        at: Lsn,
    },
    /// Another unfinished transaction holds a conflicting lock: the least such transaction, and the first of its
    /// conflicting ranges.
    Conflict {
        holder: TxId,
        range: KeyRange,
        at: Pos,
    },
    /// 64 transactions of this life are unfinished.
    TooManyActive,
    /// A write would leave too little room to undo every open write.
    Full {
        pages: u32,
        pending: u32,
        at: Pos,
    },
    /// The session has no transaction.
    NotActive,
    /// An open gate stands before bytes that are no block of this store, or a record breaks its form.
    LogBad {
        block: u64,
        byte: u64,
    },
    /// A named object of the vault breaks its form, or lacks what is asked of it.
    VaultBad {
        object: ObjectName,
        byte: u64,
    },
    /// The log is empty.
    NotFormatted,
    /// The operator gives no value here.
    OpRefused {
        at: Pos,
    },
    /// The source failed in this call.
    SourceFault,
    /// The sink failed in this call.
    SinkFault,
    /// The log disk holds a log already.
    AlreadyFormatted,
}

impl From<Memory> for Fault {
    ghost from_gives = { λ _ fault. fault ≡ faults.Memory };

    fn from(_error: Memory) -> Fault {
        Fault::Memory
    }
}

impl From<AllocError> for Fault {
    ghost from_gives = { λ _ fault. fault ≡ faults.Memory };

    fn from(_error: AllocError) -> Fault {
        Fault::Memory
    }
}

impl<T: Drop> From<AllocFailed<T>> for Fault {
    ghost from_gives = { λ _ fault. fault ≡ faults.Memory };

    fn from(_error: AllocFailed<T>) -> Fault {
        Fault::Memory
    }
}
