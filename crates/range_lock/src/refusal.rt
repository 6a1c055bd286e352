//! Why a lock is refused.
ghost use Rattle.std.specs.Prelude.{◌≡◌};
ghost use Rattle.range_lock.specs.declared.refusal.LockRefused.TheVariants as reasons;

use std::alloc::{AllocError, AllocFailed};
use store_model::{KeyRange, TxId};

/// Why a lock is refused.
#[derive(Drop)]
pub enum LockRefused {
    /// Another transaction's lock conflicts: the least such transaction, and the first of its conflicting ranges.
    Overlap { holder: TxId, range: KeyRange },
    /// Memory ran out.
    Memory,
}

impl From<AllocError> for LockRefused {
    ghost from_gives = { λ _ e. e ≡ reasons.Memory };

    fn from(_error: AllocError) -> LockRefused {
        LockRefused::Memory
    }
}

impl<T: Drop> From<AllocFailed<T>> for LockRefused {
    ghost from_gives = { λ _ e. e ≡ reasons.Memory };

    fn from(_error: AllocFailed<T>) -> LockRefused {
        LockRefused::Memory
    }
}
