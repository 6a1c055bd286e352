//! Why a field could not be read.
ghost use Rattle.std.specs.Prelude.{◌≡◌};
ghost use Rattle.state_codec.specs.declared.fault.FieldFault.TheVariants.{Memory};

use std::alloc::{AllocError, AllocFailed};

/// Why a field could not be read.
#[derive(Drop)]
pub enum FieldFault {
    Memory,
    /// The field is cut or breaks its rule. So many bytes are left where it begins.
    Bad { left: usize },
}

impl From<AllocError> for FieldFault {
    ghost from_gives = { λ _ e. e ≡ Memory };

    fn from(_error: AllocError) -> FieldFault {
        FieldFault::Memory
    }
}

impl<T: Drop> From<AllocFailed<T>> for FieldFault {
    ghost from_gives = { λ _ e. e ≡ Memory };

    fn from(_error: AllocFailed<T>) -> FieldFault {
        FieldFault::Memory
    }
}
