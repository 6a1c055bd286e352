//! Why words give no call.
ghost use Rattle.std.specs.Prelude.{◌≡◌};
ghost use Rattle.clap.specs.Words.{kind_of};
ghost use Rattle.clap.specs.declared.error.kind.ErrorKind.TheVariants as kinds;
ghost use Rattle.call_words.specs.declared.refusal.Refusal.TheVariants as refusals;

use clap::Error;
use clap::error::ErrorKind;
use std::alloc::AllocError;

/// Why words give no call.
#[derive(Clone, Copy, Debug, PartialEq, Eq)]
pub enum Refusal {
    Memory,
    /// The words are no call.
    Usage,
}

impl From<AllocError> for Refusal {
    ghost from_gives = { λ _ refusal. refusal ≡ refusals.Memory };

    fn from(_error: AllocError) -> Refusal {
        Refusal::Memory
    }
}

/// Whatever else is wrong with words, they are no call. That goes for words that ask for help, too.
pub(crate) fn refusal_of(error: &Error) -> Refusal
    ensures { result ≡ refusals.Usage → kind_of error.now ≡ kinds.OutOfMemory → ⊥ }
{
    if error.kind() == ErrorKind::OutOfMemory {
        Refusal::Memory
    } else {
        Refusal::Usage
    }
}
