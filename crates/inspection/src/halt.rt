//! Why an inspection stops.
ghost use Rattle.std.specs.Prelude.{◌≡◌};
ghost use Rattle.inspection.specs.declared.halt.Halt.TheVariants as halts;

use std::alloc::{AllocError, AllocFailed};
use std::fmt;
use store_model::PageNo;

/// How many bytes of the log stand in one of its files.
const CHUNK: u64 = 1 << 20;

/// Why an inspection stops before the end.
#[derive(Debug, PartialEq, Eq, Drop)]
pub enum Halt {
    /// Want of memory.
    Memory,
    /// The device failed.
    Device,
    /// The sink failed.
    Sink,
    /// A field of a block breaks its rule, or a chain isn't whole. The block, counted from 0, begins at this offset of
    /// the log.
    Block { block: u64, byte: u64, at: u64 },
    /// The image of a page breaks the rule of the field that begins at this byte.
    Page { page: PageNo, byte: u64 },
}

impl Halt {
    /// Whether something breaks its rule.
    pub fn is_fault(&self) -> bool {
        match self {
            Halt::Memory | Halt::Device | Halt::Sink => false,
            Halt::Block { .. } | Halt::Page { .. } => true,
        }
    }
}

impl From<AllocError> for Halt {
    ghost from_gives = { λ _ halt. halt ≡ halts.Memory };

    fn from(_error: AllocError) -> Halt {
        Halt::Memory
    }
}

impl<T: Drop> From<AllocFailed<T>> for Halt {
    ghost from_gives = { λ _ halt. halt ≡ halts.Memory };

    fn from(_error: AllocFailed<T>) -> Halt {
        Halt::Memory
    }
}

impl fmt::Display for Halt {
    fn fmt<W: fmt::Write>(&self, f: &mut fmt::Formatter<W>) -> fmt::Result {
        match self {
            Halt::Memory => f.write_str("out of memory"),
            Halt::Device => f.write_str("input failed"),
            Halt::Sink => f.write_str("output failed"),
            Halt::Block { block, byte, at } => {
                let file = at.saturating_add(*byte) / CHUNK;
                write!(f, "bad log-{file} block={block} byte={byte}")
            }
            Halt::Page { page, byte } => write!(f, "bad pages.dat page={page} byte={byte}"),
        }
    }
}
