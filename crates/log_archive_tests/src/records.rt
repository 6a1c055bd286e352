//! A log of three records.
ghost use Rattle.std.specs.Prelude.{◌≡◌, None};

use log_archive::Reads;
use std::alloc::Global;
use std::sync::Wait;
use store_model::{Fault, Key, Lsn, Value};
use wal_record::{Adopt, Format, Record, Write};

/// Makes its first page, writes a key on it, and adopts another one.
#[derive(Drop)]
pub struct Three;

impl Reads for Three {
    ghost use Rattle.std.specs.Prelude.{None};

    ghost answers = { λ t log. ⊥ };

    ghost log_faults = { λ t. 0 };

    ghost vault_faults = { λ t. 0 };

    ghost ended = { λ t. None };

    fn log_faults(&self) -> u64 {
        0
    }

    fn vault_faults(&self) -> u64 {
        0
    }

    fn read<W: Wait>(&mut self, _rt: &W, _alloc: Global, lsn: Lsn) -> Result<Record, Fault> {
        match (lsn, Key::new(b"k"), Key::new(b"m"), Value::new(b"v")) {
            (1, _, _, _) => Ok(Record::Format(Format { limit: 16384 })),
            (2, Some(key), _, Some(value)) => Ok(Record::Write(Write {
                tx: 1,
                prev: 0,
                page: 1,
                page_prev: 1,
                key,
                old: None,
                new: Some(value),
            })),
            (3, _, Some(key), _) => Ok(Record::Adopt(Adopt {
                parent: 1,
                parent_prev: 2,
                fosterer: 2,
                fosterer_prev: 1,
                child: 3,
                key,
            })),
            _ => Err(Fault::Memory),
        }
    }
}
