//! A sink of bytes in memory.
ghost use Rattle.std.specs.Prelude.{◌≡◌, [], Some};
ghost use Rattle.media_mem.specs.Streams.{Streamed};

use crate::faults::Faults;
use media::{Failed, Sink};
use std::alloc::Global;
use std::marker::Model;

/// Keeps what is written to it.
#[derive(Drop)]
pub struct MemSink {
    bytes: Vec<u8>,
    faults: Faults,
}

impl Model for MemSink {
    ghost use Rattle.media_mem.specs.Streams.{Streamed};

    ghost Value = { Streamed };

    ghost view = { λ s. record { bytes = s.bytes.items; faults = s.faults } };
}

impl MemSink {
    /// Has no bytes, and fails only for want of memory.
    pub fn new(alloc: Global) -> MemSink
        ensures { result ≡ record { bytes = []; faults = 0 } }
    {
        MemSink::failing(alloc, Vec::new(alloc))
    }

    /// Has no bytes; the writes with these numbers fail.
    pub fn failing(alloc: Global, calls: Vec<u64>) -> MemSink
        ensures { result ≡ record { bytes = []; faults = 0 } }
    {
        MemSink {
            bytes: Vec::new(alloc),
            faults: Faults::new(calls),
        }
    }

    /// What was written.
    pub fn bytes(&self) -> &[u8]
        ensures { result.now ≡ self.now.bytes }
    {
        &self.bytes
    }
}

impl Sink for MemSink {
    ghost use Rattle.std.specs.Prelude.{Some};

    ghost told = { λ s. Some s.bytes };

    ghost faults = { λ s. s.faults };

    fn write(&mut self, piece: &[u8]) -> Result<usize, Failed> {
        self.faults.call()?;
        match self.bytes.extend_from_slice(piece) {
            Ok(()) => Ok(piece.len()),
            Err(_) => Err(self.faults.fail()),
        }
    }

    fn faults(&self) -> u64 {
        self.faults.count()
    }
}
