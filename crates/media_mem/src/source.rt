//! A source of bytes in memory.
ghost use Rattle.std.specs.Prelude.{◌≡◌, ◌≤◌, min, length, take, drop, [], Some};
ghost use Rattle.media_mem.specs.Streams.{Streamed};

use crate::copy::copy_out;
use crate::faults::Faults;
use media::{Failed, Source};
use std::alloc::Global;
use std::marker::Model;

/// Gives the bytes of a vector.
#[derive(Drop)]
pub struct MemSource {
    bytes: Vec<u8>,
    at: usize,
    faults: Faults,
}

impl Model for MemSource {
    ghost use Rattle.std.specs.Prelude.{◌≤◌, length, drop};
    ghost use Rattle.media_mem.specs.Streams.{Streamed};

    ghost Value = { Streamed };

    ghost view = { λ s. record { bytes = drop s.at s.bytes.items; faults = s.faults } };

    ghost invariant = { λ s. s.at ≤ length s.bytes.items };
}

impl MemSource {
    /// Gives these bytes, and fails only for want of memory, so never.
    pub fn new(alloc: Global, bytes: Vec<u8>) -> MemSource
        ensures { result ≡ record { bytes = bytes.items; faults = 0 } }
    {
        MemSource::failing(bytes, Vec::new(alloc))
    }

    /// Gives these bytes; the reads with these numbers fail.
    pub fn failing(bytes: Vec<u8>, calls: Vec<u64>) -> MemSource
        ensures { result ≡ record { bytes = bytes.items; faults = 0 } }
    {
        MemSource {
            bytes,
            at: 0,
            faults: Faults::new(calls),
        }
    }
}

impl Source for MemSource {
    ghost use Rattle.std.specs.Prelude.{Some};

    ghost left = { λ s. Some s.bytes };

    ghost faults = { λ s. s.faults };

    fn read(&mut self, buf: &mut [u8]) -> Result<usize, Failed> {
        self.faults.call()?;
        let n = copy_out(&self.bytes, self.at, buf);
        self.at += n;
        Ok(n)
    }

    fn faults(&self) -> u64 {
        self.faults.count()
    }
}
