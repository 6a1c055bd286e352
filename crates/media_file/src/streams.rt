//! The standard streams as a source and a sink.
ghost use Rattle.std.specs.Prelude.{◌≡◌, ◌≤◌, ◌-◌, ◌^◌, ℕ, min};

use media::{Failed, Sink, Source};
use std::io::{Read, Write};

/// A reader as a source. It counts what fails.
#[derive(Drop)]
pub struct StreamSource<R: Read> {
    pub reader: R,
    pub faults: u64,
}

impl<R: Read> Source for StreamSource<R> {
    ghost left = { λ source. R.remaining source.reader };

    ghost faults = { λ source. source.faults };

    fn read(&mut self, buf: &mut [u8]) -> Result<usize, Failed> {
        match self.reader.read(buf) {
            Ok(count) => Ok(count),
            Err(_) => {
                self.faults = self.faults.saturating_add(1);
                Err(Failed)
            }
        }
    }

    fn faults(&self) -> u64 {
        self.faults
    }
}

/// A writer as a sink. It counts what fails; to take nothing is to fail.
#[derive(Drop)]
pub struct StreamSink<W: Write> {
    pub writer: W,
    pub faults: u64,
}

impl<W: Write> Sink for StreamSink<W> {
    ghost told = { λ sink. W.contents sink.writer };

    ghost faults = { λ sink. sink.faults };

    fn write(&mut self, piece: &[u8]) -> Result<usize, Failed> {
        match self.writer.write(piece) {
            Ok(count) => {
                if count == 0 && !piece.is_empty() {
                    self.faults = self.faults.saturating_add(1);
                    Err(Failed)
                } else {
                    Ok(count)
                }
            }
            Err(_) => {
                self.faults = self.faults.saturating_add(1);
                Err(Failed)
            }
        }
    }

    fn faults(&self) -> u64 {
        self.faults
    }
}
