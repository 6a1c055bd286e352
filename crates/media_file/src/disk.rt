//! The log disk in chunk files.
ghost use Rattle.std.specs.Prelude.{◌≡◌, ◌+◌, ◌-◌, ◌≤◌, ◌<◌, ◌^◌, length, min, IfOk};
ghost use Rattle.media_file.specs.Extent.{Extent};

use crate::chunks::{CHUNK, Chunks};
use crate::faults::Faults;
use crate::folder::{Folder, read_full};
use media::{Disk, Failed};
use std::io;
use std::io::ErrorKind;
use std::marker::Model;
use std::rt::Files;
use store_model::number_in;

/// The file that has the offset of the first kept byte.
const START: &str = "log.start";

/// A log disk in the files of a folder.
#[derive(Drop)]
pub struct FileDisk<'a, R: Files> {
    folder: Folder<'a, R>,
    chunks: Chunks<'a, R>,
    start: u64,
    len: u64,
    faults: Faults,
}

impl<'a, R: Files> Model for FileDisk<'a, R> {
    ghost use Rattle.std.specs.Prelude.{◌<◌, ◌≤◌, ◌^◌};
    ghost use Rattle.media_file.specs.Extent.{Extent};

    ghost Value = { Extent };

    ghost view = { λ d. record { start = d.start; size = d.len; faults = d.faults } };

    ghost invariant = { λ d. (d.start ≤ d.len) × (d.len < 2 ^ 63) };
}

impl<'a, R: Files> FileDisk<'a, R> {
    /// The disk in this folder, blank where the folder has no log.
    pub fn open(folder: Folder<'a, R>) -> io::Result<FileDisk<'a, R>> {
        let chunks = Chunks::new(folder.again()?);
        let (start, len) = extent_in(&folder, &chunks)?;
        Ok(FileDisk {
            folder,
            chunks,
            start,
            len,
            faults: Faults::none(),
        })
    }
}

/// The offsets of the first kept byte and behind the last one.
fn extent_in<R: Files>(folder: &Folder<'_, R>, chunks: &Chunks<'_, R>) -> io::Result<(u64, u64)>
    ensures { IfOk result (λ at. (at.0 ≤ at.1) × (at.1 < 2 ^ 63)) }
{
    let start = start_in(folder)?;
    let len = len_from(chunks, start)?;
    if start > len || len >= 1 << 63 {
        return Err(io::Error::from(ErrorKind::InvalidData));
    }
    Ok((start, len))
}

/// The offset of the first kept byte, 0 where no file says it.
fn start_in<R: Files>(folder: &Folder<'_, R>) -> io::Result<u64> {
    let Some(mut file) = folder.find(START)? else {
        return Ok(0);
    };
    let mut text = [0u8; 20];
    let count = read_full(&mut file, &mut text)?;
    match number_in(&text[..count]) {
        Some(start) => Ok(start),
        None => Err(io::Error::from(ErrorKind::InvalidData)),
    }
}

/// The offset behind the last byte of the chunk files, from the chunk of an offset on. A chunk file that isn't full is the
/// last one.
fn len_from<R: Files>(chunks: &Chunks<'_, R>, start: u64) -> io::Result<u64> {
    let first = start / CHUNK;
    for number in first..u64::MAX / CHUNK {
        let size = match chunks.size(number)? {
            Some(size) => size.min(CHUNK),
            None => 0,
        };
        if size < CHUNK {
            let end = number * CHUNK + size;
            return Ok(end.max(start));
        }
    }
    Err(io::Error::from(ErrorKind::InvalidData))
}

impl<'a, R: Files> Disk for FileDisk<'a, R> {
    ghost use Rattle.std.specs.Prelude.{◌≡◌, ℕ, [], None};

    ghost tells = { ⊥ };

    ghost start = { λ d. d.start };

    ghost len = { λ d. d.size };

    ghost told = { λ d. record { start = d.start; bytes = [] } };

    ghost may_leave = { λ d c. ⊥ };

    ghost moment = { λ d. 0 };

    ghost left_since = { λ d t c. ⊥ };

    ghost faults = { λ d. d.faults };

    ghost own = { λ d. d.faults };

    ghost refused = { λ d. 0 };

    ghost passes = { λ d. None };

    ghost fuses = { ⊥ };

    ghost extent = { λ d t. absurd t };

    ghost counts_now = { λ d t c le now. now };

    ghost only_now = { λ d c left. left };

    fn start(&self) -> u64 {
        self.start
    }

    fn len(&self) -> u64 {
        self.len
    }

    fn read_at(&mut self, at: u64, buf: &mut [u8]) -> Result<usize, Failed> {
        let left = self.len.saturating_sub(at);
        let count = if (buf.len() as u64) < left {
            buf.len()
        } else {
            left as usize
        };
        let outcome = self.chunks.read(at, &mut buf[..count]);
        self.faults.told(outcome)?;
        Ok(count)
    }

    fn write_at(&mut self, at: u64, bytes: &[u8]) -> Result<(), Failed> {
        let outcome = self.chunks.write(at, bytes, self.len);
        self.faults.told(outcome)?;
        self.len = self.len.max(at + bytes.len() as u64);
        Ok(())
    }

    fn sync(&mut self) -> Result<(), Failed> {
        let outcome = self.chunks.sync();
        self.faults.told(outcome)
    }

    fn discard(&mut self, upto: u64) -> Result<(), Failed> {
        let outcome = keep_from(&self.folder, upto);
        self.faults.told(outcome)?;
        self.chunks.forget(self.start, upto);
        self.start = upto;
        Ok(())
    }

    fn power_cycle(&mut self, _keep: u64) {}

    fn fuse(&mut self, _n: Option<u64>) {}

    fn refused(&self) -> u64 {
        0
    }

    fn faults(&self) -> u64 {
        self.faults.count()
    }
}

/// The log begins at this offset from now on, also after a crash.
fn keep_from<R: Files>(folder: &Folder<'_, R>, start: u64) -> io::Result<()> {
    let text = format!(in folder.alloc(); "{start}")?;
    folder.put(START, text.as_bytes())?;
    folder.sync()
}
