//! The chunk files of a log.
ghost use Rattle.std.specs.Prelude.{◌≡◌, ◌≤◌, ◌<◌, length, IfOk, vec_len};

use crate::folder::Folder;
use std::fs::OpenFile;
use std::io;
use std::io::{ErrorKind, Read, Seek, SeekFrom, Write};
use std::rt::Files;

/// How many bytes a chunk file has.
pub(crate) const CHUNK: u64 = 1 << 20;

/// A chunk file that is open, and whether it was written since it was synced.
#[derive(Drop)]
struct Chunk<F> {
    number: u64,
    file: F,
    written: bool,
}

impl<F: OpenFile + Read + Write + Seek> Chunk<F> {
    /// Reads bytes from a place in it on.
    fn read(&mut self, place: u64, out: &mut [u8]) -> io::Result<()>
        ensures { length out.new ≡ length out.old }
    {
        self.file.seek(SeekFrom::Start(place))?;
        self.file.read_exact(out)
    }

    /// Writes bytes from a place in it on.
    fn write(&mut self, place: u64, bytes: &[u8]) -> io::Result<()> {
        self.written = true;
        self.file.seek(SeekFrom::Start(place))?;
        self.file.write_all(bytes)
    }

    /// Makes what was written durable.
    fn sync(&mut self) -> io::Result<()> {
        if self.written {
            self.file.sync_all()?;
            self.written = false;
        }
        Ok(())
    }
}

/// The chunk files, of which those that were written, and one more, are open.
#[derive(Drop)]
pub(crate) struct Chunks<'a, R: Files> {
    folder: Folder<'a, R>,
    files: Vec<Chunk<R::File>>,
    /// Whether a name was made since the folder was synced.
    named: bool,
}

impl<'a, R: Files> Chunks<'a, R> {
    /// The chunk files in this folder.
    pub(crate) fn new(folder: Folder<'a, R>) -> Chunks<'a, R> {
        let files = Vec::new(folder.alloc());
        Chunks {
            folder,
            files,
            named: false,
        }
    }

    /// How many bytes the chunk file has, None where it isn't there.
    pub(crate) fn size(&self, number: u64) -> io::Result<Option<u64>> {
        match self.folder.find(self.name(number)?.as_str())? {
            Some(file) => Ok(Some(file.metadata()?.len())),
            None => Ok(None),
        }
    }

    /// Reads bytes from an offset of the log on.
    pub(crate) fn read(&mut self, at: u64, out: &mut [u8]) -> io::Result<()>
        ensures { length out.new ≡ length out.old }
    {
        let mut done = 0;
        while done < out.len() {
            done += self.read_some(at.saturating_add(done as u64), &mut out[done..])?;
        }
        Ok(())
    }

    /// Writes bytes from an offset of the log on, which ends at `len`.
    pub(crate) fn write(&mut self, at: u64, bytes: &[u8], len: u64) -> io::Result<()> {
        let mut done = 0;
        while done < bytes.len() {
            let place = at.saturating_add(done as u64);
            done += self.write_some(place, &bytes[done..], len <= place)?;
        }
        Ok(())
    }

    /// Reads bytes of one chunk from an offset of the log on, at least one where any is asked.
    fn read_some(&mut self, at: u64, out: &mut [u8]) -> io::Result<usize>
        ensures some { IfOk result (λ n. (n ≤ length out.new) × (0 < length out.old → 0 < n)) }
        ensures same { length out.new ≡ length out.old }
    {
        let place = at % CHUNK;
        let count = within(place, out.len());
        let i = self.opened(at / CHUNK, false)?;
        self.files[i].read(place, &mut out[..count])?;
        Ok(count)
    }

    /// Writes bytes of one chunk from an offset of the log on, at least one where any is given. Where a chunk begins there
    /// that has no byte of the log yet, what an earlier write may have left in it goes.
    fn write_some(&mut self, at: u64, bytes: &[u8], fresh: bool) -> io::Result<usize>
        ensures { IfOk result (λ n. (n ≤ length bytes.now) × (0 < length bytes.now → 0 < n)) }
    {
        let place = at % CHUNK;
        let count = within(place, bytes.len());
        let i = self.opened(at / CHUNK, true)?;
        if fresh && place == 0 {
            self.files[i].file.set_len(0)?;
        }
        self.files[i].write(place, &bytes[..count])?;
        Ok(count)
    }

    /// Makes all that was written durable.
    pub(crate) fn sync(&mut self) -> io::Result<()> {
        for chunk in self.files.iter_mut() {
            chunk.sync()?;
        }
        self.sync_names()?;
        self.close_all_but_last()
    }

    /// Makes the names that were made durable.
    fn sync_names(&mut self) -> io::Result<()> {
        if self.named {
            self.folder.sync()?;
            self.named = false;
        }
        Ok(())
    }

    /// Removes the chunk files that end at or before an offset, as far as they can be removed.
    pub(crate) fn forget(&mut self, from: u64, upto: u64) {
        for number in from / CHUNK..upto / CHUNK {
            let Ok(name) = self.name(number) else {
                return;
            };
            let _outcome = self.folder.remove(name.as_str());
        }
    }

    fn name(&self, number: u64) -> io::Result<String> {
        Ok(format!(in self.folder.alloc(); "log-{number}")?)
    }

    /// Closes the chunk files but the one that was opened last.
    fn close_all_but_last(&mut self) -> io::Result<()> {
        if let Some(last) = self.files.pop() {
            self.files.clear();
            self.files.push(last)?;
        }
        Ok(())
    }

    /// The place of the open chunk file with this number, which is opened where it isn't. For a write it is made where it
    /// isn't there.
    fn opened(&mut self, number: u64, write: bool) -> io::Result<usize>
        ensures { IfOk result (λ i. i < vec_len self.new.files) }
    {
        if let Some(i) = self.files.iter().position(|chunk| chunk.number == number) {
            return Ok(i);
        }
        let name = self.name(number)?;
        let file = match self.folder.find(name.as_str())? {
            Some(file) => file,
            None => self.make(name.as_str(), write)?,
        };
        self.files.push(Chunk {
            number,
            file,
            written: false,
        })?;
        Ok(self.files.len() - 1)
    }

    /// Makes the chunk file of this name, for a write.
    fn make(&mut self, name: &str, write: bool) -> io::Result<R::File> {
        if !write {
            return Err(io::Error::from(ErrorKind::NotFound));
        }
        self.named = true;
        self.folder.open(name, true)
    }
}

/// How many of so many bytes lie in one chunk from a place in it on.
fn within(place: u64, count: usize) -> usize
    requires { place < 1048576 }
    ensures { (result ≤ count) × (0 < count → 0 < result) }
{
    let room = (CHUNK - place) as usize;
    count.min(room)
}
