//! The files of the system, watched.
use std::alloc::Allocator;
use std::cell::Cell;
use std::fs::{File, Metadata, OpenFile, OpenOptions};
use std::io;
use std::io::{ErrorKind, Read, Seek, SeekFrom, Write};
use std::rt::Files;

/// How many bytes a write takes at most.
const MOST: usize = 1000;

/// What was seen of the files, and how many bytes they take yet.
#[derive(Drop)]
pub struct Watch {
    pub file_syncs: Cell<u64>,
    pub folder_syncs: Cell<u64>,
    pub room: Cell<u64>,
}

impl Watch {
    /// Nothing was seen yet, and there is much room.
    pub fn new() -> Watch {
        Watch {
            file_syncs: Cell::new(0),
            folder_syncs: Cell::new(0),
            room: Cell::new(1 << 30),
        }
    }

    /// How often a file and a folder were synced.
    pub fn syncs(&self) -> (u64, u64) {
        (self.file_syncs.get(), self.folder_syncs.get())
    }
}

/// The files of the system, watched. A write takes 1,000 bytes at most, and fails where there is no room.
#[derive(Drop)]
pub struct Watched<'a> {
    pub rt: &'a HostRuntime,
    pub watch: &'a Watch,
}

/// A file that is watched.
#[derive(Drop)]
pub struct WatchedFile<'a> {
    file: File,
    watch: &'a Watch,
}

impl<'a> Read for WatchedFile<'a> {
    fn read(&mut self, buf: &mut [u8]) -> io::Result<usize> {
        self.file.read(buf)
    }
}

impl<'a> Write for WatchedFile<'a> {
    fn write(&mut self, buf: &[u8]) -> io::Result<usize> {
        let room = self.watch.room.get();
        let most = usize::try_from(room).unwrap_or(MOST).min(MOST);
        if most == 0 && !buf.is_empty() {
            return Err(io::Error::from(ErrorKind::StorageFull));
        }
        let count = self.file.write(&buf[..buf.len().min(most)])?;
        self.watch.room.set(room.saturating_sub(count as u64));
        Ok(count)
    }

    fn flush(&mut self) -> io::Result<()> {
        self.file.flush()
    }
}

impl<'a> Seek for WatchedFile<'a> {
    fn seek(&mut self, to: SeekFrom) -> io::Result<u64> {
        self.file.seek(to)
    }
}

impl<'a> OpenFile for WatchedFile<'a> {
    fn metadata(&self) -> io::Result<Metadata> {
        self.file.metadata()
    }

    fn set_len(&self, size: u64) -> io::Result<()> {
        self.file.set_len(size)
    }

    fn sync_all(&self) -> io::Result<()> {
        self.file.sync_all()?;
        let syncs = if self.file.metadata()?.is_dir() {
            &self.watch.folder_syncs
        } else {
            &self.watch.file_syncs
        };
        syncs.set(syncs.get().saturating_add(1));
        Ok(())
    }

    fn sync_data(&self) -> io::Result<()> {
        self.file.sync_data()
    }
}

impl<'a> Files for Watched<'a> {
    type File = WatchedFile<'a>;

    type Dir = <HostRuntime as Files>::Dir;

    fn open_file(&self, how: &OpenOptions, path: &str) -> io::Result<WatchedFile<'a>> {
        Ok(WatchedFile {
            file: self.rt.open_file(how, path)?,
            watch: self.watch,
        })
    }

    fn open_dir(&self, path: &str) -> io::Result<<HostRuntime as Files>::Dir> {
        self.rt.open_dir(path)
    }

    fn metadata(&self, path: &str) -> io::Result<Metadata> {
        Files::metadata(self.rt, path)
    }

    fn symlink_metadata(&self, path: &str) -> io::Result<Metadata> {
        self.rt.symlink_metadata(path)
    }

    fn copy(&self, from: &str, to: &str) -> io::Result<u64> {
        Files::copy(self.rt, from, to)
    }

    fn rename(&self, from: &str, to: &str) -> io::Result<()> {
        Files::rename(self.rt, from, to)
    }

    fn remove_file(&self, path: &str) -> io::Result<()> {
        self.rt.remove_file(path)
    }

    fn create_dir(&self, path: &str) -> io::Result<()> {
        self.rt.create_dir(path)
    }

    fn remove_dir(&self, path: &str) -> io::Result<()> {
        self.rt.remove_dir(path)
    }

    fn remove_dir_all<B: Allocator>(&self, alloc: B, path: &str) -> io::Result<()> {
        self.rt.remove_dir_all(alloc, path)
    }
}
