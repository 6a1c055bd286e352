//! A folder of files.
ghost use Rattle.std.specs.Prelude.{◌≤◌, length, IfOk, IsTrue, OnOk};

use std::alloc::{AllocError, Global};
use std::fs::{OpenFile, OpenOptions, ReadDir};
use std::io::{ErrorKind, Read, Write};
use std::rt::Files;
use std::{fs, io};

/// A folder that is there, with the files of a device in it.
#[derive(Drop)]
pub struct Folder<'a, R: Files> {
    rt: &'a R,
    alloc: Global,
    path: String,
    /// Whether its files may be changed, and files may be made and removed.
    writes: bool,
}

impl<'a, R: Files> Folder<'a, R> {
    /// The folder at this path.
    pub fn new(rt: &'a R, alloc: Global, path: &str) -> Result<Folder<'a, R>, AllocError> {
        Ok(Folder {
            rt,
            alloc,
            path: String::from_str(alloc, path)?,
            writes: true,
        })
    }

    /// The folder at this path for reading alone: its files are opened for reading, and each call that would change
    /// the folder fails.
    pub fn for_reading(rt: &'a R, alloc: Global, path: &str) -> Result<Folder<'a, R>, AllocError> {
        Ok(Folder {
            rt,
            alloc,
            path: String::from_str(alloc, path)?,
            writes: false,
        })
    }

    /// The same folder once more.
    pub fn again(&self) -> Result<Folder<'a, R>, AllocError> {
        Ok(Folder {
            rt: self.rt,
            alloc: self.alloc,
            path: String::from_str(self.alloc, self.path.as_str())?,
            writes: self.writes,
        })
    }

    /// The folder of this name within it, which is made where it isn't there and may be.
    pub fn inner(&self, name: &str) -> io::Result<Folder<'a, R>> {
        let path = self.place(name)?;
        self.make_folder(path.as_str())?;
        Ok(Folder {
            rt: self.rt,
            alloc: self.alloc,
            path,
            writes: self.writes,
        })
    }

    /// Makes a folder within it, where none is there and one may be made.
    fn make_folder(&self, path: &str) -> io::Result<()> {
        if !self.writes || fs::exists(self.rt, path)? {
            return Ok(());
        }
        fs::create_dir(self.rt, path)?;
        self.sync()
    }

    /// What allocates for the folder's names.
    pub(crate) fn alloc(&self) -> Global {
        self.alloc
    }

    /// Where a file of this name stands.
    fn place(&self, name: &str) -> Result<String, AllocError> {
        format!(in self.alloc; "{}/{}", self.path, name)
    }

    /// The file of this name, for reading, and for writing where that may be. Where it isn't there it is made, if that
    /// is asked and may be.
    pub(crate) fn open(&self, name: &str, make: bool) -> io::Result<R::File> {
        let path = self.place(name)?;
        let mut options = OpenOptions::new();
        options.read(true);
        options.write(self.writes);
        options.create(make && self.writes);
        options.open(self.rt, path.as_str())
    }

    /// The file of this name, None where it isn't there.
    pub(crate) fn find(&self, name: &str) -> io::Result<Option<R::File>> {
        found(self.open(name, false))
    }

    /// Makes the names in it durable. Where it is read alone there is nothing to do.
    pub(crate) fn sync(&self) -> io::Result<()> {
        if !self.writes {
            return Ok(());
        }
        fs::open(self.rt, self.path.as_str())?.sync_all()
    }

    /// Puts a file in place of the one of this name, which stays whole until then. The name is durable after a sync of
    /// the folder.
    pub(crate) fn put(&self, name: &str, bytes: &[u8]) -> io::Result<()> {
        self.may_change()?;
        let beside = format!(in self.alloc; "{}/{}.new", self.path, name)?;
        self.put_file(beside.as_str(), bytes)?;
        let path = self.place(name)?;
        fs::rename(self.rt, beside.as_str(), path.as_str())
    }

    /// Makes a file of these bytes, which are durable then.
    fn put_file(&self, path: &str, bytes: &[u8]) -> io::Result<()> {
        let mut file = fs::create(self.rt, path)?;
        file.write_all(bytes)?;
        file.sync_all()
    }

    /// Removes the file of this name.
    pub(crate) fn remove(&self, name: &str) -> io::Result<()> {
        self.may_change()?;
        let path = self.place(name)?;
        fs::remove_file(self.rt, path.as_str())
    }

    /// It isn't read alone.
    fn may_change(&self) -> io::Result<()>
        ensures { OnOk result (IsTrue self.now.writes) }
    {
        if self.writes {
            Ok(())
        } else {
            Err(io::Error::from(ErrorKind::PermissionDenied))
        }
    }

    /// The names of its files, in no order; none where the folder isn't there.
    pub(crate) fn names(&self) -> io::Result<Vec<String>>
    where
        R: AllocGlobal + Clone + Drop,
    {
        match found(fs::read_dir(self.rt, self.path.as_str()))? {
            Some(entries) => names_of(self.alloc, entries),
            None => Ok(Vec::new(self.alloc)),
        }
    }
}

/// What a call found, None where it isn't there.
fn found<T: Drop>(outcome: io::Result<T>) -> io::Result<Option<T>> {
    match outcome {
        Ok(it) => Ok(Some(it)),
        Err(error) if error.kind() == ErrorKind::NotFound => Ok(None),
        Err(error) => Err(error),
    }
}

/// The names of a folder's files.
fn names_of<R: Files + AllocGlobal + Clone + Drop>(
    alloc: Global,
    entries: ReadDir<R, Global>,
) -> io::Result<Vec<String>> {
    let mut names = Vec::new(alloc);
    for entry in entries {
        names.push(String::from_str(alloc, entry?.file_name())?)?;
    }
    Ok(names)
}

/// Reads until the buffer is full or the file ends.
pub(crate) fn read_full<F: Read>(file: &mut F, buf: &mut [u8]) -> io::Result<usize>
    ensures { IfOk result (λ n. n ≤ length buf.new) }
{
    let mut done = 0;
    while done < buf.len() {
        let count = file.read(&mut buf[done..])?;
        if count == 0 {
            return Ok(done);
        }
        done += count;
    }
    Ok(done)
}
