//! The vault in a folder.
ghost use Rattle.std.specs.Prelude.{◌≡◌};
ghost use Rattle.std.specs.Io.{ReadsAtMost};

use crate::faults::Faults;
use crate::folder::{Folder, read_full};
use media::{Failed, Vault};
use std::alloc::{AllocError, Global};
use std::io;
use std::io::{Seek, SeekFrom};
use std::marker::Model;
use std::rt::Files;
use store_model::{ObjectKind, ObjectName, number_in};

/// A vault in the folder `vault` of a folder, with a file for each object.
#[derive(Drop)]
pub struct FileVault<'a, R: Files> {
    folder: Folder<'a, R>,
    faults: Faults,
}

impl<'a, R: Files> Model for FileVault<'a, R> {
    ghost use Rattle.std.specs.Prelude.{ℕ};

    ghost Value = { ℕ };

    ghost view = { λ v. v.faults };
}

impl<'a, R: Files> FileVault<'a, R> {
    /// The vault in this folder, empty where the folder has none.
    pub fn open(folder: &Folder<'a, R>) -> io::Result<FileVault<'a, R>> {
        Ok(FileVault {
            folder: folder.inner("vault")?,
            faults: Faults::none(),
        })
    }

    /// The names of its objects, in no order.
    pub fn objects(&self) -> io::Result<Vec<ObjectName>>
    where
        R: AllocGlobal + Clone + Drop,
    {
        let names = self.folder.names()?;
        Ok(objects_of(self.folder.alloc(), names.as_slice())?)
    }

    /// The name of an object's file.
    fn file_of(&self, name: ObjectName) -> Result<String, AllocError> {
        match name.kind {
            ObjectKind::Run => format!(in self.folder.alloc(); "run-{}", name.id),
            ObjectKind::Backup => format!(in self.folder.alloc(); "bak-{}-{}", name.id, name.part),
        }
    }

    fn put_object(&self, name: ObjectName, bytes: &[u8]) -> io::Result<()> {
        self.folder.put(self.file_of(name)?.as_str(), bytes)
    }

    fn get_object(&self, name: ObjectName, from: u64, buf: &mut [u8]) -> io::Result<usize>
        ensures { ReadsAtMost result buf.new }
    {
        match self.folder.find(self.file_of(name)?.as_str())? {
            Some(mut file) => read_from(&mut file, from, buf),
            None => Ok(0),
        }
    }
}

/// Reads from an offset on until the buffer is full or the file ends.
fn read_from<F: io::Read + Seek>(file: &mut F, from: u64, buf: &mut [u8]) -> io::Result<usize>
    ensures { ReadsAtMost result buf.new }
{
    file.seek(SeekFrom::Start(from))?;
    read_full(file, buf)
}

/// The objects whose files have these names.
fn objects_of(alloc: Global, names: &[String]) -> Result<Vec<ObjectName>, AllocError> {
    let mut objects = Vec::new(alloc);
    for name in names {
        if let Some(object) = object_of(name.as_str()) {
            objects.push(object)?;
        }
    }
    Ok(objects)
}

/// The object whose file has this name.
fn object_of(name: &str) -> Option<ObjectName> {
    match name.split_once('-')? {
        ("run", id) => run_of(id),
        ("bak", rest) => backup_of(rest),
        _ => None,
    }
}

/// The run with the number that a text spells.
fn run_of(id: &str) -> Option<ObjectName> {
    Some(ObjectName {
        kind: ObjectKind::Run,
        id: number_in(id.as_bytes())?,
        part: 0,
    })
}

/// The part of a backup whose numbers a text spells.
fn backup_of(text: &str) -> Option<ObjectName> {
    let (id, part) = text.split_once('-')?;
    Some(ObjectName {
        kind: ObjectKind::Backup,
        id: number_in(id.as_bytes())?,
        part: part_of(part)?,
    })
}

fn part_of(text: &str) -> Option<u32> {
    u32::try_from(number_in(text.as_bytes())?).ok()
}

impl<'a, R: Files> Vault for FileVault<'a, R> {
    ghost use Rattle.std.specs.Prelude.{None};
    ghost use Rattle.media.specs.Objects.{Absent};

    ghost tells = { ⊥ };

    ghost told = { λ v name. Absent };

    ghost faults = { λ v. v };

    ghost own = { λ v. v };

    ghost refused = { λ v. 0 };

    ghost passes = { λ v. None };

    ghost fuses = { ⊥ };

    fn put(&mut self, name: ObjectName, bytes: &[u8]) -> Result<(), Failed> {
        let outcome = self.put_object(name, bytes);
        self.faults.told(outcome)
    }

    fn sync(&mut self) -> Result<(), Failed> {
        let outcome = self.folder.sync();
        self.faults.told(outcome)
    }

    fn get(&mut self, name: ObjectName, from: u64, buf: &mut [u8]) -> Result<usize, Failed> {
        let outcome = self.get_object(name, from, buf);
        self.faults.told(outcome)
    }

    fn power_cycle(&mut self) {}

    fn fuse(&mut self, _n: Option<u64>) {}

    fn refused(&self) -> u64 {
        0
    }

    fn faults(&self) -> u64 {
        self.faults.count()
    }
}
