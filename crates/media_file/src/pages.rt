//! The data device in a file.
ghost use Rattle.std.specs.Prelude.{◌≡◌};

use crate::faults::Faults;
use crate::folder::{Folder, read_full};
use media::{Failed, PageBytes, PageDevice};
use std::fs::OpenFile;
use std::io;
use std::io::{Seek, SeekFrom, Write};
use std::marker::Model;
use std::rt::Files;
use store_model::{PAGE_BYTES, PageNo};

/// The file that has the pages.
const PAGES: &str = "pages.dat";

/// A data device in a file of a folder. What was never written reads as zero bytes, which fail verification.
#[derive(Drop)]
pub struct FilePages<F> {
    file: F,
    faults: Faults,
}

impl<F> Model for FilePages<F> {
    ghost use Rattle.std.specs.Prelude.{ℕ};

    ghost Value = { ℕ };

    ghost view = { λ p. p.faults };
}

impl<F> FilePages<F> {
    /// The device in this folder, empty where the folder has no pages.
    pub fn open<R: Files<File = F>>(folder: &Folder<'_, R>) -> io::Result<FilePages<F>> {
        let file = folder.open(PAGES, true)?;
        folder.sync()?;
        Ok(FilePages {
            file,
            faults: Faults::none(),
        })
    }

    /// How many pages its file has bytes of. The last may be cut.
    pub fn count(&self) -> io::Result<u64>
    where
        F: OpenFile,
    {
        Ok(self.file.metadata()?.len().div_ceil(PAGE_BYTES as u64))
    }
}

/// Where a page stands in the file.
fn place_of(page: PageNo) -> u64 {
    u64::from(page).saturating_sub(1) * PAGE_BYTES as u64
}

fn read_page<F: io::Read + Seek>(
    file: &mut F,
    page: PageNo,
    out: &mut PageBytes,
) -> io::Result<()> {
    out.fill(0);
    file.seek(SeekFrom::Start(place_of(page)))?;
    let _count = read_full(file, out.as_mut_slice())?;
    Ok(())
}

fn write_page<F: Write + Seek>(file: &mut F, page: PageNo, bytes: &PageBytes) -> io::Result<()> {
    file.seek(SeekFrom::Start(place_of(page)))?;
    file.write_all(bytes.as_slice())
}

impl<F: io::Read + Write + Seek + OpenFile + Drop> PageDevice for FilePages<F> {
    ghost use Rattle.std.specs.Prelude.{None};
    ghost use Rattle.std.proofs.lemmas.Option.{none-some};

    ghost tells = { ⊥ };

    ghost told = { λ d p image. ⊥ };

    ghost newest = { λ d p. None };

    ghost spoiled = { λ d p. ⊥ };

    ghost faults = { λ d. d };

    ghost own = { λ d. d };

    ghost refused = { λ d. 0 };

    ghost passes = { λ d. None };

    ghost fuses = { ⊥ };

    ghost newest_told = { λ d p image is. none-some image is };

    fn read(&mut self, page: PageNo, out: &mut PageBytes) -> Result<(), Failed> {
        let outcome = read_page(&mut self.file, page, out);
        self.faults.told(outcome)
    }

    fn write(&mut self, page: PageNo, bytes: &PageBytes) -> Result<(), Failed> {
        let outcome = write_page(&mut self.file, page, bytes);
        self.faults.told(outcome)
    }

    fn replace(&mut self) -> Result<(), Failed> {
        let outcome = self.file.set_len(0);
        self.faults.told(outcome)
    }

    fn spoil(&mut self, page: PageNo) -> Result<(), Failed> {
        let outcome = write_page(&mut self.file, page, &[0u8; PAGE_BYTES]);
        self.faults.told(outcome)
    }

    fn fuse(&mut self, _n: Option<u64>) {}

    fn refused(&self) -> u64 {
        0
    }

    fn faults(&self) -> u64 {
        self.faults.count()
    }
}
