//! Folders that aren't there, or may not be changed.
use media::{Disk, Failed};
use media_file::{FileDisk, FilePages, FileVault, Folder};
use std::fs;
use std::rt::Files;
use std::test::Fail;

/// Makes a new folder.
pub fn made(rt: &HostRuntime, path: &str) -> Result<(), Fail> {
    let _outcome = fs::remove_dir_all(rt, path);
    fs::create_dir(rt, path)?;
    Ok(())
}

/// The log of the folder, where it opens.
pub fn log_of<'a, R: Files>(folder: &Folder<'a, R>) -> Option<FileDisk<'a, R>> {
    FileDisk::open(folder.again().ok()?).ok()
}

/// Whether a log, pages and a vault open in the folder.
fn opens<R: Files>(folder: &Folder<'_, R>) -> [bool; 3] {
    let log = log_of(folder).is_some();
    let pages = FilePages::open(folder).is_ok();
    [log, pages, FileVault::open(folder).is_ok()]
}

/// Writes on a blank disk.
fn write<L: Disk>(disk: &mut L) -> Result<(), Failed> {
    if disk.start() != 0 {
        return Ok(());
    }
    disk.write_at(0, b"abc")
}

/// Where the log of the folder ends, whether it is written then, and its count of faults behind that.
fn written<R: Files>(folder: &Folder<'_, R>) -> Option<(u64, bool, u64)> {
    let mut disk = log_of(folder)?;
    let len = disk.len();
    let is_written = write(&mut disk).is_ok();
    Some((len, is_written, disk.faults()))
}

/// Its log reads as a blank disk.
#[test]
fn no_folder_has_no_devices(rt: HostRuntime) -> Result<(), Fail> {
    let folder = Folder::new(&rt, rt.alloc(), "media_file_tests_nowhere")?;
    assert!(rt; opens(&folder) == [true, false, false]);
    assert!(rt; written(&folder) == Some((0, false, 1)));
    Ok(())
}

#[test]
fn a_file_is_no_folder(rt: HostRuntime) -> Result<(), Fail> {
    fs::write(&rt, "media_file_tests_file", b"text".as_slice())?;
    let folder = Folder::new(&rt, rt.alloc(), "media_file_tests_file")?;
    assert!(rt; opens(&folder) == [false, false, false]);
    fs::remove_file(&rt, "media_file_tests_file")?;
    Ok(())
}

/// How many objects the vault of the folder has.
fn objects<R: Files + AllocGlobal + Clone + Drop>(folder: &Folder<'_, R>) -> Option<usize> {
    let vault = FileVault::open(folder).ok()?;
    Some(vault.objects().ok()?.len())
}

#[test]
fn a_folder_for_reading_is_not_changed(rt: HostRuntime) -> Result<(), Fail> {
    made(&rt, "media_file_tests_reading")?;
    let folder = Folder::for_reading(&rt, rt.alloc(), "media_file_tests_reading")?;
    assert!(rt; opens(&folder) == [true, false, true]);
    assert!(rt; written(&folder) == Some((0, false, 1)));
    assert!(rt; objects(&folder) == Some(0));
    fs::remove_dir(&rt, "media_file_tests_reading")?;
    Ok(())
}
