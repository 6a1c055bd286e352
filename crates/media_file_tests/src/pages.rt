//! The data device.
use crate::folders::made;
use media::{PageBytes, PageDevice};
use media_file::{FilePages, Folder};
use std::fs;
use std::rt::Files;
use std::test::Fail;

/// A call of a device that has to pass, or what the device has to give.
#[derive(Clone, Copy)]
enum Step {
    /// A page of this byte alone is written.
    Write(u32, u8),
    Spoil(u32),
    Replace,
    /// The page has this byte alone.
    Has(u32, u8),
}

/// Whether a page has this byte alone.
fn has<D: PageDevice>(device: &mut D, page: u32, byte: u8) -> bool {
    let mut out: PageBytes = [1; 4096];
    device.read(page, &mut out).is_ok() && out.iter().all(|it| *it == byte)
}

/// Whether a step comes out so.
fn is_right<D: PageDevice>(device: &mut D, step: Step) -> bool {
    match step {
        Step::Write(page, byte) => device.write(page, &[byte; 4096]).is_ok(),
        Step::Spoil(page) => device.spoil(page).is_ok(),
        Step::Replace => device.replace().is_ok(),
        Step::Has(page, byte) => has(device, page, byte),
    }
}

/// Opens the pages of a folder and makes these steps. Whether each comes out so.
fn are_right<R: Files>(folder: &Folder<'_, R>, steps: &[Step]) -> bool {
    match FilePages::open(folder) {
        Ok(mut pages) => steps.iter().all(|step| is_right(&mut pages, *step)),
        Err(_) => false,
    }
}

/// The same in a new folder, with an opening for each list of steps.
fn holds(rt: &HostRuntime, path: &str, openings: &[&[Step]]) -> Result<bool, Fail> {
    made(rt, path)?;
    let folder = Folder::new(rt, rt.alloc(), path)?;
    let right = openings.iter().all(|steps| are_right(&folder, steps));
    fs::remove_dir_all(rt, path)?;
    Ok(right)
}

#[test]
fn pages_are_read_as_they_were_written(rt: HostRuntime) -> Result<(), Fail> {
    let writes = [Step::Has(2, 0), Step::Write(3, 7)];
    let more = [
        Step::Has(3, 7),
        Step::Has(2, 0),
        Step::Spoil(3),
        Step::Has(3, 0),
        Step::Write(3, 9),
        Step::Has(3, 9),
        Step::Replace,
        Step::Has(3, 0),
    ];
    let right = holds(&rt, "media_file_tests_pages", &[&writes, &more])?;
    assert!(rt; right);
    Ok(())
}

/// How many pages a folder has, where the second one has 100 bytes 7 and zero bytes behind them.
fn cut_pages<R: Files>(folder: &Folder<'_, R>) -> Option<u64> {
    let mut pages = FilePages::open(folder).ok()?;
    let mut out: PageBytes = [1; 4096];
    pages.read(2, &mut out).ok()?;
    let mut right: PageBytes = [0; 4096];
    right[..100].fill(7);
    if out == right {
        pages.count().ok()
    } else {
        None
    }
}

#[test]
fn what_a_cut_file_lacks_of_a_page_reads_as_zero_bytes(rt: HostRuntime) -> Result<(), Fail> {
    made(&rt, "media_file_tests_cut_page")?;
    let cut = [7u8; 4096 + 100];
    fs::write(&rt, "media_file_tests_cut_page/pages.dat", cut.as_slice())?;
    let folder = Folder::new(&rt, rt.alloc(), "media_file_tests_cut_page")?;
    assert!(rt; cut_pages(&folder) == Some(2));
    fs::remove_dir_all(&rt, "media_file_tests_cut_page")?;
    Ok(())
}
