//! The images of pages.
ghost use Rattle.std.specs.Prelude.{◌≤◌, OnOk};

use crate::halt::Halt;
use crate::printing::write_line;
use field_line::Line;
use media::{PageBytes, PageDevice, Sink};
use page_image::{PageFault, Sealed, open_page};
use record_line::put_state;
use std::alloc::{AllocError, Global};
use store_model::{Lsn, PAGE_BYTES, PageNo};

/// Where the number stands in an image.
const NUMBER_AT: u64 = 33;

/// Where the LSN stands in an image.
const LSN_AT: u64 = 37;

/// Writes a line for what the device gives for a page. An image is at fault whose LSN is above the last one of the log.
pub fn inspect_page<P: PageDevice, K: Sink>(
    alloc: Global,
    device: &mut P,
    page: PageNo,
    last: Lsn,
    sink: &mut K,
) -> Result<(), Halt> {
    let mut bytes: PageBytes = [0; PAGE_BYTES];
    match device.read(page, &mut bytes) {
        Ok(()) => {}
        Err(_) => return Err(Halt::Device),
    }
    if bytes.iter().all(|byte| *byte == 0) {
        return write_line(sink, unwritten_line(alloc, page)?);
    }
    match open_page(alloc, &bytes, page) {
        Ok(sealed) => {
            write_line(sink, page_line(alloc, page, &sealed)?)?;
            judge_lsn(page, sealed.lsn, last)
        }
        Err(fault) => Err(halt_of(page, &fault)),
    }
}

/// The LSN isn't above the log's last one.
fn judge_lsn(page: PageNo, lsn: Lsn, last: Lsn) -> Result<(), Halt>
    ensures { OnOk result (lsn ≤ last) }
{
    if lsn > last {
        return Err(Halt::Page { page, byte: LSN_AT });
    }
    Ok(())
}

/// Where an image breaks a rule.
fn halt_of(page: PageNo, fault: &PageFault) -> Halt {
    match fault {
        PageFault::Memory => Halt::Memory,
        PageFault::Digest => Halt::Page { page, byte: 0 },
        PageFault::Number => Halt::Page {
            page,
            byte: NUMBER_AT,
        },
        PageFault::Format { byte } => Halt::Page {
            page,
            byte: *byte as u64,
        },
    }
}

fn unwritten_line(alloc: Global, page: PageNo) -> Result<Line, AllocError> {
    let mut line = Line::new(alloc, "page")?;
    line.count(u64::from(page))?;
    line.word("unwritten")?;
    Ok(line)
}

fn page_line(alloc: Global, page: PageNo, sealed: &Sealed) -> Result<Line, AllocError> {
    let mut line = Line::new(alloc, "page")?;
    line.count(u64::from(page))?;
    line.number("lsn", sealed.lsn)?;
    put_state(&mut line, &sealed.state)?;
    Ok(line)
}
