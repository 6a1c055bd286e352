//! A log of two pages, as a text.
ghost use Rattle.std.specs.Prelude.{IfSome};
ghost use Rattle.wal_record.specs.Rules.{HasSpelling};
ghost use Rattle.wal_record.specs.State.{KeepsState};

use media::PageBytes;
use page_image::open_page;
use record_codec::decode;
use state_codec::{put_state, state_at};
use std::alloc::Global;
use store_model::{Lsn, PageNo};
use wal_record::{PageState, Record};

/// The records from the LSN 1 on: the Format of page 1, two writes there, the Split that makes page 2, and a write there.
const RECORDS: [&str; 5] = [
    "01 00000064",
    "02 0000000000000001 0000000000000000 00000001 0000000000000001 0161 00 01000131",
    "02 0000000000000001 0000000000000002 00000001 0000000000000002 0162 00 01000132",
    "07 00000001 0000000000000003 00000002 00 0162 00 00 0001 0162 00 000132",
    "02 0000000000000001 0000000000000003 00000002 0000000000000004 0163 00 01000133",
];

/// The pages at their heads, and the second as its Split made it.
pub(crate) const FIRST: &str = "00 00 00 01 0162 00000002 0001 0161 00 000131";

pub(crate) const SECOND: &str = "00 0162 00 00 0002 0162 00 000132 0163 00 000133";

pub(crate) const MADE: &str = "00 0162 00 00 0001 0162 00 000132";

/// How many pages there are.
pub(crate) const PAGES: u32 = 2;

/// The LSN of the page's last record, 0 for a page that isn't there.
pub(crate) fn head_of(page: PageNo) -> Lsn {
    match page {
        1 => 4,
        2 => 5,
        _ => 0,
    }
}

fn bytes_of(alloc: Global, text: &str) -> Option<Vec<u8>> {
    let mut out = Vec::new(alloc);
    for word in text.split_whitespace() {
        out.extend_from_slice(&hex::decode(alloc, word).ok()?).ok()?;
    }
    Some(out)
}

/// The record of this LSN.
pub(crate) fn record_of(alloc: Global, lsn: Lsn) -> Option<Record>
    ensures { IfSome result HasSpelling }
{
    let text = RECORDS.get((lsn as usize).checked_sub(1)?)?;
    let bytes = bytes_of(alloc, text)?;
    match decode(alloc, &bytes) {
        Ok((found, _)) => Some(found),
        Err(_) => None,
    }
}

/// The state that these bytes spell.
fn state_in(alloc: Global, bytes: &[u8]) -> Option<PageState>
    ensures { IfSome result KeepsState }
{
    match state_at(alloc, bytes) {
        Ok((found, [])) => Some(found),
        _ => None,
    }
}

pub(crate) fn state_of(alloc: Global, text: &str) -> Option<PageState>
    ensures { IfSome result KeepsState }
{
    let bytes = bytes_of(alloc, text)?;
    state_in(alloc, &bytes)
}

/// Whether this is the state that the text spells.
pub(crate) fn is_state(alloc: Global, state: &PageState, text: &str) -> bool
    requires { KeepsState state.now }
{
    let mut out = Vec::new(alloc);
    let Some(wanted) = bytes_of(alloc, text) else {
        return false;
    };
    put_state(&mut out, state).is_ok() && out.as_slice() == wanted.as_slice()
}

/// The LSN of the page's image, if it is one and has this state.
pub(crate) fn image_lsn(alloc: Global, bytes: &PageBytes, page: PageNo, text: &str) -> Option<Lsn> {
    let sealed = open_page(alloc, bytes, page).ok()?;
    if is_state(alloc, &sealed.state, text) {
        Some(sealed.lsn)
    } else {
        None
    }
}
