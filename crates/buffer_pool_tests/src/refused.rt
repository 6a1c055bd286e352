//! A bring in want of memory. 'bench/refused_memory' runs it with each allocation failing in turn.
ghost use Rattle.std.specs.Prelude.{IfSome};
ghost use Rattle.wal_record.specs.State.{KeepsState};

use crate::life::HEAD;
use crate::tests::{AGAIN, run_with, written_as};
use media::PageDevice;
use media_mem::MemPages;
use page_image::seal;
use state_codec::state_at;
use std::alloc::Global;
use std::test::Fail;
use wal_record::PageState;

/// A leaf with all keys, whose foster child has those from `n` on, and the rows `a` to `d`.
const LEAF: &[u8] =
    b"\0\0\0\x01\x01n\0\0\0\x02\0\x04\x01a\0\0\x011\x01b\0\0\x012\x01c\0\0\x013\x01d\0\0\x014";

/// The one state that these bytes spell.
fn state_in(alloc: Global, bytes: &[u8]) -> Option<PageState>
    ensures { IfSome result KeepsState }
{
    match state_at(alloc, bytes) {
        Ok((found, [])) => Some(found),
        _ => None,
    }
}

/// A device with that leaf as page 1, at its head.
fn device_of(alloc: Global) -> Option<MemPages> {
    let state = state_in(alloc, LEAF)?;
    let mut device = MemPages::new(alloc);
    let bytes = seal(&state, 1, HEAD);
    device.write(1, &bytes).ok()?;
    Some(device)
}

/// Where the first bring is refused, the page isn't in its frame, and the next one has it there: its right was at home.
#[test]
fn a_bring_that_lacks_memory_is_made_again(rt: HostRuntime) -> Result<(), Fail> {
    let Some(device) = device_of(rt.alloc()) else {
        return Err(Fail::new("no fixture"));
    };
    let Ok(seen) = run_with(&rt, rt.alloc(), device, written_as(HEAD, AGAIN)) else {
        return Err(Fail::new("no fixture"));
    };
    match seen.done {
        [true, true, true, true] => Ok(()),
        [false, false, true, true] => Err(Fail::new("refused, and at home again")),
        _ => Err(Fail::new("the right is lost")),
    }
}
