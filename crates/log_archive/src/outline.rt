//! A whole object of a run, read from the left.
ghost use Rattle.std.specs.Prelude.{◌≡◌, ◌+◌, ◌==◌};
ghost use Rattle.state_codec.specs.Gives.{Gives};
ghost use Rattle.log_archive.specs.Reading.{chunk_at, chunks_at, run_at};

use crate::directory::{Entry, Head, Outline};
use crate::head::{entries_at, head_at};
use crate::items::behind_items;
use crate::layout::{DIRECTORY_AT, ENTRY_BYTES, OFFSET_IN};
use state_codec::FieldFault;
use std::alloc::Global;

/// Whether an offset is where so many bytes are left of an object of this size.
fn is_place(size: usize, left: usize, offset: u64) -> bool
    ensures { result ≡ (offset + left == size) }
{
    left <= size && (size - left) as u64 == offset
}

/// What follows the items of an entry in an object of this size, of which so many entries stand before.
#[tactic(auto, unfolding(crate::specs::Reading::chunk_at))]
fn chunk_at(
    alloc: Global,
    size: usize,
    head: Head,
    place: usize,
    entry: Entry,
    bytes: &[u8],
) -> Result<&[u8], FieldFault>
    ensures { Gives (λ x. x.now) result (chunk_at size head place entry bytes.now) }
{
    if !is_place(size, bytes.len(), entry.offset) {
        let at = ENTRY_BYTES
            .saturating_mul(place)
            .saturating_add(DIRECTORY_AT + OFFSET_IN);
        return Err(FieldFault::Bad {
            left: size.saturating_sub(at),
        });
    }
    let above = head.first.saturating_sub(1);
    behind_items(alloc, entry.page, head.last, entry.count, above, bytes)
}

/// Reads the items of these entries in an object of this size, and gives 0.
fn chunks_at(
    alloc: Global,
    size: usize,
    head: Head,
    entries: &[Entry],
    bytes: &[u8],
) -> Result<u8, FieldFault>
    ensures { Gives (λ x. x) result (chunks_at size head 0 entries.now bytes.now) }
{
    let mut rest = bytes;
    for (place, entry) in entries.iter().enumerate() {
        rest = chunk_at(alloc, size, head, place, *entry, rest)?;
    }
    if rest.is_empty() {
        Ok(0)
    } else {
        Err(FieldFault::Bad { left: rest.len() })
    }
}

/// The head and the directory of this run, if all of its object keeps its form.
#[tactic(auto, unfolding(crate::specs::Reading::run_at))]
pub fn run_at(alloc: Global, run: u64, bytes: &[u8]) -> Result<Outline, FieldFault>
    ensures { Gives (λ x. x) result (run_at run bytes.now) }
{
    let (head, rest) = head_at(run, bytes)?;
    let (entries, rest) = entries_at(alloc, head.pages, rest)?;
    chunks_at(alloc, bytes.len(), head, entries.as_slice(), rest)?;
    Ok(Outline { head, entries })
}
