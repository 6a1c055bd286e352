//! The head and the directory of a run, read.
ghost use Rattle.std.specs.Prelude.{◌≡◌, ℕ, List, [], nat_le};
ghost use Rattle.std.specs.Int.{w32, w64};
ghost use Rattle.wal_record.specs.Reading.{any_number, number_at, items_at};
ghost use Rattle.wal_record.specs.Rules.{is_number, rises_above};
ghost use Rattle.state_codec.specs.Gives.{Gives};
ghost use Rattle.log_archive.specs.Reading.{entry_at, head_at, is_count_of_pages, is_last, is_next_page};
ghost use Rattle.log_archive.specs.declared.directory.Entry.{Entry};

use crate::directory::{Entry, Head};
use crate::layout::MARK;
use state_codec::{FieldFault, number_at, u32_in_front, u64_at, u64_in_front};
use std::alloc::Global;
use store_model::{HIGHEST, List, Lsn, MOST_PAGES, PageNo};
use vault_objects::{this_u32_at, this_u64_at};

#[tactic(auto, unfolding(wal_record::specs::Reading::number_at))]
fn last_at(first: Lsn, bytes: &[u8]) -> Result<(Lsn, &[u8]), FieldFault>
    ensures { Gives (λ x. (x.0, x.1.now)) result (number_at w64 (is_last first) bytes.now) }
{
    match u64_in_front(bytes) {
        Some((last, rest)) if last >= 1 && last <= HIGHEST && first <= last => Ok((last, rest)),
        _ => Err(FieldFault::Bad { left: bytes.len() }),
    }
}

#[tactic(auto, unfolding(wal_record::specs::Reading::number_at))]
fn pages_at(bytes: &[u8]) -> Result<(u32, &[u8]), FieldFault>
    ensures { Gives (λ x. (x.0, x.1.now)) result (number_at w32 is_count_of_pages bytes.now) }
{
    match u32_in_front(bytes) {
        Some((pages, rest)) if pages <= MOST_PAGES => Ok((pages, rest)),
        _ => Err(FieldFault::Bad { left: bytes.len() }),
    }
}

/// The head of this run.
#[tactic(auto, unfolding(crate::specs::Reading::head_at))]
pub fn head_at(run: u64, bytes: &[u8]) -> Result<(Head, &[u8]), FieldFault>
    ensures { Gives (λ x. (x.0, x.1.now)) result (head_at run bytes.now) }
{
    let (_, rest) = this_u32_at(MARK, bytes)?;
    let (_, rest) = this_u64_at(run, rest)?;
    let (first, rest) = number_at(rest)?;
    let (last, rest) = last_at(first, rest)?;
    let (pages, rest) = pages_at(rest)?;
    Ok((Head { first, last, pages }, rest))
}

fn rises_above_entry(before: &[Entry], page: PageNo) -> bool
    ensures { result ≡ rises_above (λ (e : Entry). e.page) before.now page }
{
    match before.last() {
        None => true,
        Some(last) => last.page < page,
    }
}

#[tactic(auto, unfolding(wal_record::specs::Reading::number_at))]
fn next_page_at<'a>(before: &[Entry], bytes: &'a [u8]) -> Result<(PageNo, &'a [u8]), FieldFault>
    ensures { Gives (λ x. (x.0, x.1.now)) result (number_at w32 (is_next_page before.now) bytes.now) }
{
    match u32_in_front(bytes) {
        Some((page, rest)) if page >= 1 && page <= MOST_PAGES && rises_above_entry(before, page) =>
            { Ok((page, rest)) }
        _ => Err(FieldFault::Bad { left: bytes.len() }),
    }
}

#[tactic(auto, unfolding(wal_record::specs::Reading::number_at))]
fn count_at(bytes: &[u8]) -> Result<(u32, &[u8]), FieldFault>
    ensures { Gives (λ x. (x.0, x.1.now)) result (number_at w32 (nat_le 1) bytes.now) }
{
    match u32_in_front(bytes) {
        Some((count, rest)) if count >= 1 => Ok((count, rest)),
        _ => Err(FieldFault::Bad { left: bytes.len() }),
    }
}

#[tactic(auto, unfolding(crate::specs::Reading::entry_at))]
fn entry_at<'a>(before: &[Entry], bytes: &'a [u8]) -> Result<(Entry, &'a [u8]), FieldFault>
    ensures { Gives (λ x. (x.0, x.1.now)) result (entry_at before.now bytes.now) }
{
    let (page, rest) = next_page_at(before, bytes)?;
    let (count, rest) = count_at(rest)?;
    let (offset, rest) = u64_at(rest)?;
    let found = Entry {
        page,
        count,
        offset,
    };
    Ok((found, rest))
}

/// So many entries of the directory.
pub fn entries_at(
    alloc: Global,
    count: u32,
    bytes: &[u8],
) -> Result<(List<Entry>, &[u8]), FieldFault>
    ensures { Gives (λ x. (x.0, x.1.now)) result (items_at entry_at count [] bytes.now) }
{
    let mut found = List::new(alloc);
    let mut rest = bytes;
    for _ in 0..count {
        let (item, after) = entry_at(found.as_slice(), rest)?;
        found.push(item)?;
        rest = after;
    }
    Ok((found, rest))
}
