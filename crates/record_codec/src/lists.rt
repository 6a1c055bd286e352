//! The lists of a Checkpoint and of a BackupDone, each item read in sight of those before it.
ghost use Rattle.std.specs.Prelude.{◌≡◌, ◌&&◌, ℕ, List, []};
ghost use Rattle.std.specs.Int.{w8, w16, w32, w64};
ghost use Rattle.wal_record.specs.Rules.{is_number, is_page, is_page_count, rises_above};
ghost use Rattle.wal_record.specs.Reading.{any_number, number_at, items_at, list_at, page_head_at, open_write_at, unfinished_at, segment_at, run_at, page_lsn_at};
ghost use Rattle.state_codec.specs.Gives.{Gives};
ghost use Rattle.wal_record.specs.declared.analysis.Run.{Run};
ghost use Rattle.wal_record.specs.declared.record.OpenWrite.{OpenWrite};
ghost use Rattle.wal_record.specs.declared.record.Unfinished.{Unfinished};
ghost use Rattle.wal_record.specs.declared.record.PageLsn.{PageLsn};

use state_codec::{
    FieldFault, key_at, lsn_or_none_at, number_at, page_count_at, u16_at, u32_at, u32_in_front,
    u64_in_front,
};
use std::alloc::Global;
use store_model::{HIGHEST, List, MOST_PAGES};
use wal_record::{OpenWrite, PageHead, PageLsn, Run, Unfinished};

fn rises_above_open_write(before: &[OpenWrite], n: u64) -> bool
    ensures { result ≡ rises_above (λ (x : OpenWrite). x.lsn) before.now n }
{
    match before.last() {
        None => true,
        Some(last) => last.lsn < n,
    }
}

#[tactic(auto, unfolding(wal_record::specs::Reading::number_at))]
fn open_write_lsn_at<'a>(
    before: &[OpenWrite],
    bytes: &'a [u8],
) -> Result<(u64, &'a [u8]), FieldFault>
    ensures { Gives (λ x. (x.0, x.1.now)) result (number_at w64 (λ n. is_number n && rises_above (λ (x : OpenWrite). x.lsn) before.now n) bytes.now) }
{
    match u64_in_front(bytes) {
        Some((n, rest)) if n >= 1 && n <= HIGHEST && rises_above_open_write(before, n) => Ok((
            n, rest,
        )),
        _ => Err(FieldFault::Bad { left: bytes.len() }),
    }
}

fn rises_above_unfinished(before: &[Unfinished], n: u64) -> bool
    ensures { result ≡ rises_above (λ (x : Unfinished). x.tx) before.now n }
{
    match before.last() {
        None => true,
        Some(last) => last.tx < n,
    }
}

#[tactic(auto, unfolding(wal_record::specs::Reading::number_at))]
fn unfinished_tx_at<'a>(
    before: &[Unfinished],
    bytes: &'a [u8],
) -> Result<(u64, &'a [u8]), FieldFault>
    ensures { Gives (λ x. (x.0, x.1.now)) result (number_at w64 (λ n. is_number n && rises_above (λ (x : Unfinished). x.tx) before.now n) bytes.now) }
{
    match u64_in_front(bytes) {
        Some((n, rest)) if n >= 1 && n <= HIGHEST && rises_above_unfinished(before, n) => Ok((
            n, rest,
        )),
        _ => Err(FieldFault::Bad { left: bytes.len() }),
    }
}

fn rises_above_run(before: &[Run], n: u64) -> bool
    ensures { result ≡ rises_above (λ (x : Run). x.first) before.now n }
{
    match before.last() {
        None => true,
        Some(last) => last.first < n,
    }
}

#[tactic(auto, unfolding(wal_record::specs::Reading::number_at))]
fn run_first_at<'a>(before: &[Run], bytes: &'a [u8]) -> Result<(u64, &'a [u8]), FieldFault>
    ensures { Gives (λ x. (x.0, x.1.now)) result (number_at w64 (λ n. is_number n && rises_above (λ (x : Run). x.first) before.now n) bytes.now) }
{
    match u64_in_front(bytes) {
        Some((n, rest)) if n >= 1 && n <= HIGHEST && rises_above_run(before, n) => Ok((n, rest)),
        _ => Err(FieldFault::Bad { left: bytes.len() }),
    }
}

fn rises_above_page_lsn(before: &[PageLsn], n: u32) -> bool
    ensures { result ≡ rises_above (λ (x : PageLsn). x.page) before.now n }
{
    match before.last() {
        None => true,
        Some(last) => last.page < n,
    }
}

#[tactic(auto, unfolding(wal_record::specs::Reading::number_at))]
fn page_lsn_page_at<'a>(before: &[PageLsn], bytes: &'a [u8]) -> Result<(u32, &'a [u8]), FieldFault>
    ensures { Gives (λ x. (x.0, x.1.now)) result (number_at w32 (λ n. is_page n && rises_above (λ (x : PageLsn). x.page) before.now n) bytes.now) }
{
    match u32_in_front(bytes) {
        Some((n, rest)) if n >= 1 && n <= MOST_PAGES && rises_above_page_lsn(before, n) => Ok((
            n, rest,
        )),
        _ => Err(FieldFault::Bad { left: bytes.len() }),
    }
}

fn rises_above_segment(before: &[u32], n: u32) -> bool
    ensures { result ≡ rises_above (λ x. x) before.now n }
{
    match before.last() {
        None => true,
        Some(last) => *last < n,
    }
}

#[tactic(auto, unfolding(wal_record::specs::Reading::segment_at, wal_record::specs::Reading::number_at))]
fn segment_at<'a>(before: &[u32], bytes: &'a [u8]) -> Result<(u32, &'a [u8]), FieldFault>
    ensures { Gives (λ x. (x.0, x.1.now)) result (segment_at before.now bytes.now) }
{
    match u32_in_front(bytes) {
        Some((n, rest)) if rises_above_segment(before, n) => Ok((n, rest)),
        _ => Err(FieldFault::Bad { left: bytes.len() }),
    }
}

#[tactic(auto, unfolding(wal_record::specs::Reading::page_head_at))]
fn page_head_at<'a>(
    _before: &[PageHead],
    bytes: &'a [u8],
) -> Result<(PageHead, &'a [u8]), FieldFault>
    ensures { Gives (λ x. (x.0, x.1.now)) result (page_head_at _before.now bytes.now) }
{
    let (head, rest) = number_at(bytes)?;
    let (written, rest) = lsn_or_none_at(rest)?;
    let (backup, rest) = lsn_or_none_at(rest)?;
    let (backup_lsn, rest) = lsn_or_none_at(rest)?;
    let found = PageHead {
        head,
        written,
        backup,
        backup_lsn,
    };
    Ok((found, rest))
}

#[tactic(auto, unfolding(wal_record::specs::Reading::open_write_at))]
fn open_write_at<'a>(
    before: &[OpenWrite],
    bytes: &'a [u8],
) -> Result<(OpenWrite, &'a [u8]), FieldFault>
    ensures { Gives (λ x. (x.0, x.1.now)) result (open_write_at before.now bytes.now) }
{
    let (lsn, rest) = open_write_lsn_at(before, bytes)?;
    let (key, rest) = key_at(rest)?;
    Ok((OpenWrite { lsn, key }, rest))
}

#[tactic(auto, unfolding(wal_record::specs::Reading::unfinished_at))]
fn unfinished_at<'a>(
    alloc: Global,
    before: &[Unfinished],
    bytes: &'a [u8],
) -> Result<(Unfinished, &'a [u8]), FieldFault>
    ensures { Gives (λ x. (x.0, x.1.now)) result (unfinished_at before.now bytes.now) }
{
    let (tx, rest) = unfinished_tx_at(before, bytes)?;
    let (last, rest) = number_at(rest)?;
    let (undo_next, rest) = lsn_or_none_at(rest)?;
    let (writes, rest) = open_writes_at(alloc, rest)?;
    let found = Unfinished {
        tx,
        last,
        undo_next,
        writes,
    };
    Ok((found, rest))
}

#[tactic(auto, unfolding(wal_record::specs::Reading::run_at))]
fn run_at<'a>(before: &[Run], bytes: &'a [u8]) -> Result<(Run, &'a [u8]), FieldFault>
    ensures { Gives (λ x. (x.0, x.1.now)) result (run_at before.now bytes.now) }
{
    let (run, rest) = number_at(bytes)?;
    let (first, rest) = run_first_at(before, rest)?;
    let (last, rest) = number_at(rest)?;
    Ok((Run { run, first, last }, rest))
}

#[tactic(auto, unfolding(wal_record::specs::Reading::page_lsn_at))]
fn page_lsn_at<'a>(before: &[PageLsn], bytes: &'a [u8]) -> Result<(PageLsn, &'a [u8]), FieldFault>
    ensures { Gives (λ x. (x.0, x.1.now)) result (page_lsn_at before.now bytes.now) }
{
    let (page, rest) = page_lsn_page_at(before, bytes)?;
    let (lsn, rest) = number_at(rest)?;
    Ok((PageLsn { page, lsn }, rest))
}

fn page_heads_items<'a>(
    alloc: Global,
    count: u32,
    bytes: &'a [u8],
) -> Result<(List<PageHead>, &'a [u8]), FieldFault>
    ensures { Gives (λ x. (x.0, x.1.now)) result (items_at page_head_at count [] bytes.now) }
{
    let mut found = List::new(alloc);
    let mut rest = bytes;
    for _ in 0..count {
        let (item, after) = page_head_at(found.as_slice(), rest)?;
        found.push(item)?;
        rest = after;
    }
    Ok((found, rest))
}

#[inline(never)]
#[tactic(auto, unfolding(wal_record::specs::Reading::list_at))]
pub fn page_heads_at(alloc: Global, bytes: &[u8]) -> Result<(List<PageHead>, &[u8]), FieldFault>
    ensures { Gives (λ x. (x.0, x.1.now)) result (list_at w32 any_number page_head_at bytes.now) }
{
    let (count, rest) = u32_at(bytes)?;
    page_heads_items(alloc, count, rest)
}

fn open_writes_items<'a>(
    alloc: Global,
    count: u32,
    bytes: &'a [u8],
) -> Result<(List<OpenWrite>, &'a [u8]), FieldFault>
    ensures { Gives (λ x. (x.0, x.1.now)) result (items_at open_write_at count [] bytes.now) }
{
    let mut found = List::new(alloc);
    let mut rest = bytes;
    for _ in 0..count {
        let (item, after) = open_write_at(found.as_slice(), rest)?;
        found.push(item)?;
        rest = after;
    }
    Ok((found, rest))
}

#[tactic(auto, unfolding(wal_record::specs::Reading::list_at))]
fn open_writes_at(alloc: Global, bytes: &[u8]) -> Result<(List<OpenWrite>, &[u8]), FieldFault>
    ensures { Gives (λ x. (x.0, x.1.now)) result (list_at w32 any_number open_write_at bytes.now) }
{
    let (count, rest) = u32_at(bytes)?;
    open_writes_items(alloc, count, rest)
}

fn transactions_items<'a>(
    alloc: Global,
    count: u32,
    bytes: &'a [u8],
) -> Result<(List<Unfinished>, &'a [u8]), FieldFault>
    ensures { Gives (λ x. (x.0, x.1.now)) result (items_at unfinished_at count [] bytes.now) }
{
    let mut found = List::new(alloc);
    let mut rest = bytes;
    for _ in 0..count {
        let (item, after) = unfinished_at(alloc, found.as_slice(), rest)?;
        found.push(item)?;
        rest = after;
    }
    Ok((found, rest))
}

#[tactic(auto, unfolding(wal_record::specs::Reading::list_at))]
pub fn transactions_at(alloc: Global, bytes: &[u8]) -> Result<(List<Unfinished>, &[u8]), FieldFault>
    ensures { Gives (λ x. (x.0, x.1.now)) result (list_at w32 any_number unfinished_at bytes.now) }
{
    let (count, rest) = u32_at(bytes)?;
    transactions_items(alloc, count, rest)
}

fn segments_items<'a>(
    alloc: Global,
    count: u32,
    bytes: &'a [u8],
) -> Result<(List<u32>, &'a [u8]), FieldFault>
    ensures { Gives (λ x. (x.0, x.1.now)) result (items_at segment_at count [] bytes.now) }
{
    let mut found = List::new(alloc);
    let mut rest = bytes;
    for _ in 0..count {
        let (item, after) = segment_at(found.as_slice(), rest)?;
        found.push(item)?;
        rest = after;
    }
    Ok((found, rest))
}

#[tactic(auto, unfolding(wal_record::specs::Reading::list_at))]
pub fn segments_at(alloc: Global, bytes: &[u8]) -> Result<(List<u32>, &[u8]), FieldFault>
    ensures { Gives (λ x. (x.0, x.1.now)) result (list_at w32 any_number segment_at bytes.now) }
{
    let (count, rest) = u32_at(bytes)?;
    segments_items(alloc, count, rest)
}

fn runs_items<'a>(
    alloc: Global,
    count: u16,
    bytes: &'a [u8],
) -> Result<(List<Run>, &'a [u8]), FieldFault>
    ensures { Gives (λ x. (x.0, x.1.now)) result (items_at run_at count [] bytes.now) }
{
    let mut found = List::new(alloc);
    let mut rest = bytes;
    for _ in 0..count {
        let (item, after) = run_at(found.as_slice(), rest)?;
        found.push(item)?;
        rest = after;
    }
    Ok((found, rest))
}

#[tactic(auto, unfolding(wal_record::specs::Reading::list_at))]
pub fn runs_at(alloc: Global, bytes: &[u8]) -> Result<(List<Run>, &[u8]), FieldFault>
    ensures { Gives (λ x. (x.0, x.1.now)) result (list_at w16 any_number run_at bytes.now) }
{
    let (count, rest) = u16_at(bytes)?;
    runs_items(alloc, count, rest)
}

fn page_lsns_items<'a>(
    alloc: Global,
    count: u8,
    bytes: &'a [u8],
) -> Result<(List<PageLsn>, &'a [u8]), FieldFault>
    ensures { Gives (λ x. (x.0, x.1.now)) result (items_at page_lsn_at count [] bytes.now) }
{
    let mut found = List::new(alloc);
    let mut rest = bytes;
    for _ in 0..count {
        let (item, after) = page_lsn_at(found.as_slice(), rest)?;
        found.push(item)?;
        rest = after;
    }
    Ok((found, rest))
}

#[tactic(auto, unfolding(wal_record::specs::Reading::list_at))]
pub fn page_lsns_at(alloc: Global, bytes: &[u8]) -> Result<(List<PageLsn>, &[u8]), FieldFault>
    ensures { Gives (λ x. (x.0, x.1.now)) result (list_at w8 is_page_count page_lsn_at bytes.now) }
{
    let (count, rest) = page_count_at(bytes)?;
    page_lsns_items(alloc, count, rest)
}
