//! The items of a run, read.
ghost use Rattle.std.specs.Prelude.{◌≡◌, ◌++◌, ◌∷◌, [], nat_le, OnOk, IfErr, IfOk, if◌then◌else◌};
ghost use Rattle.std.specs.Int.{w64};
ghost use Rattle.std.specs.List.{All};
ghost use Rattle.wal_record.specs.Chains.{names};
ghost use Rattle.wal_record.specs.Reading.{number_at, record_at};
ghost use Rattle.state_codec.specs.Gives.{Gives};
ghost use Rattle.state_codec.specs.declared.fault.FieldFault.TheVariants as faults;
ghost use Rattle.log_archive.specs.Reading.{behind_items, collected, is_next_lsn, item_at, judged};
ghost use Rattle.log_archive.specs.Run.{IsSpelled};

use crate::item::Numbered;
use record_codec::{RecordFault, decode};
use state_codec::{FieldFault, u32_at, u64_in_front};
use std::alloc::Global;
use store_model::{Lsn, PageNo};
use wal_record::Record;

/// Whether a record names a page.
pub fn names(page: PageNo, entry: &Record) -> bool
    ensures { result ≡ names page entry.now }
{
    match entry {
        Record::Format(_) => page == 1,
        Record::Write(write) => page == write.page,
        Record::Apply(apply) => page == apply.page,
        Record::Undo(undo) => page == undo.page,
        Record::Split(split) => page == split.page || page == split.child,
        Record::Adopt(adopt) => page == adopt.parent || page == adopt.fosterer,
        Record::Grow(grow) => page == 1 || page == grow.child,
        Record::Purge(purge) => page == purge.page,
        _ => false,
    }
}

#[tactic(auto, unfolding(wal_record::specs::Reading::number_at))]
fn next_lsn_at(last: Lsn, above: Lsn, bytes: &[u8]) -> Result<(Lsn, &[u8]), FieldFault>
    ensures { Gives (λ x. (x.0, x.1.now)) result (number_at w64 (is_next_lsn last above) bytes.now) }
{
    match u64_in_front(bytes) {
        Some((lsn, rest)) if above < lsn && lsn <= last => Ok((lsn, rest)),
        _ => Err(FieldFault::Bad { left: bytes.len() }),
    }
}

/// The record of an item, whose length is told to be this, where so many bytes were left at that field.
fn judged(
    alloc: Global,
    page: PageNo,
    lsn: Lsn,
    size: u32,
    left: usize,
    bytes: &[u8],
) -> Result<(Numbered, &[u8]), FieldFault>
    ensures read { Gives (λ x. (x.0, x.1.now)) result (judged page lsn size left bytes.now (record_at bytes.now)) }
    ensures spelled { IfOk result (λ x. IsSpelled x.0) }
{
    match decode(alloc, bytes) {
        Ok((rec, length)) => {
            if length != size as usize {
                return Err(FieldFault::Bad { left });
            }
            if !names(page, &rec) {
                return Err(FieldFault::Bad { left: bytes.len() });
            }
            let (_, rest) = bytes.split_at(length);
            Ok((Numbered { lsn, rec }, rest))
        }
        Err(RecordFault::Memory) => Err(FieldFault::Memory),
        Err(RecordFault::Bad { byte }) => Err(FieldFault::Bad {
            left: bytes.len() - byte,
        }),
    }
}

/// An item of the page, above an LSN.
#[tactic(auto, unfolding(crate::specs::Reading::item_at))]
fn item_at(
    alloc: Global,
    page: PageNo,
    last: Lsn,
    above: Lsn,
    bytes: &[u8],
) -> Result<(Numbered, &[u8]), FieldFault>
    ensures read { Gives (λ x. (x.0, x.1.now)) result (item_at page last above bytes.now) }
    ensures spelled { IfOk result (λ x. IsSpelled x.0) }
{
    let (lsn, rest) = next_lsn_at(last, above, bytes)?;
    let (size, after) = u32_at(rest)?;
    judged(alloc, page, lsn, size, rest.len(), after)
}

/// What follows so many items of the page.
pub fn behind_items(
    alloc: Global,
    page: PageNo,
    last: Lsn,
    count: u32,
    above: Lsn,
    bytes: &[u8],
) -> Result<&[u8], FieldFault>
    ensures { Gives (λ x. x.now) result (behind_items page last count above bytes.now) }
{
    let mut rest = bytes;
    let mut low = above;
    for _ in 0..count {
        let (item, after) = item_at(alloc, page, last, low, rest)?;
        low = item.lsn;
        rest = after;
    }
    Ok(rest)
}

/// So many items of the page, those from an LSN on.
pub fn collect(
    alloc: Global,
    page: PageNo,
    last: Lsn,
    from: Lsn,
    count: u32,
    above: Lsn,
    bytes: &[u8],
) -> Result<Vec<Numbered>, FieldFault>
    ensures read { Gives (λ x. x.items) result (collected page last from count above [] bytes.now) }
    ensures spelled { IfOk result (λ found. All IsSpelled found.items) }
{
    let mut found = Vec::new(alloc);
    let mut rest = bytes;
    let mut low = above;
    for _ in 0..count {
        let (item, after) = item_at(alloc, page, last, low, rest)?;
        low = item.lsn;
        keep(&mut found, from, item)?;
        rest = after;
    }
    Ok(found)
}

/// An item more, if it has this LSN or a greater one.
fn keep(found: &mut Vec<Numbered>, from: Lsn, item: Numbered) -> Result<(), FieldFault>
    ensures kept { OnOk result (found.new.items ≡ (if nat_le from item.lsn then found.old.items ++ item ∷ [] else found.old.items)) }
    ensures memory { IfErr result (λ e. e ≡ faults.Memory) }
{
    if from <= item.lsn {
        found.push(item)?;
    }
    Ok(())
}
