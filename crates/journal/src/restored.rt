//! Where each segment was restored last.
ghost use Rattle.std.specs.Prelude.{◌≡◌, ◌+◌, ◌<◌, ◌^◌, ◌++◌, ◌∷◌, [], List, Option, ℕ, suc, length, true, is_some, OnOk, ◌==◌, if◌then◌else◌};
ghost use Rattle.std.specs.Ordering.{nat_cmp};
ghost use Rattle.std.specs.BTreeMap.{get};
ghost use Rattle.page_ops.specs.Groups.{Each, group_entries};
ghost use Rattle.page_ops.specs.declared.group.Said.{Said};
ghost use Rattle.wal_record.specs.declared.entry.Entry.{Entry};
ghost use Rattle.wal_record.specs.declared.entry.Entry.TheVariants as entries;
ghost use Rattle.wal_record.specs.declared.record.Record.{Record};
ghost use Rattle.journal.specs.Restored.{AreRestored, HasRoomIn, place_in, restored_in};

use std::collections::BTreeMap;
use store_model::{Memory, Pos};
use wal_record::Record;

/// Where the segment was restored last, 0 for nowhere.
pub(crate) fn place_of(places: &BTreeMap<u32, Pos>, segment: u32) -> Pos
    ensures { result ≡ place_in places.now segment }
{
    match places.get(&segment) {
        Some(place) => *place,
        None => 0,
    }
}

/// The segment that the record says to be restored, if it says so of one.
fn restored_in(rec: &Record) -> Option<u32>
    ensures { result ≡ restored_in rec.now }
{
    match rec {
        Record::Restored(restored) => Some(restored.segment),
        _ => None,
    }
}

/// Makes room for the place of a segment.
fn make_room(places: &mut BTreeMap<u32, Pos>, segment: u32) -> Result<(), Memory>
    ensures same { (s : ℕ) → place_in places.new s ≡ place_in places.old s }
    ensures room { OnOk result (is_some (get nat_cmp places.new segment) ≡ true) }
    ensures kept { (s : ℕ) → is_some (get nat_cmp places.old s) ≡ true → is_some (get nat_cmp places.new s) ≡ true }
{
    if let Some(_place) = places.get(&segment) {
        return Ok(());
    }
    places.insert(segment, 0)?;
    Ok(())
}

/// The segment was restored here.
fn set_place(places: &mut BTreeMap<u32, Pos>, segment: u32, place: Pos)
    requires { is_some (get nat_cmp places.old segment) ≡ true }
    ensures places { (s : ℕ) → place_in places.new s ≡ (if segment == s then place else place_in places.old s) }
    ensures kept { (s : ℕ) → is_some (get nat_cmp places.old s) ≡ true → is_some (get nat_cmp places.new s) ≡ true }
{
    match places.get_mut(&segment) {
        Some(found) => *found = place,
        None => unreachable!(),
    }
}

/// Makes room for where a record stands.
fn prepare(places: &mut BTreeMap<u32, Pos>, rec: &Record) -> Result<(), Memory>
    ensures same { (s : ℕ) → place_in places.new s ≡ place_in places.old s }
    ensures room { OnOk result (HasRoomIn places.new rec.now) }
    ensures kept { (r : Record) → HasRoomIn places.old r → HasRoomIn places.new r }
{
    match restored_in(rec) {
        Some(segment) => make_room(places, segment),
        None => Ok(()),
    }
}

/// Makes room for where the records of a group stand.
pub(crate) fn prepare_group(places: &mut BTreeMap<u32, Pos>, recs: &[Record]) -> Result<(), Memory>
    ensures same { (s : ℕ) → place_in places.new s ≡ place_in places.old s }
    ensures room { OnOk result (Each (HasRoomIn places.new) recs.now) }
{
    for rec in recs {
        prepare(places, rec)?;
    }
    Ok(())
}

/// The record stands here.
fn note(places: &mut BTreeMap<u32, Pos>, place: Pos, rec: &Record)
    requires { HasRoomIn places.old rec.now }
    ensures more { (h : List Entry) (lsn : ℕ) → AreRestored h places.old → place ≡ suc (length h) → AreRestored (h ++ entries.Rec lsn rec.now ∷ []) places.new }
    ensures kept { (r : Record) → HasRoomIn places.old r → HasRoomIn places.new r }
{
    match restored_in(rec) {
        Some(segment) => set_place(places, segment, place),
        None => {}
    }
}

/// The records of a group stand behind so many entries.
pub(crate) fn note_group(places: &mut BTreeMap<u32, Pos>, before: u64, recs: &[Record])
    requires room { Each (HasRoomIn places.old) recs.now }
    requires fits { before + length recs.now < 2 ^ 64 }
    ensures { (h : List Entry) (lsn : ℕ) (said : Option Said) → AreRestored h places.old → before ≡ length h → AreRestored (h ++ group_entries lsn recs.now said) places.new }
{
    let mut place = before;
    for rec in recs {
        place += 1;
        note(places, place, rec);
    }
}
