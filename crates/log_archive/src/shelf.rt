//! The items of each page, as they are gathered.
ghost use Rattle.std.specs.Prelude.{◌≡◌, ◌≤◌, ◌+◌, ◌-◌, ◌^◌, ◌||◌, min, ℕ, Some, List, [], ◌∷◌, ◌++◌, true, false, length, OnOk, IfOk, IfSome, IsTrue};
ghost use Rattle.store_model.specs.declared.limits.TheConstants.{MOST_PAGES};
ghost use Rattle.wal_record.specs.Chains.{names};
ghost use Rattle.wal_record.specs.Rules.{HasSpelling, is_page};
ghost use Rattle.log_archive.specs.Items.{on_page};
ghost use Rattle.log_archive.specs.Run.{item_bytes, items_bytes, items_size};
ghost use Rattle.log_archive.specs.Shelves.{Holds, and_item, is_that, nothing, on_shelf, shelf_at, with_more};
ghost use Rattle.log_archive.specs.declared.item.Numbered.{Numbered};

use crate::layout::MOST_BYTES;
use record_codec::encode;
use state_codec::{put_u32, put_u64};
use std::alloc::{AllocError, Global};
use std::marker::Model;
use store_model::{Lsn, Memory, PageNo};
use wal_record::Record;

/// The items of a page, spelled one behind the other.
#[derive(Drop)]
pub struct Shelf {
    pub count: u32,
    pub bytes: Vec<u8>,
}

impl Model for Shelf {
    ghost use Rattle.log_archive.specs.Shelves.{Shelved};

    ghost Value = { Shelved };

    ghost view = { λ s. record { count = s.count; bytes = s.bytes.items } };
}

impl Shelf {
    /// A page without items.
    fn new(alloc: Global) -> Shelf
        ensures { result ≡ nothing }
    {
        Shelf {
            count: 0,
            bytes: Vec::new(alloc),
        }
    }

    /// How many items it has.
    pub fn count(&self) -> u32
        ensures { result ≡ self.now.count }
    {
        self.count
    }

    /// Their bytes.
    pub fn as_bytes(&self) -> &[u8]
        ensures { result.now ≡ self.now.bytes }
    {
        self.bytes.as_slice()
    }

    /// So many items more.
    fn add(&mut self, count: u32, bytes: &[u8]) -> Result<(), Memory>
        ensures count { OnOk result (self.new.count ≡ self.old.count + count) }
        ensures bytes { OnOk result (self.new.bytes ≡ self.old.bytes ++ bytes.now) }
    {
        match self.count.checked_add(count) {
            Some(sum) => self.count = sum,
            None => return Err(Memory),
        }
        self.bytes.extend_from_slice(bytes)?;
        Ok(())
    }
}

/// There are shelves up to this place.
fn widen(alloc: Global, shelves: &mut Vec<Shelf>, place: usize) -> Result<(), Memory>
    requires { place ≤ 16384 }
    ensures same { (p : ℕ) → shelf_at shelves.new.items p ≡ shelf_at shelves.old.items p }
    ensures wide { OnOk result (place ≤ length shelves.new.items) }
    ensures few { length shelves.old.items ≤ 16384 → length shelves.new.items ≤ 16384 }
{
    for _ in shelves.len()..place {
        shelves.push(Shelf::new(alloc))?;
    }
    Ok(())
}

/// So many items of the page more.
pub fn add(
    alloc: Global,
    shelves: &mut Vec<Shelf>,
    page: PageNo,
    count: u32,
    bytes: &[u8],
) -> Result<(), Memory>
    requires page { IsTrue (is_page page) }
    ensures more { OnOk result ((p : ℕ) → shelf_at shelves.new.items p ≡ with_more page count bytes.now p (shelf_at shelves.old.items p)) }
    ensures few { length shelves.old.items ≤ 16384 → length shelves.new.items ≤ 16384 }
{
    let place = page as usize;
    widen(alloc, shelves, place)?;
    shelves[place - 1].add(count, bytes)
}

/// The bytes of an item.
pub fn item_of(alloc: Global, lsn: Lsn, rec: &Record) -> Result<Vec<u8>, Memory>
    requires { HasSpelling rec.now }
    ensures { IfOk result (λ bytes. bytes.items ≡ item_bytes (record { lsn = lsn; rec = rec.now })) }
{
    let mut spelled = Vec::new(alloc);
    encode(alloc, rec, &mut spelled)?;
    if spelled.len() > MOST_BYTES {
        return Err(Memory);
    }
    let mut bytes = Vec::with_capacity(alloc, spelled.len() + 12)?;
    put_u64(&mut bytes, lsn)?;
    put_u32(&mut bytes, spelled.len() as u32)?;
    bytes.extend_from_slice(&spelled)?;
    Ok(bytes)
}

/// The pages that a record names, each once.
fn pages_of(rec: &Record) -> (Option<PageNo>, Option<PageNo>)
    requires { HasSpelling rec.now }
    ensures named { (p : ℕ) → names p rec.now ≡ (is_that p result.0 || is_that p result.1) }
    ensures apart { (p : ℕ) → is_that p result.0 ≡ true → is_that p result.1 ≡ false }
    ensures pages { IfSome result.0 (λ p. IsTrue (is_page p)) × IfSome result.1 (λ p. IsTrue (is_page p)) }
{
    match rec {
        Record::Format(_) => (Some(1), None),
        Record::Write(write) => (Some(write.page), None),
        Record::Apply(apply) => (Some(apply.page), None),
        Record::Undo(undo) => (Some(undo.page), None),
        Record::Split(split) => both(split.page, split.child),
        Record::Adopt(adopt) => both(adopt.parent, adopt.fosterer),
        Record::Grow(grow) => both(1, grow.child),
        Record::Purge(purge) => (Some(purge.page), None),
        _ => (None, None),
    }
}

/// Two pages, or one twice.
fn both(page: PageNo, other: PageNo) -> (Option<PageNo>, Option<PageNo>)
    requires { IsTrue (is_page page) × IsTrue (is_page other) }
    ensures named { (p : ℕ) → (is_that p (Some page) || is_that p (Some other)) ≡ (is_that p result.0 || is_that p result.1) }
    ensures apart { (p : ℕ) → is_that p result.0 ≡ true → is_that p result.1 ≡ false }
    ensures pages { IfSome result.0 (λ p. IsTrue (is_page p)) × IfSome result.1 (λ p. IsTrue (is_page p)) }
{
    if page == other {
        (Some(page), None)
    } else {
        (Some(page), Some(other))
    }
}

/// An item on the shelf of its page, if it has one.
fn add_one(
    alloc: Global,
    shelves: &mut Vec<Shelf>,
    page: Option<PageNo>,
    bytes: &[u8],
) -> Result<(), Memory>
    requires { IfSome page (λ p. IsTrue (is_page p)) }
    ensures few { length shelves.old.items ≤ 16384 → length shelves.new.items ≤ 16384 }
    ensures more { OnOk result ((f : ℕ → List Numbered) (x : Numbered) → bytes.now ≡ item_bytes x → Holds shelves.old.items f → Holds shelves.new.items (and_item f page x)) }
{
    match page {
        None => Ok(()),
        Some(page) => add(alloc, shelves, page, 1, bytes),
    }
}

/// An item on the shelves of the pages that its record names.
pub fn add_record(
    alloc: Global,
    shelves: &mut Vec<Shelf>,
    rec: &Record,
    bytes: &[u8],
) -> Result<(), Memory>
    requires { HasSpelling rec.now }
    ensures few { length shelves.old.items ≤ 16384 → length shelves.new.items ≤ 16384 }
    ensures more { OnOk result ((items : List Numbered) (x : Numbered) → x.rec ≡ rec.now → bytes.now ≡ item_bytes x → Holds shelves.old.items (λ page. on_page page items) → Holds shelves.new.items (λ page. on_page page (items ++ x ∷ []))) }
{
    let (page, other) = pages_of(rec);
    add_one(alloc, shelves, page, bytes)?;
    add_one(alloc, shelves, other, bytes)?;
    Ok(())
}

/// So many bytes of items, with those of an item on the shelf of this page, where there is one.
fn with_shelf(size: usize, more: usize, page: Option<PageNo>) -> usize
    ensures { result ≡ min (size + on_shelf page more) (2 ^ 64 - 1) }
{
    match page {
        None => size,
        Some(_) => size.saturating_add(more),
    }
}

/// So many bytes of items, with those of an item on the shelf of each page that its record names.
pub fn size_with(size: usize, rec: &Record, more: usize) -> usize
    requires { HasSpelling rec.now }
    ensures { (items : List Numbered) (x : Numbered) → x.rec ≡ rec.now → more ≡ length (item_bytes x) → size ≡ items_size items → result ≡ min (items_size (items ++ x ∷ [])) (2 ^ 64 - 1) }
{
    let (page, other) = pages_of(rec);
    with_shelf(with_shelf(size, more, page), more, other)
}
