//! Where pages may be split, and to which page a branch leads.
ghost use Rattle.std.specs.Prelude.{◌≡◌, ◌↔◌, ◌<◌, ◌≤◌, ℕ, List, Option, Some, None, IsTrue, IfOk, slice_get};
ghost use Rattle.std.specs.List.{list_any};
ghost use Rattle.std.specs.Option.{option_copied};
ghost use Rattle.wal_record.specs.Images.{CanTakeChild, OnPage, image};
ghost use Rattle.wal_record.specs.Legal.{IsCrowded, MaySplit, leaf_only, split_key, split_step};
ghost use Rattle.wal_record.specs.Sound.{LeadsTo};
ghost use Rattle.wal_record.specs.State.{child_at, branch_rows, has_own, page_room, row_sizes, rows_size, split_point};
ghost use Rattle.wal_record.specs.declared.page.LeafRow.{LeafRow};
ghost use Rattle.wal_record.specs.declared.record.Adopt.{Adopt};
ghost use Rattle.wal_record.specs.declared.record.Record.{Record};
ghost use Rattle.wal_record.specs.declared.entry.Entry.TheVariants.{Rec};
ghost use Rattle.page_judge.specs.Images.{AreImagesOf};
ghost use Rattle.page_judge.specs.Splitting.{is_tombstone, key_at, low_at};

use crate::image::Image;
use crate::images::{PageImages, image_in};
use page_halves::child_of;
use page_rows::{free_bytes, split_point};
use std::alloc::Global;
use store_model::{Bound, Key, List, Memory, PageNo};
use wal_record::{Adopt, BranchRow, LeafRow, PageState, Record, Rows, Split};

/// Whether the key lies in the page's own part.
pub(crate) fn has_own(state: &PageState, key: &Key) -> bool
    ensures { result ≡ has_own state.now key.now }
{
    let above = match &state.foster {
        Some(foster) => key.cmp(&foster.key).is_lt(),
        None => state.high.is_above(key),
    };
    !state.low.is_above(key) && above
}

/// Whether the branch leads to this page for the key, which lies in its own part.
fn leads_to(image: &Image, key: &Key, page: PageNo) -> bool
    ensures { (a : Adopt) → a.key ≡ key.now → CanTakeChild a image.now → IsTrue result ↔ LeadsTo key.now page image.now }
{
    let state = image.state();
    if !has_own(state, key) {
        return false;
    }
    match &state.rows {
        Rows::Branch(_) => child_of(state, key.as_bytes()) == page,
        Rows::Leaf(_) => false,
    }
}

fn same_bound(a: &Bound, b: &Bound) -> bool
    ensures { IsTrue result ↔ (a.now ≡ b.now) }
{
    a == b
}

fn is_top(low: &Bound) -> bool
    ensures { IsTrue result ↔ (low.now ≡ None) }
{
    low.as_bytes().is_none()
}

/// Whether the bound is the text of the key.
fn is_bound_of(low: &Bound, key: &Key) -> bool
    ensures { IsTrue result ↔ (low.now ≡ Some key.now) }
{
    let at = Bound::of_key(key);
    same_bound(low, &at)
}

/// Whether the bound is the key of the row at this place, or the top where no row stands there.
fn is_key_at(rows: &[LeafRow], place: usize, low: &Bound) -> bool
    ensures { IsTrue result ↔ (low.now ≡ key_at rows.now place) }
{
    if place < rows.len() {
        is_bound_of(low, &rows[place].key)
    } else {
        is_top(low)
    }
}

/// Whether the bound is the separator of the row at this place, or the top where no row stands there.
fn is_low_at(rows: &[BranchRow], place: usize, low: &Bound) -> bool
    ensures { IsTrue result ↔ (low.now ≡ low_at rows.now place) }
{
    if place < rows.len() {
        same_bound(low, &rows[place].low)
    } else {
        is_top(low)
    }
}

/// Whether the rows from the split point on begin at this bound.
fn is_split_key(image: &Image, low: &Bound) -> bool
    ensures { IsTrue result ↔ (low.now ≡ split_key image.now.rows) }
{
    let place = split_point(image.state());
    match &image.state().rows {
        Rows::Leaf(rows) => is_key_at(rows.as_slice(), place, low),
        Rows::Branch(rows) => is_low_at(rows.as_slice(), place, low),
    }
}

fn any_tombstone(rows: &[LeafRow]) -> bool
    ensures { result ≡ list_any is_tombstone rows.now }
{
    rows.iter().any(|row| row.tombstone)
}

/// Whether the page has to be split before more fits: a leaf without tombstones, a branch with too little room.
fn is_crowded(image: &Image) -> bool
    ensures { IsTrue result ↔ IsCrowded image.now.rows image.now }
{
    match &image.state().rows {
        Rows::Leaf(rows) => !any_tombstone(rows.as_slice()),
        Rows::Branch(_) => free_bytes(image.state()) < 69,
    }
}

fn may_split(image: &Image, split: &Split) -> bool
    ensures { IsTrue result ↔ MaySplit split.now image.now }
{
    is_split_key(image, &split.child_state.low) && is_crowded(image)
}

/// The image again, where it is that of a leaf.
fn copied_leaf(alloc: Global, image: &Image) -> Result<Option<Image>, Memory>
    ensures { IfOk result (λ o. o ≡ leaf_only image.now.rows image.now) }
{
    match &image.state().rows {
        Rows::Leaf(_) => Ok(Some(image.copied(alloc)?)),
        Rows::Branch(_) => Ok(None),
    }
}

impl PageImages {
    /// Whether the parent of an adoption that is applicable leads to the fosterer.
    pub fn leads_to(&self, adopt: &Adopt) -> bool
        ensures { (log : List Record) → AreImagesOf log self.now → OnPage (CanTakeChild adopt.now) (image log adopt.now.parent) → IsTrue result ↔ OnPage (LeadsTo adopt.now.key adopt.now.fosterer) (image log adopt.now.parent) }
    {
        match image_in(&self.places, adopt.parent) {
            Some(image) => leads_to(image, &adopt.key, adopt.fosterer),
            None => false,
        }
    }

    /// Whether the page may be split there.
    pub fn may_split(&self, split: &Split) -> bool
        ensures { (log : List Record) → AreImagesOf log self.now → IsTrue result ↔ OnPage (MaySplit split.now) (image log split.now.page) }
    {
        match image_in(&self.places, split.page) {
            Some(image) => may_split(image, split),
            None => false,
        }
    }

    /// The leaf that the record splits, as it is before, where it splits one.
    pub fn split_leaf(&self, entered: &Record) -> Result<Option<Image>, Memory>
        ensures { (log : List Record) → (lsn : ℕ) → AreImagesOf log self.now → IfOk result (λ o. o ≡ split_step log (Rec lsn entered.now)) }
    {
        let Record::Split(split) = entered else {
            return Ok(None);
        };
        match image_in(&self.places, split.page) {
            Some(image) => copied_leaf(self.alloc, image),
            None => Ok(None),
        }
    }
}
