//! Records of a group, filled in.
ghost use Rattle.std.specs.Prelude.{◌≡◌, ◌+◌, ◌<◌, ◌≤◌, ◌^◌, [], ◌∷◌, ◌++◌, ℕ, List, length, Bool, Some, false, slice_get, slice_set};
ghost use Rattle.std.specs.List.{list_any};
ghost use Rattle.asking_laws.specs.Entered.{fill_all};
ghost use Rattle.log_index.specs.Listing.{IsListingOf, noted};
ghost use Rattle.page_ops.specs.Groups as groups;
ghost use Rattle.page_ops.specs.Groups.{AreFilled, Each, place_of};
ghost use Rattle.wal_record.specs.Chains as chains;
ghost use Rattle.wal_record.specs.Chains.{head, link_of, pages};
ghost use Rattle.wal_record.specs.Checkpoints.{is_checkpoint};
ghost use Rattle.wal_record.specs.Sound.{AreLawful};
ghost use Rattle.wal_record.specs.declared.record.Record.{Record};
ghost use Rattle.group_filling.specs.Fields.{AreChained, ArePlaced, IsGoingOn, IsKnown, Joins, with_fields, with_two};
ghost use Rattle.group_filling.specs.Fields as fields;

use crate::fields::{Fields, NONE, fields_of, set_fields};
use life_history::head_after;
use log_index::Listing;
use std::slice;
use store_model::{List, Lsn, PageNo, TxId};
use wal_record::Record;

/// What stood in the fields of one record or two.
#[derive(Clone, Copy)]
pub struct Before {
    pub first: Fields,
    pub second: Fields,
}

/// The number by which the page that these records make goes in the group, if they make one.
pub fn made_by(recs: &[Record]) -> Option<PageNo>
    requires { length recs.now ≤ 2 }
    ensures { result ≡ groups.made_by recs.now }
{
    match recs {
        [] => None,
        [one] => child_of(one),
        [one, two] => match child_of(one) {
            Some(child) => Some(child),
            None => child_of(two),
        },
        _ => unreachable!(),
    }
}

fn child_of(rec: &Record) -> Option<PageNo>
    ensures { result ≡ groups.child_of rec.now }
{
    match rec {
        Record::Split(split) => Some(split.child),
        Record::Grow(grow) => Some(grow.child),
        _ => None,
    }
}

/// The number in the log for one in the group.
fn placed(made: Option<PageNo>, child: PageNo, page: PageNo) -> PageNo
    ensures { result ≡ place_of made child page }
{
    match made {
        Some(number) if number == page => child,
        _ => page,
    }
}

/// The head of a page behind the log of the listing and at most one record of this LSN.
fn head_behind(listing: &Listing, lsn: Lsn, before: &[Record], page: PageNo) -> Lsn
    requires few { length before.now ≤ 1 }
    requires fits { lsn + 1 < 2 ^ 63 }
    ensures { (log : List Record) → IsListingOf log listing.now → AreLawful log → lsn ≡ length log + 1 → result ≡ head (log ++ before.now) page }
{
    head_after(page, listing.head(page), lsn, before)
}

/// The transaction that the record names, 0 for none.
fn tx_of(rec: &Record) -> TxId
    ensures { result ≡ chains.tx_of rec.now }
{
    match rec {
        Record::Write(write) => write.tx,
        Record::Apply(apply) => apply.tx,
        Record::Undo(undo) => undo.tx,
        Record::Commit(commit) => commit.tx,
        Record::End(end) => end.tx,
        _ => 0,
    }
}

/// The page on whose chain the record comes next, 0 for none.
fn first_page(made: Option<PageNo>, child: PageNo, rec: &Record) -> PageNo
    ensures { result ≡ fields.first_page made child rec.now }
{
    match rec {
        Record::Write(write) => placed(made, child, write.page),
        Record::Apply(apply) => placed(made, child, apply.page),
        Record::Undo(undo) => placed(made, child, undo.page),
        Record::Split(split) => split.page,
        Record::Adopt(adopt) => adopt.parent,
        Record::Grow(_) => 1,
        Record::Purge(purge) => purge.page,
        _ => 0,
    }
}

/// Its second page, 0 for none.
fn second_page(rec: &Record) -> PageNo
    ensures { result ≡ fields.second_page rec.now }
{
    match rec {
        Record::Adopt(adopt) => adopt.fosterer,
        _ => 0,
    }
}

/// The fields of a record behind the log of the listing, whose next LSN is this one, and behind at most one record. The
/// page that its group makes gets this number. Fields that the record doesn't have may be any.
fn fields_for(
    listing: &Listing,
    lsn: Lsn,
    before: &[Record],
    made: Option<PageNo>,
    child: PageNo,
    rec: &Record,
) -> Fields
    requires few { length before.now ≤ 1 }
    requires fits { lsn + 1 < 2 ^ 63 }
    ensures placed { ArePlaced made child rec.now result }
    ensures chained { (goes : ℕ → Bool) (log : List Record) → IsKnown goes log listing.now → lsn ≡ length log + 1 → pages log < 2 ^ 32 → IsGoingOn goes log (link_of rec.now) → Joins (before.now ++ rec.now ∷ [])
        → AreChained (log ++ before.now) made child rec.now result }
{
    let first = first_page(made, child, rec);
    Fields {
        prev: listing.noted(tx_of(rec)),
        page: first,
        page_prev: head_behind(listing, lsn, before, first),
        other_prev: head_behind(listing, lsn, before, second_page(rec)),
        child,
        pages: count_of(listing),
    }
}

/// How many pages there are, or the most that a record can tell.
fn count_of(listing: &Listing) -> u32
    ensures { (log : List Record) → IsListingOf log listing.now → pages log < 2 ^ 32 → result ≡ pages log }
{
    match u32::try_from(listing.pages()) {
        Ok(pages) => pages,
        Err(_) => u32::MAX,
    }
}

/// Puts these fields into the record at a place. Gives what stood there.
fn set_at(recs: &mut List<Record>, i: usize, put: &Fields) -> Fields
    requires { i < length recs.old }
    ensures length { length recs.new ≡ length recs.old }
    ensures old { (r : Record) → slice_get recs.old i ≡ Some r → result ≡ fields.fields_of r }
    ensures set { (r : Record) → slice_get recs.old i ≡ Some r → recs.new ≡ slice_set recs.old i (with_fields put.now r) }
{
    let rec = recs.item_mut(i);
    let old = fields_of(rec);
    set_fields(rec, put);
    old
}

/// Fills the records in: no more than two, behind the log of the listing, whose next LSN is this one. Gives what stood in
/// their fields.
pub fn fill(
    listing: &Listing,
    lsn: Lsn,
    made: Option<PageNo>,
    child: PageNo,
    recs: &mut List<Record>,
) -> Before
    requires fits { lsn + 1 < 2 ^ 63 }
    requires joins { Joins recs.old }
    requires made { made ≡ groups.made_by recs.old }
    requires plain { list_any is_checkpoint recs.old ≡ false }
    ensures back { with_two result.first result.second recs.new ≡ recs.old }
    ensures filled { AreFilled child recs.old recs.new }
    ensures joins { (length recs.new ≤ 2) × Joins recs.new }
    ensures told { (goes : ℕ → Bool) (log : List Record) → IsKnown goes log listing.now → lsn ≡ length log + 1 → pages log < 2 ^ 32 → Each (λ r. IsGoingOn goes log (link_of r)) recs.old
        → recs.new ≡ fill_all log made child recs.old }
{
    let mut before = Before {
        first: NONE,
        second: NONE,
    };
    let count = recs.len();
    if count == 0 {
        return before;
    }
    let first = fields_for(listing, lsn, &[], made, child, &recs.as_slice()[0]);
    before.first = set_at(recs, 0, &first);
    if count == 1 {
        return before;
    }
    let second = {
        let both = recs.as_slice();
        let front = slice::from_ref(&both[0]);
        fields_for(listing, lsn, front, made, child, &both[1])
    };
    before.second = set_at(recs, 1, &second);
    before
}

/// Puts what stood in the fields of one record or two back.
pub fn put_back(recs: &mut List<Record>, before: &Before)
    requires { length recs.old ≤ 2 }
    ensures { recs.new ≡ with_two before.now.first before.now.second recs.old }
{
    let count = recs.len();
    if count == 0 {
        return;
    }
    let _ = set_at(recs, 0, &before.first);
    if count == 1 {
        return;
    }
    let _ = set_at(recs, 1, &before.second);
}
