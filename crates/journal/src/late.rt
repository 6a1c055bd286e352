//! Who comes late: another one has undone the write, ended the loser or restored the segment first.
ghost use Rattle.std.specs.Prelude.{◌≡◌, List, true, IfSome, IfNone, IsTrue};
ghost use Rattle.std.specs.List.{list_any};
ghost use Rattle.page_ops.specs.Asking.{IsForestalled, IsLate, IsTimely, WasTimely, can_be_late};
ghost use Rattle.page_ops.specs.Groups.{Each};
ghost use Rattle.wal_record.specs.declared.entry.Entry.{Entry};
ghost use Rattle.wal_record.specs.declared.record.Record.{Record};
ghost use Rattle.wal_record.specs.declared.record.Record.TheVariants as kinds;
ghost use Rattle.journal.specs.Losers.{Tells};
ghost use Rattle.journal.specs.Restored.{Places};

use crate::restored::place_of;
use log_index::Listing;
use losers::Losers;
use std::collections::BTreeMap;
use store_model::Pos;
use wal_record::{End, Record, Undo};

/// Where the last Undo or End of the undo's transaction stands, if that is a loser whose last open write it doesn't take
/// back.
fn undone_first(listing: &Listing, losers: &Losers, undo: &Undo) -> Option<Pos>
    ensures none { IfNone result ((opening : List Record) (h : List Entry) (places : Places) → Tells opening h listing.now places losers.now → WasTimely opening h (kinds.Undo undo.now) → IsTimely opening h (kinds.Undo undo.now)) }
    ensures late { IfSome result (λ place. (opening : List Record) (h : List Entry) (places : Places) → Tells opening h listing.now places losers.now → IsForestalled opening h place (kinds.Undo undo.now)) }
{
    match losers.state(undo.tx) {
        Some(loser) if listing.undo_next(undo.tx) <= undo.undo_next => Some(loser.place),
        _ => None,
    }
}

/// Where the last Undo or End of the transaction stands, if that is a loser with an End.
fn ended_first(losers: &Losers, end: &End) -> Option<Pos>
    ensures none { IfNone result ((opening : List Record) (h : List Entry) (listing : Listing) (places : Places) → Tells opening h listing places losers.now → IsTimely opening h (kinds.End end.now)) }
    ensures late { IfSome result (λ place. (opening : List Record) (h : List Entry) (listing : Listing) (places : Places) → Tells opening h listing places losers.now → IsForestalled opening h place (kinds.End end.now)) }
{
    match losers.state(end.tx) {
        Some(loser) if loser.over => Some(loser.place),
        _ => None,
    }
}

/// Where the entry stands that came before the record, if one did.
fn came_first(
    listing: &Listing,
    places: &BTreeMap<u32, Pos>,
    losers: &Losers,
    rec: &Record,
) -> Option<Pos>
    ensures none { IfNone result ((opening : List Record) (h : List Entry) → Tells opening h listing.now places.now losers.now → WasTimely opening h rec.now → IsTimely opening h rec.now) }
    ensures late { IfSome result (λ place. (opening : List Record) (h : List Entry) → Tells opening h listing.now places.now losers.now → IsForestalled opening h place rec.now) }
    ensures kind { IfSome result (λ place. can_be_late rec.now ≡ true) }
{
    match rec {
        Record::Undo(undo) => undone_first(listing, losers, undo),
        Record::End(end) => ended_first(losers, end),
        Record::Restored(restored) => {
            if listing.is_unrestored(restored.segment) {
                None
            } else {
                Some(place_of(places, restored.segment))
            }
        }
        _ => None,
    }
}

/// Where the entry stands that came before one of these records, if one did.
pub(crate) fn first_late(
    listing: &Listing,
    places: &BTreeMap<u32, Pos>,
    losers: &Losers,
    recs: &[Record],
) -> Option<Pos>
    ensures none { IfNone result ((opening : List Record) (h : List Entry) → Tells opening h listing.now places.now losers.now → Each (WasTimely opening h) recs.now → Each (IsTimely opening h) recs.now) }
    ensures late { IfSome result (λ place. (opening : List Record) (h : List Entry) → Tells opening h listing.now places.now losers.now → IsLate opening h place recs.now) }
    ensures kind { IfSome result (λ place. IsTrue (list_any can_be_late recs.now)) }
{
    for rec in recs {
        if let Some(place) = came_first(listing, places, losers, rec) {
            return Some(place);
        }
    }
    None
}
