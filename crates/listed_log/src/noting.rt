//! One record or two that stand together, noted in a listing.
ghost use Rattle.std.specs.Prelude.{◌≡◌, ◌+◌, ◌<◌, ◌≤◌, ◌^◌, ◌++◌, ℕ, List, length, Bool, OnOk};
ghost use Rattle.std.specs.List.{All};
ghost use Rattle.log_index.specs.GoingOn.{KnowsLast};
ghost use Rattle.log_index.specs.Listing.{IsListingOf, noted};
ghost use Rattle.wal_record.specs.Rules.{HasSpelling};
ghost use Rattle.wal_record.specs.Sound.{AreLawful};
ghost use Rattle.wal_record.specs.declared.record.Record.{Record};
ghost use Rattle.listed_log.specs.Listed.{AreReady, Joins};

use log_index::Listing;
use store_model::{Lsn, Memory};
use wal_record::Record;

/// Makes room for the records in the listing.
pub(crate) fn prepare_all(listing: &mut Listing, recs: &[Record]) -> Result<(), Memory>
    requires few { 1 ≤ length recs.now }
    requires joins { Joins recs.now }
    ensures same { (log : List Record) → IsListingOf log listing.old → IsListingOf log listing.new }
    ensures noted { (q : ℕ) → noted listing.new q ≡ noted listing.old q }
    ensures ready { OnOk result (AreReady recs.now listing.new) }
{
    match recs {
        [one] => listing.prepare(one),
        [one, two] => {
            listing.prepare(one)?;
            listing.prepare(two)
        }
        _ => unreachable!(),
    }
}

/// Notes the records, the first of which has this LSN.
pub(crate) fn note_all(listing: &mut Listing, lsn: Lsn, recs: &[Record])
    requires few { 1 ≤ length recs.now }
    requires joins { Joins recs.now }
    requires spelled { All HasSpelling recs.now }
    requires ready { AreReady recs.now listing.old }
    ensures more { (log : List Record) → IsListingOf log listing.old → AreLawful (log ++ recs.now) → lsn ≡ length log + 1 → length log < 2 ^ 62 → IsListingOf (log ++ recs.now) listing.new }
    ensures noted { (goes : ℕ → Bool) (log : List Record) → lsn ≡ length log + 1 → length log < 2 ^ 62 → KnowsLast goes log listing.old → KnowsLast goes (log ++ recs.now) listing.new }
{
    match recs {
        [one] => listing.note(lsn, one),
        [one, two] => {
            listing.note(lsn, one);
            listing.note(lsn.saturating_add(1), two);
        }
        _ => unreachable!(),
    }
}
