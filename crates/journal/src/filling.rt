//! Records added to the log, and small tests of numbers.
ghost use Rattle.std.specs.Prelude.{◌≡◌, ◌+◌, ◌<◌, ◌≤◌, ◌^◌, ◌++◌, List, [], ◌∷◌, ℕ, length, Bool, false, None, IfOk, OnOk, OnErr, IfSome, IsTrue};
ghost use Rattle.std.specs.List.{All};
ghost use Rattle.listed_log.specs.Listed.{IsLogWith, Joins};
ghost use Rattle.log_manager.specs.Payload.{bytes_of};
ghost use Rattle.wal_record.specs.Rules.{HasSpelling};
ghost use Rattle.stop_laws.specs.Stops.{WaitsInGroups};
ghost use Rattle.wal_record.specs.Sound.{AreLawful, HasRoom};
ghost use Rattle.wal_record.specs.declared.record.Record.{Record};
ghost use Rattle.wal_record.specs.declared.record.Record.TheVariants as kinds;

use books::PageRight;
use listed_log::ListedLog;
use media::Disk;
use page_ops::{Life, Said};
use std::alloc::Global;
use store_model::{HIGHEST, Lsn, Memory, PageNo};
use wal_record::{End, Record};

/// Adds the records of a group to the log, which may be none. Gives the LSN of the first, or the next one.
pub(crate) fn append_all<L: Disk>(
    log: &mut ListedLog<L>,
    alloc: Global,
    recs: &[Record],
) -> Result<Lsn, Memory>
    requires next { (2 ≤ log.old.log.log.next) × (log.old.log.log.next ≤ 2 ^ 62) }
    requires joins { Joins recs.now }
    requires spelled { All HasSpelling recs.now }
    requires size { length (bytes_of recs.now) ≤ 4194304 }
    ensures lsn { IfOk result (λ lsn. lsn ≡ log.old.log.log.next) }
    ensures more { (goes : ℕ → Bool) (rs : List Record) → IsLogWith L.tells L.told L.may_leave goes rs log.old.log log.old.listing → AreLawful (rs ++ recs.now) → length rs < 2 ^ 62
        → OnOk result (IsLogWith L.tells L.told L.may_leave goes (rs ++ recs.now) log.new.log log.new.listing) }
    ensures same { (goes : ℕ → Bool) (rs : List Record) → IsLogWith L.tells L.told L.may_leave goes rs log.old.log log.old.listing → OnErr result (IsLogWith L.tells L.told L.may_leave goes rs log.new.log log.new.listing) }
    ensures groups { (goes : ℕ → Bool) (rs : List Record) → IsLogWith L.tells L.told L.may_leave goes rs log.old.log log.old.listing → L.tells → log.old.log.log.ended ≡ None → WaitsInGroups log.old.log.log rs → HasRoom (rs ++ recs.now)
        → OnOk result (WaitsInGroups log.new.log.log (rs ++ recs.now)) }
    ensures kept { OnErr result (log.new.log ≡ log.old.log) }
    ensures device { log.new.log.log.device ≡ log.old.log.log.device }
    ensures spare { log.new.log.spare ≡ log.old.log.spare }
    ensures disk { (log.new.log.log.places ≡ log.old.log.log.places) × (log.new.log.log.ended ≡ log.old.log.log.ended) }
{
    if recs.is_empty() {
        return Ok(log.last() + 1);
    }
    match log.append_group(alloc, recs) {
        Ok(lsn) => Ok(lsn),
        Err(_) => Err(Memory),
    }
}

/// The End that these records are, alone and without an answer.
pub(crate) fn end_of(recs: &[Record], said: &Option<Said>) -> Option<End>
    ensures { IfSome result (λ end. (recs.now ≡ kinds.End end ∷ []) × (said.now ≡ None)) }
{
    if said.is_some() {
        return None;
    }
    match recs {
        [Record::End(end)] => Some(End {
            tx: end.tx,
            prev: end.prev,
        }),
        _ => None,
    }
}

/// The number of the page that a group makes, or that of any that isn't the root.
pub(crate) fn child_of<N: Life>(new: &Option<PageRight<N>>) -> PageNo
    ensures { IfSome new.now (λ p. result ≡ p.page) }
{
    match new {
        Some(right) => right.page(),
        None => 2,
    }
}

/// The LSN, or the highest one where that is less: of a log that is told there is none above that.
pub(crate) fn in_range(lsn: Lsn) -> Lsn
    ensures low { result < 2 ^ 63 }
    ensures same { lsn < 2 ^ 63 → result ≡ lsn }
{
    if lsn < HIGHEST { lsn } else { HIGHEST }
}

/// The number, or the highest one of its type where that is less: of a log that is told there is none above that.
pub(crate) fn number_of(count: u64) -> u32
    ensures { count < 2 ^ 32 → result ≡ count }
{
    match u32::try_from(count) {
        Ok(number) => number,
        Err(_) => u32::MAX,
    }
}
