//! The room that a record takes.
ghost use Rattle.std.specs.Prelude.{◌≡◌, ◌↔◌, ◌<◌, ◌≤◌, ◌+◌, ◌-◌, ◌∷◌, ◌++◌, [], List, length, min, IsTrue};
ghost use Rattle.wal_record.specs.Chains.{tx_of};
ghost use Rattle.wal_record.specs.Checkpoints.{limit_of};
ghost use Rattle.wal_record.specs.OpenWrites.{open_writes, pending};
ghost use Rattle.wal_record.specs.Sound.{RoomRule, is_undo, spare, used};
ghost use Rattle.wal_record.specs.declared.record.Record.{Record};
ghost use Rattle.record_judge.specs.Judging.{IsRecordJudgeOf};
ghost use Rattle.record_judge.specs.Rules as rules;

use crate::judge::RecordJudge;
use store_model::TxId;
use wal_record::Record;

/// Whether so many pages and pending writes, and so many more, are at most so many.
fn is_within(pages: u64, pending: u64, more: u64, most: u64) -> bool
    ensures { IsTrue result ↔ (pages + pending + more ≤ most) }
{
    pages <= most && pending <= most - pages && more <= most - pages - pending
}

/// How many places the record takes.
fn added(entered: &Record) -> u64
    ensures { result ≡ rules.added entered.now }
{
    match entered {
        Record::Format(_) => 1,
        Record::Write(_) => 1,
        Record::Apply(_) => 1,
        Record::Split(_) => 1,
        Record::Grow(_) => 1,
        _ => 0,
    }
}

/// How many places more than there are the record may take.
fn spare(entered: &Record) -> u64
    ensures same { result ≡ spare entered.now }
    ensures few { result ≤ 1 }
{
    match entered {
        Record::Split(split) => { if split.child_state.level == 0 { 1 } else { 0 } }
        _ => 0,
    }
}

fn is_undo(entered: &Record) -> bool
    ensures { result ≡ is_undo entered.now }
{
    matches!(entered, Record::Undo(_))
}

/// One, where there is one.
fn at_most_one(count: u64) -> u64
    ensures { result ≡ min count 1 }
{
    count.min(1)
}

/// The limit that the first record of a log names.
fn first_limit(entered: &Record) -> u32
    ensures { result ≡ limit_of (entered.now ∷ []) }
{
    match entered {
        Record::Format(format) => format.limit,
        _ => 0,
    }
}

impl RecordJudge {
    /// How many open writes the transaction has.
    pub(crate) fn open_count(&self, tx: TxId) -> u64
        ensures { (log : List Record) → IsRecordJudgeOf log self.now → result ≡ length (open_writes log tx) }
    {
        self.chains.open_count(tx) as u64
    }

    /// How many places the record gives back.
    fn freed(&self, entered: &Record) -> u64
        ensures { (log : List Record) → IsRecordJudgeOf log self.now → result ≡ rules.freed (length (open_writes log (tx_of entered.now))) entered.now }
    {
        match entered {
            Record::Undo(undo) => at_most_one(self.open_count(undo.tx)),
            Record::Commit(commit) => self.open_count(commit.tx),
            Record::End(end) => self.open_count(end.tx),
            _ => 0,
        }
    }

    /// The limit of the store behind the record.
    fn limit_behind(&self, entered: &Record) -> u32
        ensures { (log : List Record) → IsRecordJudgeOf log self.now → result ≡ limit_of (log ++ entered.now ∷ []) }
    {
        if self.has_records() {
            self.listing.limit()
        } else {
            first_limit(entered)
        }
    }

    /// How many pages and pending writes there may be behind the record.
    fn most_behind(&self, entered: &Record) -> u64
        ensures { (log : List Record) → IsRecordJudgeOf log self.now → result ≡ limit_of (log ++ entered.now ∷ []) + spare entered.now }
    {
        u64::from(self.limit_behind(entered)) + spare(entered)
    }

    /// How many pending writes stay.
    fn pending_left(&self, entered: &Record) -> u64
        ensures { (log : List Record) → IsRecordJudgeOf log self.now → result ≡ pending log - rules.freed (length (open_writes log (tx_of entered.now))) entered.now }
    {
        self.listing.pending().saturating_sub(self.freed(entered))
    }

    /// Whether there is room for the record.
    fn fits(&self, entered: &Record) -> bool
        ensures { (log : List Record) → IsRecordJudgeOf log self.now → IsTrue result ↔ (used (log ++ entered.now ∷ []) ≤ limit_of (log ++ entered.now ∷ []) + spare entered.now) }
    {
        is_within(
            self.listing.pages() as u64,
            self.pending_left(entered),
            added(entered),
            self.most_behind(entered),
        )
    }

    /// Whether the log has its room.
    pub(crate) fn has_room(&self) -> bool
        ensures { (log : List Record) → IsRecordJudgeOf log self.now → IsTrue result ↔ (used log ≤ limit_of log) }
    {
        is_within(
            self.listing.pages() as u64,
            self.listing.pending(),
            0,
            u64::from(self.listing.limit()),
        )
    }

    /// Whether the record gives back what a split took more than there is, where one did.
    fn gives_back(&self, entered: &Record) -> bool
        ensures { (log : List Record) → IsRecordJudgeOf log self.now → IsTrue result ↔ (limit_of log < used log → IsTrue (is_undo entered.now)) }
    {
        is_undo(entered) || self.has_room()
    }

    /// Whether the record keeps the rule of room.
    pub(crate) fn keeps_room(&self, entered: &Record) -> bool
        ensures { (log : List Record) → IsRecordJudgeOf log self.now → IsTrue result ↔ RoomRule log entered.now }
    {
        self.gives_back(entered) && self.fits(entered)
    }
}
