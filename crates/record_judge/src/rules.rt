//! The rules that need no page.
ghost use Rattle.std.specs.Prelude.{◌≡◌, ◌↔◌, ◌<◌, ◌||◌, ◌∷◌, [], ℕ, List, Some, true, false, not, is_some, length, IsTrue};
ghost use Rattle.std.specs.FinMap as finite;
ghost use Rattle.std.specs.Option.{option_copied};
ghost use Rattle.store_model.specs.Operator.{meaning};
ghost use Rattle.wal_record.specs.Chains.{head, link_of, page_links};
ghost use Rattle.wal_record.specs.Checkpoints.{is_checkpoint};
ghost use Rattle.wal_record.specs.Contents.{current};
ghost use Rattle.wal_record.specs.OpenWrites.{has_items, open_writes};
ghost use Rattle.wal_record.specs.Sound.{LinkRule, PageRule, RoomRule, UpkeepRule, ValueRule, is_format};
ghost use Rattle.wal_record.specs.declared.record.Record.{Record};
ghost use Rattle.wal_record.specs.declared.record.Record.TheVariants as kinds;
ghost use Rattle.record_judge.specs.Judging.{IsRecordJudgeOf};
ghost use Rattle.record_judge.specs.Rules.{KeepsRules};

use crate::judge::RecordJudge;
use operators::Operators;
use store_model::{Key, Lsn, PageNo, TxId, Value};
use upkeep_judge::may_stand;
use wal_record::{Adopt, Apply, Record, Write};

fn is_format(entered: &Record) -> bool
    ensures { result ≡ is_format entered.now }
{
    matches!(entered, Record::Format(_))
}

/// Whether this is the value that was found.
fn is_value(found: Option<&Value>, told: &Option<Value>) -> bool
    ensures { IsTrue result ↔ (told.now ≡ option_copied found.entry) }
{
    match (found, told) {
        (None, None) => true,
        (Some(found), Some(told)) => *found == *told,
        _ => false,
    }
}

/// Whether the operator gives a value.
fn has_meaning(operators: &Operators, apply: &Apply) -> bool
    ensures { result ≡ is_some (meaning apply.now.operator apply.now.old apply.now.argument) }
{
    operators
        .apply(apply.operator, apply.old.as_ref(), &apply.argument)
        .is_some()
}

/// Whether there is a value before or after.
fn is_change(write: &Write) -> bool
    ensures { result ≡ (is_some write.now.old || is_some write.now.new) }
{
    write.old.is_some() || write.new.is_some()
}

/// Whether there are so many pages.
fn is_count(told: u32, pages: usize) -> bool
    ensures { IsTrue result ↔ (told ≡ pages) }
{
    told as usize == pages
}

fn is_zero(count: u64) -> bool
    ensures { IsTrue result ↔ (count ≡ 0) }
{
    count == 0
}

impl RecordJudge {
    /// Whether the log is empty.
    fn is_empty(&self) -> bool
        ensures { (log : List Record) → IsRecordJudgeOf log self.now → IsTrue result ↔ (length log ≡ 0) }
    {
        self.listing.last() == 0
    }

    /// Whether the log has a record.
    pub(crate) fn has_records(&self) -> bool
        ensures { (log : List Record) → IsRecordJudgeOf log self.now → IsTrue result ↔ (0 < length log) }
    {
        self.listing.last() > 0
    }

    /// Whether the record is a Format exactly where nothing stands before it.
    fn is_begun(&self, entered: &Record) -> bool
        ensures { (log : List Record) → IsRecordJudgeOf log self.now → IsTrue result ↔ (is_format entered.now ≡ not (has_items log)) }
    {
        if is_format(entered) {
            self.is_empty()
        } else {
            self.has_records()
        }
    }

    /// Whether the record goes on with its transaction.
    fn keeps_chain(&self, entered: &Record) -> bool
        ensures { (log : List Record) → IsRecordJudgeOf log self.now → IsTrue result ↔ LinkRule log (link_of entered.now) }
    {
        match entered {
            Record::Write(write) => self.chains.is_linked(write.tx, write.prev),
            Record::Apply(apply) => self.chains.is_linked(apply.tx, apply.prev),
            Record::Undo(undo) => self.chains.is_linked(undo.tx, undo.prev),
            Record::Commit(commit) => self.chains.is_linked(commit.tx, commit.prev),
            Record::End(end) => self.chains.is_linked(end.tx, end.prev),
            _ => true,
        }
    }

    /// Whether this is the page's head.
    fn is_head(&self, page: PageNo, prev: Lsn) -> bool
        ensures { (log : List Record) → IsRecordJudgeOf log self.now → IsTrue result ↔ (prev ≡ head log page) }
    {
        prev == self.listing.head(page)
    }

    /// Whether these are the heads of both pages.
    fn are_heads(&self, adopt: &Adopt) -> bool
        ensures { (log : List Record) → IsRecordJudgeOf log self.now → IsTrue result ↔ PageRule log (page_links (kinds.Adopt adopt.now)) }
    {
        self.is_head(adopt.parent, adopt.parent_prev)
            && self.is_head(adopt.fosterer, adopt.fosterer_prev)
    }

    /// Whether the record goes on with its pages.
    fn keeps_heads(&self, entered: &Record) -> bool
        ensures { (log : List Record) → IsRecordJudgeOf log self.now → IsTrue result ↔ PageRule log (page_links entered.now) }
    {
        match entered {
            Record::Write(write) => self.is_head(write.page, write.page_prev),
            Record::Apply(apply) => self.is_head(apply.page, apply.page_prev),
            Record::Undo(undo) => self.is_head(undo.page, undo.page_prev),
            Record::Split(split) => self.is_head(split.page, split.page_prev),
            Record::Adopt(adopt) => self.are_heads(adopt),
            Record::Grow(grow) => self.is_head(1, grow.page_prev),
            Record::Purge(purge) => self.is_head(purge.page, purge.page_prev),
            _ => true,
        }
    }

    /// Whether this is the key's current value.
    fn is_current(&self, key: &Key, old: &Option<Value>) -> bool
        ensures { (log : List Record) → IsRecordJudgeOf log self.now → IsTrue result ↔ (old.now ≡ finite.get (current log) key.now) }
    {
        is_value(self.contents.get(key), old)
    }

    fn keeps_write(&self, write: &Write) -> bool
        ensures { (log : List Record) → IsRecordJudgeOf log self.now → IsTrue result ↔ ValueRule log (kinds.Write write.now) }
    {
        self.chains.is_alone(&write.key, write.tx)
            && self.is_current(&write.key, &write.old)
            && is_change(write)
    }

    fn keeps_apply(&self, operators: &Operators, apply: &Apply) -> bool
        ensures { (log : List Record) → IsRecordJudgeOf log self.now → IsTrue result ↔ ValueRule log (kinds.Apply apply.now) }
    {
        self.chains.is_alone(&apply.key, apply.tx)
            && self.is_current(&apply.key, &apply.old)
            && has_meaning(operators, apply)
    }

    /// Whether the transaction has no open write.
    fn is_settled(&self, tx: TxId) -> bool
        ensures { (log : List Record) → IsRecordJudgeOf log self.now → IsTrue result ↔ (open_writes log tx ≡ []) }
    {
        is_zero(self.open_count(tx))
    }

    /// Whether the record keeps the rule of values.
    fn keeps_value(&self, operators: &Operators, entered: &Record) -> bool
        ensures { (log : List Record) → IsRecordJudgeOf log self.now → IsTrue result ↔ ValueRule log entered.now }
    {
        match entered {
            Record::Write(write) => self.keeps_write(write),
            Record::Apply(apply) => self.keeps_apply(operators, apply),
            Record::Undo(undo) => self.chains.takes_back(undo),
            Record::End(end) => self.is_settled(end.tx),
            _ => true,
        }
    }

    /// Whether a record that is no Checkpoint keeps the rule of upkeep.
    fn keeps_upkeep(&self, entered: &Record) -> bool
        ensures { (log : List Record) → IsRecordJudgeOf log self.now → is_checkpoint entered.now ≡ false → IsTrue result ↔ UpkeepRule log entered.now }
    {
        let last = self.listing.last();
        match entered {
            Record::Written(written) => self.names.names_at(last, written.lsn, written.page),
            Record::BackupDone(done) => self.backups.may_stand(&self.names, last, done),
            Record::Lost(lost) => is_count(lost.pages, self.listing.pages()),
            Record::Restored(restored) => self.listing.is_unrestored(restored.segment),
            Record::RunDone(done) => may_stand(
                self.listing.runs(),
                last,
                self.listing.next_run(),
                done,
            ),
            _ => true,
        }
    }

    /// Whether the record goes on with its transaction and its pages.
    fn keeps_links(&self, entered: &Record) -> bool
        ensures { (log : List Record) → IsRecordJudgeOf log self.now → IsTrue result ↔ (LinkRule log (link_of entered.now) × PageRule log (page_links entered.now)) }
    {
        self.keeps_chain(entered) && self.keeps_heads(entered)
    }

    /// Whether there is room for the record, and it keeps the rule of values.
    fn keeps_changes(&self, operators: &Operators, entered: &Record) -> bool
        ensures { (log : List Record) → IsRecordJudgeOf log self.now → IsTrue result ↔ (ValueRule log entered.now × RoomRule log entered.now) }
    {
        self.keeps_value(operators, entered) && self.keeps_room(entered)
    }

    fn keeps_most(&self, operators: &Operators, entered: &Record) -> bool
        ensures { (log : List Record) → IsRecordJudgeOf log self.now → IsTrue result ↔ ((LinkRule log (link_of entered.now) × PageRule log (page_links entered.now)) × (ValueRule log entered.now × RoomRule log entered.now)) }
    {
        self.keeps_links(entered) && self.keeps_changes(operators, entered)
    }

    /// Whether the record stands first only where it may, and keeps the rule of upkeep.
    fn keeps_place(&self, entered: &Record) -> bool
        ensures { (log : List Record) → IsRecordJudgeOf log self.now → is_checkpoint entered.now ≡ false → IsTrue result ↔ ((is_format entered.now ≡ not (has_items log)) × UpkeepRule log entered.now) }
    {
        self.is_begun(entered) && self.keeps_upkeep(entered)
    }

    /// Whether a record that is no Checkpoint keeps the rules that need no page.
    pub(crate) fn keeps_rules(&self, operators: &Operators, entered: &Record) -> bool
        ensures { (log : List Record) → IsRecordJudgeOf log self.now → is_checkpoint entered.now ≡ false → IsTrue result ↔ KeepsRules log entered.now }
    {
        self.keeps_place(entered) && self.keeps_most(operators, entered)
    }
}
