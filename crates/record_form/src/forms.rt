//! Records against the rules of their fields.
ghost use Rattle.std.specs.Prelude.{◌≡◌, ◌↔◌, ◌&&◌, IsTrue, false};
ghost use Rattle.wal_record.specs.Checkpoints.{is_checkpoint};
ghost use Rattle.wal_record.specs.Rules.{HasSpelling, KeepsBackupDone, KeepsGrow, KeepsSplit};
ghost use Rattle.wal_record.specs.Rules as rules;
ghost use Rattle.record_form.specs.Forms as forms;

use crate::backup::{are_page_lsns, is_page_count};
use crate::bytes::keeps_state;
use crate::fields::{
    is_argument, is_change, is_child, is_key, is_limit, is_lsn_or_none, is_maybe_value, is_number,
    is_page, is_u8, is_u32,
};
use store_model::{Lsn, PageNo, TxId};
use wal_record::{Adopt, Apply, BackupDone, Grow, Record, RunDone, Split, Undo, Write};

fn write_fits(entered: &Write) -> bool
    ensures { result ≡ forms.write_fits entered.now }
{
    is_number(entered.tx)
        && is_lsn_or_none(entered.prev)
        && is_page(entered.page)
        && is_lsn_or_none(entered.page_prev)
        && is_key(&entered.key)
        && is_maybe_value(&entered.old)
        && is_maybe_value(&entered.new)
        && is_change(&entered.old, &entered.new)
}

fn apply_fits(entered: &Apply) -> bool
    ensures { result ≡ forms.apply_fits entered.now }
{
    is_number(entered.tx)
        && is_lsn_or_none(entered.prev)
        && is_page(entered.page)
        && is_lsn_or_none(entered.page_prev)
        && is_key(&entered.key)
        && is_u8(entered.operator)
        && is_argument(&entered.argument)
        && is_maybe_value(&entered.old)
}

fn undo_fits(entered: &Undo) -> bool
    ensures { result ≡ forms.undo_fits entered.now }
{
    is_number(entered.tx)
        && is_lsn_or_none(entered.prev)
        && is_page(entered.page)
        && is_lsn_or_none(entered.page_prev)
        && is_key(&entered.key)
        && is_maybe_value(&entered.restores)
        && is_lsn_or_none(entered.undo_next)
}

fn adopt_fits(entered: &Adopt) -> bool
    ensures { result ≡ forms.adopt_fits entered.now }
{
    is_page(entered.parent)
        && is_lsn_or_none(entered.parent_prev)
        && is_page(entered.fosterer)
        && is_lsn_or_none(entered.fosterer_prev)
        && is_child(entered.child)
        && is_key(&entered.key)
}

fn run_fits(entered: &RunDone) -> bool
    ensures { result ≡ forms.run_fits entered.now }
{
    is_number(entered.run) && is_number(entered.first) && is_number(entered.last)
}

fn split_fits(entered: &Split) -> bool
    ensures { result ≡ forms.split_fits entered.now }
{
    is_page(entered.page) && is_lsn_or_none(entered.page_prev) && is_child(entered.child)
}

fn grow_fits(entered: &Grow) -> bool
    ensures { result ≡ forms.grow_fits entered.now }
{
    is_lsn_or_none(entered.page_prev) && is_child(entered.child)
}

fn is_split(entered: &Split) -> bool
    ensures { IsTrue result ↔ KeepsSplit entered.now }
{
    split_fits(entered) && keeps_state(&entered.child_state)
}

fn is_grow(entered: &Grow) -> bool
    ensures { IsTrue result ↔ KeepsGrow entered.now }
{
    grow_fits(entered) && keeps_state(&entered.child_state)
}

fn is_backup(entered: &BackupDone) -> bool
    ensures { IsTrue result ↔ KeepsBackupDone entered.now }
{
    is_number(entered.backup)
        && is_u32(entered.segment)
        && is_page_count(entered.pages.len())
        && are_page_lsns(entered.pages.as_slice())
}

/// Whether a transaction and the LSN of its last record are in their ranges.
fn is_link(tx: TxId, prev: Lsn) -> bool
    ensures { result ≡ (rules.is_number tx && rules.is_lsn_or_none prev) }
{
    is_number(tx) && is_lsn_or_none(prev)
}

fn is_purge(page: PageNo, prev: Lsn) -> bool
    ensures { result ≡ (rules.is_page page && rules.is_lsn_or_none prev) }
{
    is_page(page) && is_lsn_or_none(prev)
}

fn is_written(page: PageNo, lsn: Lsn) -> bool
    ensures { result ≡ (rules.is_page page && rules.is_number lsn) }
{
    is_page(page) && is_number(lsn)
}

/// Whether the record has a spelling; of a Checkpoint it says no.
pub fn has_spelling(entered: &Record) -> bool
    ensures keeps { IsTrue result → HasSpelling entered.now }
    ensures all { is_checkpoint entered.now ≡ false → HasSpelling entered.now → IsTrue result }
{
    match entered {
        Record::Format(format) => is_limit(format.limit),
        Record::Write(write) => write_fits(write),
        Record::Apply(apply) => apply_fits(apply),
        Record::Undo(undo) => undo_fits(undo),
        Record::Commit(commit) => is_link(commit.tx, commit.prev),
        Record::End(end) => is_link(end.tx, end.prev),
        Record::Split(split) => is_split(split),
        Record::Adopt(adopt) => adopt_fits(adopt),
        Record::Grow(grow) => is_grow(grow),
        Record::Purge(purge) => is_purge(purge.page, purge.page_prev),
        Record::Written(written) => is_written(written.page, written.lsn),
        Record::Checkpoint(_) => false,
        Record::BackupDone(done) => is_backup(done),
        Record::RunDone(done) => run_fits(done),
        Record::Lost(lost) => is_u32(lost.pages),
        Record::Restored(restored) => is_u32(restored.segment),
    }
}
