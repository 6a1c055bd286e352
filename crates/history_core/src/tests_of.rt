//! Small tests.
ghost use Rattle.std.specs.Prelude.{◌≡◌, ◌↔◌, None, IsTrue};
ghost use Rattle.wal_record.specs.Chains.{tx_of};

use store_model::TxId;
use wal_record::Record;

/// Whether no write waits to be told.
pub(crate) fn is_none(untold: &Option<Record>) -> bool
    ensures { IsTrue result ↔ (untold.now ≡ None) }
{
    untold.is_none()
}

/// Whether the write is the transaction's.
pub(crate) fn is_of(told: &Record, tx: TxId) -> bool
    ensures { IsTrue result ↔ (tx_of told.now ≡ tx) }
{
    match told {
        Record::Write(write) => write.tx == tx,
        Record::Apply(apply) => apply.tx == tx,
        Record::Undo(undo) => undo.tx == tx,
        Record::Commit(commit) => commit.tx == tx,
        Record::End(end) => end.tx == tx,
        _ => tx == 0,
    }
}
