//! The change that takes a write back.
ghost use Rattle.std.specs.Prelude.{◌≡◌, IfSome};
ghost use Rattle.wal_record.specs.Rules.{HasSpelling};
ghost use Rattle.rollback.specs.Undoes.{TakesBackWrite};

use leaf_writes::{Change, How};
use store_model::TxId;
use wal_record::Record;

/// The undo of this write of the transaction. None where the record writes no key: such a one is no open write.
pub(crate) fn taking_back(tx: TxId, write: Record) -> Option<Change>
    requires spelled { HasSpelling write }
    ensures { IfSome result (TakesBackWrite tx write) }
{
    match write {
        Record::Write(write) => Some(Change {
            tx,
            key: write.key,
            new: write.old,
            how: How::Undo {
                undo_next: write.prev,
            },
        }),
        Record::Apply(apply) => Some(Change {
            tx,
            key: apply.key,
            new: apply.old,
            how: How::Undo {
                undo_next: apply.prev,
            },
        }),
        _other => None,
    }
}
