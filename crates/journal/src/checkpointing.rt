//! Checkpoints among the groups.
ghost use Rattle.std.specs.Prelude.{◌≡◌, ◌≤◌, List, length, true, IsTrue};
ghost use Rattle.std.specs.List.{All};
ghost use Rattle.group_filling.specs.Fitting.{AreInRange};
ghost use Rattle.log_manager.specs.Payload.{bytes_of};
ghost use Rattle.page_ops.specs.Groups.{Each};
ghost use Rattle.wal_record.specs.Rules.{HasSpelling};
ghost use Rattle.journal.specs.Groups.{IsCheckpointAlone};

use checkpoint_form::has_form;
use group_filling::have_numbers;
use wal_record::Record;

/// Whether the records are one Checkpoint.
pub(crate) fn is_checkpoint_alone(recs: &[Record]) -> bool
    ensures { result ≡ true → IsCheckpointAlone recs.now }
{
    matches!(recs, [Record::Checkpoint(_)])
}

/// Whether the records, as they are filled in, have spellings that go into one block.
pub(crate) fn can_spell(recs: &[Record]) -> bool
    requires few { length recs.now ≤ 2 }
    requires spelled { Each AreInRange recs.now → All HasSpelling recs.now × (length (bytes_of recs.now) ≤ 4194304) }
    ensures { IsTrue result → All HasSpelling recs.now × (length (bytes_of recs.now) ≤ 4194304) }
{
    match recs {
        [Record::Checkpoint(checkpoint)] => has_form(checkpoint),
        _ => have_numbers(recs),
    }
}
