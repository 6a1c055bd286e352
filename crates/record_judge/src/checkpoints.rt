//! Checkpoints.
ghost use Rattle.std.specs.Prelude.{◌≡◌, ◌↔◌, ◌<◌, ◌≤◌, ◌^◌, List, length, None, IfOk, IfSome, IsTrue};
ghost use Rattle.wal_record.specs.Checkpoints.{checkpoint_of, limit_of};
ghost use Rattle.wal_record.specs.Rules.{HasSpelling};
ghost use Rattle.wal_record.specs.Sound.{used};
ghost use Rattle.wal_record.specs.declared.record.Record.{Record};
ghost use Rattle.wal_record.specs.declared.record.Record.TheVariants as kinds;
ghost use Rattle.record_judge.specs.Judging.{IsRecordJudgeOf, IsVerdict};

use crate::judge::RecordJudge;
use checkpoint_form::{has_form, lawful_law};
use page_judge::Changed;
use store_model::Memory;
use upkeep_judge::same_checkpoint;
use wal_record::Checkpoint;

/// What a record makes that names no page.
fn no_pages() -> Changed
    ensures { result ≡ record { first = None; second = None } }
{
    Changed {
        first: None,
        second: None,
    }
}

impl RecordJudge {
    /// Whether the Checkpoint is the one that may stand next.
    fn is_next_checkpoint(&self, checkpoint: &Checkpoint) -> Result<bool, Memory>
        ensures { (log : List Record) → IsRecordJudgeOf log self.now → IfOk result (λ b. IsTrue b ↔ (checkpoint.now ≡ checkpoint_of log)) }
    {
        let next = self.listing.checkpoint(self.alloc)?;
        Ok(same_checkpoint(checkpoint, &next))
    }

    /// Whether a Checkpoint may stand next at all.
    fn may_list(&self) -> bool
        ensures { (log : List Record) → IsRecordJudgeOf log self.now → IsTrue result ↔ ((0 < length log) × (used log ≤ limit_of log)) }
    {
        self.has_records() && self.has_room()
    }

    /// The verdict on a Checkpoint.
    pub(crate) fn lawful_checkpoint(
        &self,
        checkpoint: &Checkpoint,
    ) -> Result<Option<Changed>, Memory>
        ensures spelled { IfOk result (λ found. IfSome found (λ x. HasSpelling (kinds.Checkpoint checkpoint.now))) }
        ensures verdict { (log : List Record) → IsRecordJudgeOf log self.now → IfOk result (IsVerdict log (kinds.Checkpoint checkpoint.now)) }
    {
        lawful_law();
        self.names.length_law();
        if !has_form(checkpoint) {
            return Ok(None);
        }
        if !self.may_list() {
            return Ok(None);
        }
        let is_next = self.is_next_checkpoint(checkpoint)?;
        if is_next {
            Ok(Some(no_pages()))
        } else {
            Ok(None)
        }
    }
}
