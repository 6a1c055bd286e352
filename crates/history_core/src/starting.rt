//! Where a judge begins.
ghost use Rattle.std.specs.Prelude.{[], List, IfOk};
ghost use Rattle.wal_record.specs.declared.record.Record.{Record};
ghost use Rattle.record_judge.specs.Judging.{IsRecordJudgeOf};
ghost use Rattle.history_core.specs.Judging.{IsJudgeOf, IsOpened};

use crate::judge::Judge;
use lock_judge::TakenLocks;
use operators::Operators;
use phase_judge::Phases;
use record_judge::RecordJudge;
use std::alloc::Global;
use store_model::Memory;
use wal_record::{Analysis, Record};

impl Judge {
    /// The judge of the empty history behind the log that was read.
    fn behind(alloc: Global, log: RecordJudge) -> Result<Judge, Memory>
        ensures { (opening : List Record) → IsRecordJudgeOf opening log → IfOk result (IsJudgeOf opening []) }
    {
        let Analysis { losers, .. } = log.listing.analysis(alloc)?;
        let greatest = log.listing.next_tx().saturating_sub(1);
        Ok(Judge {
            phases: Phases::new(alloc, greatest),
            locks: TakenLocks::new(alloc),
            log,
            losers,
            untold: None,
            split: None,
        })
    }

    /// The judge of the empty history behind this opening log, where the log is lawful, and else none. The log is read once.
    pub fn start(
        alloc: Global,
        operators: &Operators,
        opening: &[Record],
    ) -> Result<Option<Judge>, Memory>
        ensures { IfOk result (IsOpened opening.now) }
    {
        let found = RecordJudge::read(alloc, operators, opening)?;
        match found {
            Some(log) => Ok(Some(Judge::behind(alloc, log)?)),
            None => Ok(None),
        }
    }
}
