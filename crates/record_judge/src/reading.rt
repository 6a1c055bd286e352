//! Whole logs.
ghost use Rattle.std.specs.Prelude.{IfOk};
ghost use Rattle.record_judge.specs.Judging.{IsRead};

use crate::judge::RecordJudge;
use operators::Operators;
use std::alloc::Global;
use store_model::Memory;
use wal_record::Record;

impl RecordJudge {
    /// The judge of a log, where the log is lawful, and else none. The log is read once.
    pub fn read(
        alloc: Global,
        operators: &Operators,
        log: &[Record],
    ) -> Result<Option<RecordJudge>, Memory>
        ensures { IfOk result (IsRead log.now) }
    {
        let mut judge = RecordJudge::new(alloc);
        for entered in log {
            let is_lawful = judge.step(operators, entered)?;
            if !is_lawful {
                return Ok(None);
            }
        }
        Ok(Some(judge))
    }
}
