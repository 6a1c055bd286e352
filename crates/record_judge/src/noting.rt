//! The records that a judge takes.
ghost use Rattle.std.specs.Prelude.{◌≡◌, ◌+◌, ◌<◌, ◌≤◌, ◌^◌, ◌∷◌, ◌++◌, [], List, length, Some, IfOk, OnOk, OnErr};
ghost use Rattle.wal_record.specs.Rules.{HasSpelling};
ghost use Rattle.wal_record.specs.declared.record.Record.{Record};
ghost use Rattle.page_judge.specs.Names.{AreNamesOf};
ghost use Rattle.record_judge.specs.Judging.{HasContents, IsChanging, IsReady, IsRecordJudgeOf, IsStep, IsVerdict};

use crate::judge::RecordJudge;
use operators::Operators;
use page_judge::Changed;
use store_model::{Lsn, Memory};
use wal_record::Record;

impl RecordJudge {
    /// Makes room for a record with this LSN, by what it makes of pages. The judge is still that of the log before it.
    pub fn prepare(&mut self, lsn: Lsn, entered: &Record, changed: &Changed) -> Result<(), Memory>
        requires { 1 ≤ lsn }
        ensures same { (log : List Record) → IsRecordJudgeOf log self.old → lsn ≡ length log + 1 → IsRecordJudgeOf log self.new }
        ensures names { (log : List Record) → IsRecordJudgeOf log self.old → lsn ≡ length log + 1 → OnOk result (AreNamesOf (log ++ entered.now ∷ []) self.new.names) }
        ensures ready { OnOk result (IsReady entered.now changed.now self.new) }
    {
        self.listing.prepare(entered)?;
        self.chains.prepare(entered)?;
        self.images.prepare(changed)?;
        self.names.note(lsn, entered)
    }

    /// What a record makes of the contents and of the last backup. Where memory runs out, they are as before.
    pub fn change(&mut self, operators: &Operators, entered: &Record) -> Result<(), Memory>
        ensures ok { (log : List Record) → HasContents log self.old → OnOk result (HasContents (log ++ entered.now ∷ []) self.new) }
        ensures err { (log : List Record) → HasContents log self.old → OnErr result (HasContents log self.new) }
        ensures others { self.new ≡ record self.old { contents = self.new.contents; backups = self.new.backups } }
    {
        match entered {
            Record::BackupDone(_) => self.backups.note(entered),
            _ => self.contents.note(operators, entered),
        }
    }

    /// Takes a lawful record, for which all else is done. It takes no memory.
    pub fn finish(&mut self, lsn: Lsn, entered: &Record, changed: Changed)
        requires spelled { HasSpelling entered.now }
        requires ready { IsReady entered.now changed self.old }
        ensures { (log : List Record) → IsChanging log entered.now self.old → IsVerdict log entered.now (Some changed) → lsn ≡ length log + 1 → IsRecordJudgeOf (log ++ entered.now ∷ []) self.new }
    {
        self.names.length_law();
        self.listing.note(lsn, entered);
        self.chains.note(lsn, entered);
        self.images.note(changed);
    }

    fn take(
        &mut self,
        operators: &Operators,
        lsn: Lsn,
        entered: &Record,
        changed: Changed,
    ) -> Result<(), Memory>
        requires first { 1 ≤ lsn }
        requires spelled { HasSpelling entered.now }
        ensures ok { (log : List Record) → IsRecordJudgeOf log self.old → IsVerdict log entered.now (Some changed) → lsn ≡ length log + 1 → OnOk result (IsRecordJudgeOf (log ++ entered.now ∷ []) self.new) }
        ensures err { (log : List Record) → IsRecordJudgeOf log self.old → lsn ≡ length log + 1 → OnErr result (IsRecordJudgeOf log self.new) }
    {
        self.prepare(lsn, entered, &changed)?;
        self.change(operators, entered)?;
        self.finish(lsn, entered, changed);
        Ok(())
    }

    /// Goes on by a record where it is lawful. Else the judge stays as it was; so it stays where it was where memory runs out.
    pub fn step(&mut self, operators: &Operators, entered: &Record) -> Result<bool, Memory>
        ensures judged { (log : List Record) → IsRecordJudgeOf log self.old → IfOk result (IsStep log entered.now self.old self.new) }
        ensures err { (log : List Record) → IsRecordJudgeOf log self.old → OnErr result (IsRecordJudgeOf log self.new) }
    {
        self.names.length_law();
        let lsn = self.listing.last().saturating_add(1);
        let found = self.verdict(operators, entered)?;
        match found {
            Some(changed) => {
                self.take(operators, lsn, entered, changed)?;
                Ok(true)
            }
            None => Ok(false),
        }
    }
}
