//! The entries that a judge takes.
ghost use Rattle.std.specs.Prelude.{◌≡◌, ◌+◌, ◌≤◌, [], ◌∷◌, ◌++◌, ℕ, List, length, Some, None, true, false, IfOk, OnOk, OnErr};
ghost use Rattle.wal_record.specs.History.{life_log};
ghost use Rattle.wal_record.specs.Legal.{IsAllowed};
ghost use Rattle.wal_record.specs.Rules.{HasSpelling};
ghost use Rattle.wal_record.specs.declared.entry.Entry.{Entry};
ghost use Rattle.wal_record.specs.declared.entry.Entry.TheVariants.{Rec};
ghost use Rattle.wal_record.specs.declared.record.Record.{Record};
ghost use Rattle.history_core.specs.Judging.{HasComeTo, IsJudgeOf, IsJudged, IsVerdictOn, is_lock, is_record, moves};

use crate::judge::Judge;
use operators::Operators;
use page_judge::Changed;
use reply_judge::untold_record;
use store_model::{Lsn, Memory};
use wal_record::{Entry, Record};

impl Judge {
    /// What a record makes of the phases, or of the contents and the last backup. Where memory runs out, they are as before.
    fn note_change(&mut self, operators: &Operators, entered: &Record) -> Result<(), Memory>
        ensures ok { (opening : List Record) → (h : List Entry) → (lsn : ℕ) → HasComeTo opening h self.old → OnOk result (HasComeTo opening (h ++ Rec lsn entered.now ∷ []) self.new) }
        ensures err { (opening : List Record) → (h : List Entry) → HasComeTo opening h self.old → OnErr result (HasComeTo opening h self.new) }
        ensures others { self.new ≡ record self.old { phases = self.new.phases; log = record self.old.log { contents = self.new.log.contents; backups = self.new.log.backups } } }
    {
        match entered {
            Record::Commit(_) => self.phases.note_record(entered),
            Record::End(_) => self.phases.note_record(entered),
            _ => self.log.change(operators, entered),
        }
    }

    /// Takes a record, by what it makes of the pages that it names. Where memory runs out, the judge stays where it was.
    fn take_record(
        &mut self,
        operators: &Operators,
        lsn: Lsn,
        entered: &Record,
        changed: Changed,
    ) -> Result<(), Memory>
        requires first { 1 ≤ lsn }
        requires spelled { HasSpelling entered.now }
        ensures ok { (opening : List Record) → (h : List Entry) → IsJudgeOf opening h self.old → IsVerdictOn opening h lsn entered.now (Some changed) → OnOk result (IsJudgeOf opening (h ++ Rec lsn entered.now ∷ []) self.new) }
        ensures err { (opening : List Record) → (h : List Entry) → IsJudgeOf opening h self.old → lsn ≡ length (life_log opening h) + 1 → OnErr result (IsJudgeOf opening h self.new) }
    {
        let split = self.log.images.split_leaf(entered)?;
        self.log.prepare(lsn, entered, &changed)?;
        self.note_change(operators, entered)?;
        self.locks.note_record(entered);
        self.log.finish(lsn, entered, changed);
        self.untold = untold_record(entered);
        self.split = split;
        Ok(())
    }

    /// The last entry asks nothing of the next one.
    fn settle(&mut self)
        ensures { self.new ≡ record self.old { untold = None; split = None } }
    {
        self.untold = None;
        self.split = None;
    }

    fn note_lock(&mut self, entry: &Entry) -> Result<(), Memory>
        ensures ok { (opening : List Record) → (h : List Entry) → IsJudgeOf opening h self.old → IsAllowed opening h entry.now → is_lock entry.now ≡ true → OnOk result (IsJudgeOf opening (h ++ entry.now ∷ []) self.new) }
        ensures err { (opening : List Record) → (h : List Entry) → IsJudgeOf opening h self.old → OnErr result (IsJudgeOf opening h self.new) }
    {
        self.locks.note(entry)?;
        self.settle();
        Ok(())
    }

    fn note_move(&mut self, entry: &Entry) -> Result<(), Memory>
        ensures ok { (opening : List Record) → (h : List Entry) → IsJudgeOf opening h self.old → IsAllowed opening h entry.now → moves entry.now ≡ true → OnOk result (IsJudgeOf opening (h ++ entry.now ∷ []) self.new) }
        ensures err { (opening : List Record) → (h : List Entry) → IsJudgeOf opening h self.old → OnErr result (IsJudgeOf opening h self.new) }
    {
        self.phases.note(entry)?;
        self.settle();
        Ok(())
    }

    /// The next entry, which is legal there and no record. Where memory runs out, the judge stays where it was.
    fn note(&mut self, entry: &Entry) -> Result<(), Memory>
        requires kind { is_record entry.now ≡ false }
        ensures ok { (opening : List Record) → (h : List Entry) → IsJudgeOf opening h self.old → IsAllowed opening h entry.now → OnOk result (IsJudgeOf opening (h ++ entry.now ∷ []) self.new) }
        ensures err { (opening : List Record) → (h : List Entry) → IsJudgeOf opening h self.old → OnErr result (IsJudgeOf opening h self.new) }
    {
        match entry {
            Entry::Lock { .. } => self.note_lock(entry),
            Entry::Began { .. } => self.note_move(entry),
            Entry::Acked { .. } => self.note_move(entry),
            _ => {
                self.settle();
                Ok(())
            }
        }
    }

    /// Judges an entry that is no record, and takes it where it is legal.
    fn step_other(&mut self, operators: &Operators, entry: &Entry) -> Result<bool, Memory>
        requires kind { is_record entry.now ≡ false }
        ensures judged { (opening : List Record) → (h : List Entry) → IsJudgeOf opening h self.old → IfOk result (IsJudged opening h entry.now self.old self.new) }
        ensures err { (opening : List Record) → (h : List Entry) → IsJudgeOf opening h self.old → OnErr result (IsJudgeOf opening h self.new) }
    {
        if !self.allows(operators, entry) {
            return Ok(false);
        }
        self.note(entry)?;
        Ok(true)
    }

    /// Judges a record, and takes it where it is legal.
    fn step_record(
        &mut self,
        operators: &Operators,
        lsn: Lsn,
        entered: &Record,
    ) -> Result<bool, Memory>
        ensures judged { (opening : List Record) → (h : List Entry) → IsJudgeOf opening h self.old → IfOk result (IsJudged opening h (Rec lsn entered.now) self.old self.new) }
        ensures err { (opening : List Record) → (h : List Entry) → IsJudgeOf opening h self.old → OnErr result (IsJudgeOf opening h self.new) }
    {
        let found = self.allowed(operators, lsn, entered)?;
        match found {
            Some(changed) => {
                self.take_record(operators, lsn, entered, changed)?;
                Ok(true)
            }
            None => Ok(false),
        }
    }

    /// Judges an entry, and takes it where it is legal. Else the judge stays as it was; so it stays where it was where memory
    /// runs out.
    pub fn step(&mut self, operators: &Operators, entry: &Entry) -> Result<bool, Memory>
        ensures judged { (opening : List Record) → (h : List Entry) → IsJudgeOf opening h self.old → IfOk result (IsJudged opening h entry.now self.old self.new) }
        ensures err { (opening : List Record) → (h : List Entry) → IsJudgeOf opening h self.old → OnErr result (IsJudgeOf opening h self.new) }
    {
        match entry {
            Entry::Rec { lsn, rec } => self.step_record(operators, *lsn, rec),
            _ => self.step_other(operators, entry),
        }
    }
}
