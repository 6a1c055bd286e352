//! Records on the pages that they name.
ghost use Rattle.std.specs.Prelude.{◌≡◌, ◌↔◌, ◌<◌, ◌^◌, List, length, suc, false, IfOk, IfSome, IsTrue};
ghost use Rattle.wal_record.specs.Chains.{pages};
ghost use Rattle.wal_record.specs.Checkpoints.{is_checkpoint};
ghost use Rattle.wal_record.specs.Rules.{HasSpelling};
ghost use Rattle.wal_record.specs.Sound.{PlaceRule};
ghost use Rattle.wal_record.specs.declared.record.Record.{Record};
ghost use Rattle.page_judge.specs.Images.{AreApplicable, IsMadeBy};
ghost use Rattle.record_judge.specs.Judging.{IsRecordJudgeOf, IsPlaced, IsVerdict};

use crate::judge::RecordJudge;
use operators::Operators;
use page_judge::Changed;
use record_form::has_spelling;
use store_model::{Memory, PageNo};
use wal_record::Record;

/// Whether the page is one above so many.
fn is_one_above(pages: usize, page: PageNo) -> bool
    ensures { IsTrue result ↔ (page ≡ suc pages) }
{
    page > 0 && (page - 1) as usize == pages
}

impl RecordJudge {
    /// Whether this is the number of the next page.
    fn is_next_page(&self, page: PageNo) -> bool
        ensures { (log : List Record) → IsRecordJudgeOf log self.now → IsTrue result ↔ (page ≡ suc (pages log)) }
    {
        is_one_above(self.listing.pages(), page)
    }

    /// Whether an applicable record makes the next page, or adopts from where the parent leads.
    fn has_place(&self, entered: &Record) -> bool
        ensures { (log : List Record) → IsRecordJudgeOf log self.now → AreApplicable log entered.now → IsTrue result ↔ PlaceRule log entered.now }
    {
        match entered {
            Record::Split(split) => self.is_next_page(split.child),
            Record::Grow(grow) => self.is_next_page(grow.child),
            Record::Adopt(adopt) => self.images.leads_to(adopt),
            _ => true,
        }
    }

    /// What an applicable record makes of its pages, where it is in its place.
    fn in_place(&self, entered: &Record, changed: Changed) -> Option<Changed>
        ensures { (log : List Record) → IsRecordJudgeOf log self.now → AreApplicable log entered.now → IsMadeBy log entered.now changed → IsPlaced log entered.now result }
    {
        if self.has_place(entered) {
            Some(changed)
        } else {
            None
        }
    }

    /// What a record makes of the pages that it names, where it is applicable to them and in its place.
    fn placed(&self, operators: &Operators, entered: &Record) -> Result<Option<Changed>, Memory>
        requires spelled { HasSpelling entered.now }
        ensures { (log : List Record) → IsRecordJudgeOf log self.now → IfOk result (IsPlaced log entered.now) }
    {
        let found = self.images.changed(entered, operators)?;
        match found {
            Some(changed) => Ok(self.in_place(entered, changed)),
            None => Ok(None),
        }
    }

    /// The verdict on a record that is no Checkpoint.
    fn lawful_other(
        &self,
        operators: &Operators,
        entered: &Record,
    ) -> Result<Option<Changed>, Memory>
        requires kind { is_checkpoint entered.now ≡ false }
        ensures spelled { IfOk result (λ found. IfSome found (λ x. HasSpelling entered.now)) }
        ensures verdict { (log : List Record) → IsRecordJudgeOf log self.now → IfOk result (IsVerdict log entered.now) }
    {
        if !has_spelling(entered) {
            return Ok(None);
        }
        if !self.keeps_rules(operators, entered) {
            return Ok(None);
        }
        self.placed(operators, entered)
    }

    /// Whether a record is lawful behind the log: what it makes of the pages that it names, where it is, and else nothing.
    pub fn verdict(
        &self,
        operators: &Operators,
        entered: &Record,
    ) -> Result<Option<Changed>, Memory>
        ensures spelled { IfOk result (λ found. IfSome found (λ x. HasSpelling entered.now)) }
        ensures verdict { (log : List Record) → IsRecordJudgeOf log self.now → IfOk result (IsVerdict log entered.now) }
    {
        match entered {
            Record::Checkpoint(checkpoint) => self.lawful_checkpoint(checkpoint),
            _ => self.lawful_other(operators, entered),
        }
    }
}
