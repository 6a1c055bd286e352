//! Losers of the opening log, undone step by step where nobody else enters anything.
ghost use Rattle.std.specs.Prelude.{◌≡◌, ◌≤◌, IfErr, OnOk, false};
ghost use Rattle.page_ops.specs.Causes.{FailsToBring, MeetsNoEnd};
ghost use Rattle.page_ops.specs.Desks.{KeepsFaults};
ghost use Rattle.page_ops.specs.Seeing.{Keeps};
ghost use Rattle.store_life.specs.SoFar.{HasNames, Runs};
ghost use Rattle.store_life.specs.Steps.{StepsBack, was_taken};

use crate::life::StoreLife;
use maintenance::{Step, undo_step};
use page_ops::{Journaling, Life, Pages};
use std::alloc::Global;
use std::sync::Wait;
use store_model::Fault;

impl<N: Life> StoreLife<N> {
    /// Takes one step to undo the losers of the opening log, if any is left: of the least that has no End the last open write is
    /// undone, or, where no write is left, its End is entered. Whether it took one. Where it is refused no write was undone and no
    /// End entered.
    pub fn undo_next<J: Journaling<N>, P: Pages<N, J>, R: Wait>(
        &mut self,
        rt: &R,
        alloc: Global,
        pages: &mut P,
        journal: &mut J,
    ) -> Result<bool, Fault>
        requires runs { Runs N.opens N.entries (J.account journal.old) self.old }
        requires none { (P.desk pages.old).out ≡ 0 }
        requires reserved { (P.desk pages.old).reserves ≡ false }
        ensures runs { Runs N.opens N.entries (J.account journal.new) self.new }
        ensures steps { StepsBack N.opens result self.old.pass.log self.new.pass.log }
        ensures names { self.new.named ≡ self.old.named }
        ensures named { HasNames self.old → HasNames self.new }
        ensures durable { self.old.pass.durable ≤ self.new.pass.durable }
        ensures none { (P.desk pages.new).out ≡ 0 }
        ensures reserved { (P.desk pages.new).reserves ≡ false }
        ensures keeps { Keeps (J.account journal.old) (J.account journal.new) }
        ensures faults { KeepsFaults (P.desk pages.old).faults (P.desk pages.new).faults }
        ensures open { OnOk result (MeetsNoEnd (J.account journal.old) (J.account journal.new)) }
        ensures refused { IfErr result (FailsToBring N.opens N.log_faults N.made (P.desk pages.old).faults (P.desk pages.new).faults (J.account journal.old) (J.account journal.new) self.new.pass.log) }
    {
        let step = undo_step(rt, alloc, pages, journal, &mut self.pass);
        was_taken(step)
    }
}

/// Whether a step was taken. Nobody else ends a loser, in every log that is told.
fn was_taken(step: Result<Step, Fault>) -> Result<bool, Fault>
    ensures { result ≡ was_taken step }
{
    match step {
        Ok(Step::NoLoser) => Ok(false),
        Ok(Step::Undone(_)) => Ok(true),
        Ok(Step::Ended(_)) => Ok(true),
        Ok(Step::Late(_)) => Err(Fault::Memory),
        Err(fault) => Err(fault),
    }
}
