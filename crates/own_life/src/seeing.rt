//! The whole history is seen.
ghost use Rattle.own_journal.specs.Told.{told};
ghost use Rattle.store_life.specs.SoFar.{Runs};
ghost use Rattle.own_life.specs.Kept.{Sees};

use media::Disk;
use own_journal::OwnJournal;
use page_ops::Life;
use store_life::StoreLife;

/// The pass of a life of which nobody else enters anything has then seen the history of its journal.
pub(crate) fn see_whole<L: Disk, N: Life>(
    journal: &mut OwnJournal<'_, L, N>,
    life: &mut StoreLife<N>,
)
    requires { Runs N.opens N.entries (told journal.old.counts journal.old.journal.calls) life.old }
    ensures { Sees N.opens N.entries N.log_faults journal.old.counts journal.new.counts journal.old.journal journal.new.journal life.old life.new }
{
    let _ = journal.end_seen(&mut life.pass);
}
