//! The disk of the log: its fuse, what a fault of it ended, and how it comes out of the life.
ghost use Rattle.std.specs.Prelude.{◌≡◌, ◌-◌, ◌^◌, List, min, IfSome};
ghost use Rattle.journal.specs.State.{ArmsDisk, calls_of};
ghost use Rattle.journal.specs.Stops.{IsDurableUpto, Leaves};
ghost use Rattle.page_ops.specs.Seeing.{Looks};
ghost use Rattle.wal_record.specs.declared.record.Record.{Record};

use crate::journal::Journal;
use front::Pass;
use life_history::Counts;
use media::Disk;
use page_ops::Life;
use store_model::Lsn;
use wal_record::Entry;

impl<'a, L: Disk, N: Life> Journal<'a, L, N> {
    /// Arms the log disk's fuse, which lets n more calls pass, or renews it.
    pub fn fuse(&mut self, n: Option<u64>)
        ensures same { (self.new.history ≡ self.old.history) × (self.new.ended ≡ self.old.ended) × (self.new.blocks ≡ self.old.blocks) }
        ensures calls { ArmsDisk L.fuses n self.old.calls self.new.calls }
    {
        self.log.fuse(n);
    }

    /// How many calls the log disk's fuse has refused.
    pub fn refused(&self) -> u64
        ensures { result ≡ min self.now.calls.refused (2 ^ 64 - 1) }
    {
        self.log.refused()
    }

    /// The LSN up to which the log was durable as the life ended, if it has ended. The opening log and each acknowledged commit
    /// stand up to it.
    pub fn end(&self) -> Option<Lsn>
        ensures end { result ≡ self.now.ended }
        ensures durable { (opening : List Record) → N.opens opening → IfSome self.now.ended (IsDurableUpto opening self.now.history) }
    {
        self.log.ended()
    }

    /// The log disk, as it is: the life has stopped. The pass has then seen the whole history, and as durable what any pass was
    /// told. What the disk keeps, and what it keeps after a crash that comes now, stands for a log that a stop may leave of the
    /// life: it has each acknowledged commit and all that passes were told to be durable, and is enough for the next opening.
    pub fn into_device(self, pass: &mut Pass<Entry, N>, counts: &mut Counts<N>) -> L
        ensures left { Leaves N.opens L.told L.may_leave self.entry.history pass.new.durable result }
        ensures pass { pass.new.log ≡ self.entry.history }
        ensures seen { Looks N.opens N.entries N.session_entries counts.old pass.old counts.new pass.new }
        ensures calls { calls_of L.passes L.refused L.own result ≡ self.entry.calls }
    {
        let Journal {
            log,
            mut history,
            mut mark,
            ..
        } = self;
        history.look(pass, counts);
        mark.meet(&history.ground().board, pass);
        log.into_device()
    }
}
