//! The list of records, over blocks.
ghost use Rattle.std.specs.Prelude.{◌≡◌, ◌⊎◌, ◌+◌, ◌-◌, ◌<◌, ◌≤◌, ◌^◌, ◌++◌, ◌∷◌, [], ℕ, List, length, drop, take, min, None, Some, OnOk, OnErr, IfOk, IfErr, IfSome, IsErrAnd, IsSome, slice_index_or, true, ⊤};
ghost use Rattle.std.specs.List.{All};
ghost use Rattle.media.specs.Counted.{Armed, Blames};
ghost use Rattle.media.specs.Crash.{LeavesOnly};
ghost use Rattle.store_model.specs.declared.fault.Fault.TheVariants as faults;
ghost use Rattle.log_blocks.specs.Batch.{records_in};
ghost use Rattle.log_blocks.specs.Log.{Block, first_lsn};
ghost use Rattle.log_blocks.specs.LogState.{AreNumbered, IsDurable, Refused, checkpoint_of, durable_lsn, firsts};
ghost use Rattle.log_blocks.specs.Opening.{IsLogFault, Progress};
ghost use Rattle.wal_record.specs.Rules.{HasSpelling};
ghost use Rattle.wal_record.specs.declared.record.Record.{Record};
ghost use Rattle.log_manager.specs.LastRead.{IsLastRead, IsWithin, ReadBlock};
ghost use Rattle.log_manager.specs.Payload.{bytes_of};
ghost use Rattle.log_manager.specs.Records.{AreRecordsOf, IsLastCheckpoint, IsLogOf, StandsForRecords};
ghost use Rattle.log_manager.specs.Groups.{EndsBlock, HoldGroups};
ghost use Rattle.log_manager.specs.Managed.{EndBefore, HasMore, HasLsn, IsAt, IsBadIn, IsCounted, IsLogFrom, IsNoBadLog, IsRecordOf, NotAdded, ReadRefused, RecordsLeft, RecycleLeaves, StandsForRest, before_lsn, first_kept, recycled, with_batch};

use crate::counted::{COMMIT, Counted};
use crate::last_read::LastRead;
use crate::spelling::{last_checkpoint, spelled};
use log_blocks::{Batch, BlockLog, MOST_BYTES};
use media::Disk;
use record_codec::commit_bytes;
use std::alloc::Global;
use std::marker::Model;
use store_model::{Fault, Lsn, Memory, TxId};
use wal_record::{Commit, Record};

/// The records of a log, from the first one that it keeps.
#[derive(Drop)]
pub struct LogManager<L: Disk> {
    log: BlockLog<L>,
    /// Blocks that haven't joined the log yet, and room for commits to come.
    batch: Batch,
    counted: Counted,
    /// The payload that was read last, until blocks are written or go.
    last_read: Option<LastRead>,
}

impl<L: Disk> Model for LogManager<L> {
    ghost use Rattle.std.specs.Prelude.{IfSome};
    ghost use Rattle.log_manager.specs.LastRead.{IsLastRead};
    ghost use Rattle.log_manager.specs.Managed.{Managed, IsCounted, with_batch};

    ghost Value = { Managed L };

    ghost view = { λ m. record { log = with_batch m.log m.batch.blocks; spare = m.batch.spare } };

    ghost invariant = { λ m. record {
      counted : IsCounted m.log m.batch.blocks m.batch.spare m.counted;
      last : IfSome m.last_read (IsLastRead L.tells L.told m.log);
    } };
}

impl<L: Disk> LogManager<L> {
    /// The list of records that the blocks of a log hold that has just been opened.
    pub fn start(alloc: Global, log: BlockLog<L>) -> LogManager<L>
        requires fresh { log.pending ≡ [] }
        ensures same { result ≡ record { log = log; spare = 0 } }
        ensures records { L.tells → (before : ℕ) (bs : List Block) (rs : List Record) → IsDurable L.told L.may_leave log bs → AreRecordsOf before bs rs → IsLogOf L.told L.may_leave result.log before rs [] }
    {
        let checkpoint = log.checkpoint().min(log.durable_lsn());
        LogManager {
            log,
            batch: Batch::new(alloc),
            counted: Counted {
                records: 0,
                bytes: 0,
                checkpoint,
            },
            last_read: None,
        }
    }

    /// Adds one to three records at the end, all in one block. Gives the LSN of the first.
    pub fn append_group(&mut self, alloc: Global, recs: &[Record]) -> Result<Lsn, Fault>
        requires few { (1 ≤ length recs.now) × (length recs.now ≤ 3) }
        requires spelled { All HasSpelling recs.now }
        requires size { length (bytes_of recs.now) ≤ MOST_BYTES }
        ensures first { IfOk result (λ lsn. lsn ≡ self.old.log.next) }
        ensures added { OnOk result (HasMore recs.now self.old.log self.new.log × (self.new.spare ≡ self.old.spare)) }
        ensures records { L.tells → (before : ℕ) (stable waiting : List Record) → IsLogOf L.told L.may_leave self.old.log before stable waiting
            → OnOk result (IsLogOf L.told L.may_leave self.new.log before stable (waiting ++ recs.now)) }
        // Each group stands whole in one block.
        ensures whole { (groups : List (List Record)) → HoldGroups self.old.log.pending groups → OnOk result (HoldGroups self.new.log.pending (groups ++ recs.now ∷ [])) }
        ensures live { OnOk result (self.old.log.ended ≡ None) }
        ensures same { OnErr result (self.new ≡ self.old) }
        ensures refused { IfErr result (NotAdded self.old.log) }
    {
        self.live()?;
        self.log.settle()?;
        let bytes = spelled(alloc, recs)?;
        let count = count_of(recs);
        let size = bytes.len() as u64;
        let (next, end) = (self.log.next(), self.log.end());
        if !self
            .counted
            .has_room(next, end, self.batch.spare(), count as u64, size)
        {
            return Err(Fault::Memory);
        }
        let first = self.log.next() + self.counted.records;
        let checkpoint = last_checkpoint(self.counted.checkpoint, first, recs);
        self.batch.push(count, checkpoint, &bytes)?;
        self.counted.add(count as u64, size, checkpoint);
        Ok(first)
    }

    /// Makes room for one more Commit.
    pub fn reserve_commit(&mut self) -> Result<(), Memory>
        ensures ok { OnOk result (self.new ≡ record self.old { spare = self.old.spare + 1 }) }
        ensures same { OnErr result (self.new ≡ self.old) }
    {
        let (next, end) = (self.log.next(), self.log.end());
        if !self
            .counted
            .has_room(next, end, self.batch.spare(), 1, COMMIT)
        {
            return Err(Memory);
        }
        self.batch.reserve_short()?;
        self.counted.bytes += COMMIT;
        Ok(())
    }

    /// Adds a Commit at the end, without memory. Gives its LSN.
    pub fn append_commit(&mut self, tx: TxId, prev: Lsn) -> Lsn
        requires spare { 1 ≤ self.old.spare }
        requires spelled { HasSpelling (Record.Commit (record { tx = tx; prev = prev })) }
        ensures lsn { result ≡ self.old.log.next }
        ensures added { HasMore (Record.Commit (record { tx = tx; prev = prev }) ∷ []) self.old.log self.new.log × (self.new.spare + 1 ≡ self.old.spare) }
        ensures records { L.tells → (before : ℕ) (stable waiting : List Record) → IsLogOf L.told L.may_leave self.old.log before stable waiting
            → IsLogOf L.told L.may_leave self.new.log before stable (waiting ++ Record.Commit (record { tx = tx; prev = prev }) ∷ []) }
        ensures whole { (groups : List (List Record)) → HoldGroups self.old.log.pending groups → HoldGroups self.new.log.pending (groups ++ (Record.Commit (record { tx = tx; prev = prev }) ∷ []) ∷ []) }
    {
        let lsn = self.log.next() + self.counted.records;
        let commit = Commit { tx, prev };
        self.batch
            .push_short(self.counted.checkpoint, commit_bytes(&commit).as_slice());
        self.counted.records += 1;
        lsn
    }

    /// Makes all records up to this LSN stable.
    pub fn flush_to(&mut self, lsn: Lsn) -> Result<(), Fault>
        requires { lsn < self.old.log.next }
        ensures records { L.tells → (before : ℕ) (stable waiting : List Record) → IsLogOf L.told L.may_leave self.old.log before stable waiting
            → OnOk result ((self.new ≡ self.old) ⊎ IsLogOf L.told L.may_leave self.new.log before (stable ++ waiting) []) }
        ensures durable { OnOk result (lsn ≤ durable_lsn self.new.log.places) }
        ensures next { (self.new.log.next ≡ self.old.log.next) × (self.new.spare ≡ self.old.spare) }
        ensures first { first_kept self.new.log ≡ first_kept self.old.log }
        // A crash at any moment leaves the stable records, then some of the waiting ones in order, with the same LSNs. They
        // end where a block ends, so no group is cut.
        ensures any_moment { L.tells → (before : ℕ) (stable waiting : List Record) → IsLogOf L.told L.may_leave self.old.log before stable waiting
            → LeavesOnly L.moment L.left_since self.old.log.device self.new.log.device (λ k. (n : ℕ) × (s : StandsForRecords before (stable ++ take n waiting) k) × (first_lsn s.bs ≡ first_kept self.old.log) × EndsBlock self.old.log.pending n) }
        // After a fault, too, a read gives the stable records, of which the durable LSN tells the last, and then maybe
        // further ones in order.
        ensures left { L.tells → (before : ℕ) (stable waiting : List Record) → IsLogOf L.told L.may_leave self.old.log before stable waiting
            → RecordsLeft L.told L.may_leave before stable waiting self.old.log self.new.log }
        ensures progress { Progress self.old.log.gate self.old.log.places self.old.log.pending self.new.log.gate self.new.log.places self.new.log.pending }
        ensures live { OnOk result ((self.old.log.ended ≡ None) × (self.new.log.ended ≡ None)) }
        ensures refused { IfErr result (Refused ⊥ L.faults self.old.log self.new.log) }
        ensures later { L.faults self.old.log.device ≤ L.faults self.new.log.device }
        ensures fuse { Blames L.passes L.refused L.own self.old.log.device self.new.log.device (IsErrAnd result IsLogFault) }
    {
        self.live()?;
        if lsn <= self.durable() {
            return Ok(());
        }
        self.last_read = None;
        hand_over(&mut self.log, &mut self.batch, &mut self.counted);
        self.log.flush()?;
        Ok(())
    }

    /// The record of an LSN that the log keeps.
    pub fn read(&mut self, alloc: Global, lsn: Lsn) -> Result<Record, Fault>
        requires kept { (first_kept self.old.log ≤ lsn) × (lsn < self.old.log.next) }
        ensures found { L.tells → (before : ℕ) (stable waiting : List Record) → IsLogOf L.told L.may_leave self.old.log before stable waiting
            → IfOk result (IsAt (stable ++ waiting) (lsn - first_kept self.old.log)) × IfErr result IsNoBadLog }
        ensures spelling { IfOk result HasSpelling }
        // Also where the blocks hold others, it is what the block of the LSN has at its place.
        ensures read { L.tells → (bs : List Block) → IsDurable L.told L.may_leave self.old.log bs → IfOk result (IsRecordOf (bs ++ self.old.log.pending) lsn) }
        // That block is named as bad, at the first fault of its payload, only where that is reached before the record.
        ensures bad { L.tells → (bs : List Block) → IsDurable L.told L.may_leave self.old.log bs → IfErr result (IsBadIn (bs ++ self.old.log.pending) lsn) }
        ensures records { L.tells → (before : ℕ) (stable waiting : List Record) → IsLogOf L.told L.may_leave self.old.log before stable waiting → IsLogOf L.told L.may_leave self.new.log before stable waiting }
        ensures same { self.new ≡ record self.old { log = record self.old.log { device = self.new.log.device; ended = self.new.log.ended } } }
        ensures any_moment { LeavesOnly L.moment L.left_since self.old.log.device self.new.log.device (λ k. L.may_leave self.old.log.device k) }
        ensures live { OnOk result ((self.old.log.ended ≡ None) × (self.new.log.ended ≡ None)) }
        ensures refused { IfErr result (ReadRefused L.faults self.old.log self.new.log) }
        ensures later { L.faults self.old.log.device ≤ L.faults self.new.log.device }
        ensures fuse { Blames L.passes L.refused L.own self.old.log.device self.new.log.device (IsErrAnd result IsLogFault) }
    {
        self.live()?;
        reach(&mut self.log, &mut self.batch, &mut self.counted, lsn);
        hold(alloc, &mut self.log, &mut self.last_read, lsn)?;
        match &mut self.last_read {
            Some(read) => read.record(alloc, lsn),
            None => unreachable!(),
        }
    }

    /// Forgets the durable blocks that end before an LSN, but never the last one.
    pub fn recycle_to(&mut self, upto: Lsn) -> Result<(), Fault>
        ensures these { EndBefore upto self.old.log.places (before_lsn upto self.old.log.places) }
        ensures dropped { OnOk result (self.new ≡ record self.old { log = record self.old.log { device = self.new.log.device; places = drop (before_lsn upto self.old.log.places) self.old.log.places } }) }
        ensures same { OnErr result (self.new ≡ record self.old { log = record self.old.log { device = self.new.log.device; ended = self.new.log.ended } }) }
        ensures records { L.tells → (before : ℕ) (stable waiting : List Record) → IsLogOf L.told L.may_leave self.old.log before stable waiting
            → OnOk result (IsLogFrom L.told L.may_leave before (first_kept self.old.log) stable waiting (recycled upto self.old.log.places) self.new.log) }
        // A crash at any moment leaves all stable records, or all but those of the blocks that go.
        ensures any_moment { L.tells → (before : ℕ) (stable waiting : List Record) → IsLogOf L.told L.may_leave self.old.log before stable waiting
            → LeavesOnly L.moment L.left_since self.old.log.device self.new.log.device (StandsForRest before (first_kept self.old.log) stable (recycled upto self.old.log.places)) }
        // After a fault, too, a read gives all of them, or all but those.
        ensures left { L.tells → (before : ℕ) (stable waiting : List Record) → IsLogOf L.told L.may_leave self.old.log before stable waiting
            → RecycleLeaves L.told L.may_leave before (first_kept self.old.log) stable (recycled upto self.old.log.places) self.new.log.device }
        ensures live { OnOk result ((self.old.log.ended ≡ None) × (self.new.log.ended ≡ None)) }
        ensures refused { IfErr result (Refused ⊥ L.faults self.old.log self.new.log) }
        ensures later { L.faults self.old.log.device ≤ L.faults self.new.log.device }
        ensures fuse { Blames L.passes L.refused L.own self.old.log.device self.new.log.device (IsErrAnd result IsLogFault) }
    {
        self.live()?;
        let n = blocks_before(&self.log, upto);
        if n == 0 {
            return Ok(());
        }
        self.last_read = None;
        self.log.drop_front(n)?;
        Ok(())
    }

    /// The LSN of the last stable record, 0 where none is stable.
    pub fn durable(&self) -> Lsn
        ensures { result ≡ durable_lsn self.now.log.places }
    {
        self.log.durable_lsn()
    }

    /// The LSN of the last record, 0 where there is none.
    pub fn last(&self) -> Lsn
        ensures { result ≡ self.now.log.next - 1 }
    {
        (self.log.next() + self.counted.records).saturating_sub(1)
    }

    /// The LSN of the first record that is kept; of the next record, where none is.
    pub fn first_kept(&self) -> Lsn
        ensures { result ≡ first_kept self.now.log }
    {
        if self.log.blocks() == 0 {
            self.log.next()
        } else {
            self.log.first_of(0)
        }
    }

    /// The LSN of the last Checkpoint, 0 where the log has none.
    pub fn checkpoint(&self) -> Lsn
        // Where none of the records that are kept is one, it stood before them.
        ensures last { L.tells → (before : ℕ) (stable waiting : List Record) → IsLogOf L.told L.may_leave self.now.log before stable waiting
            → IsLastCheckpoint before (first_kept self.now.log) (stable ++ waiting) result }
        ensures header { L.tells → (before : ℕ) (stable waiting : List Record) → IsLogOf L.told L.may_leave self.now.log before stable waiting → result ≡ checkpoint_of self.now.log }
    {
        self.counted.checkpoint
    }

    /// For how many commits there is room.
    pub fn spare(&self) -> usize
        ensures { result ≡ self.now.spare }
    {
        self.batch.spare()
    }

    /// The durable LSN when a device call failed, if one has: then the log has ended.
    pub fn ended(&self) -> Option<Lsn>
        ensures { result ≡ self.now.log.ended }
    {
        self.log.ended()
    }

    /// Arms the disk's fuse, which lets n more calls pass, or renews it.
    pub fn fuse(&mut self, n: Option<u64>)
        ensures same { self.new ≡ record self.old { log = record self.old.log { device = self.new.log.device } } }
        ensures records { L.tells → (before : ℕ) (stable waiting : List Record) → IsLogOf L.told L.may_leave self.old.log before stable waiting → IsLogOf L.told L.may_leave self.new.log before stable waiting }
        ensures any_moment { LeavesOnly L.moment L.left_since self.old.log.device self.new.log.device (λ k. L.may_leave self.old.log.device k) }
        ensures faults { L.faults self.new.log.device ≡ L.faults self.old.log.device }
        ensures fuse { Armed L.fuses L.passes L.refused L.own n self.old.log.device self.new.log.device }
        ensures told { L.tells → L.told self.new.log.device ≡ L.told self.old.log.device }
    {
        self.log.fuse(n);
    }

    /// How many calls the disk's fuse has refused.
    pub fn refused(&self) -> u64
        ensures { result ≡ min (L.refused self.now.log.device) (2 ^ 64 - 1) }
    {
        self.log.refused()
    }

    /// The disk, as it is.
    pub fn into_device(self) -> L
        ensures { result ≡ self.log.device }
    {
        let LogManager { log, .. } = self;
        log.into_device()
    }

    /// No device call has failed.
    fn live(&self) -> Result<(), Fault>
        ensures live { OnOk result (self.now.log.ended ≡ None) }
        ensures ended { IfErr result (λ fault. (at : ℕ) × (fault ≡ faults.Ended at) × (self.now.log.ended ≡ Some at)) }
    {
        match self.log.ended() {
            Some(at) => Err(Fault::Ended { at }),
            None => Ok(()),
        }
    }
}

/// How many records a group has.
fn count_of(recs: &[Record]) -> u16
    requires { length recs.now ≤ 3 }
    ensures { result ≡ length recs.now }
{
    recs.len() as u16
}

/// The blocks in memory join the pending ones of the log.
fn hand_over<L: Disk>(log: &mut BlockLog<L>, batch: &mut Batch, counted: &mut Counted)
    requires { IsCounted log.old batch.old.blocks batch.old.spare counted.old }
    ensures log { log.new ≡ with_batch log.old batch.old.blocks }
    ensures batch { batch.new ≡ record { blocks = []; spare = batch.old.spare } }
    ensures counted { IsCounted log.new [] batch.old.spare counted.new }
{
    if batch.is_empty() {
        return;
    }
    log.append_batch(batch);
    counted.records = 0;
    counted.bytes = COMMIT * batch.spare() as u64;
}

/// The blocks in memory join the log, where one of them has the record of this LSN.
fn reach<L: Disk>(log: &mut BlockLog<L>, batch: &mut Batch, counted: &mut Counted, lsn: Lsn)
    requires counted { IsCounted log.old batch.old.blocks batch.old.spare counted.old }
    requires kept { lsn < log.old.next + records_in batch.old.blocks }
    ensures same { with_batch log.new batch.new.blocks ≡ with_batch log.old batch.old.blocks }
    ensures spare { batch.new.spare ≡ batch.old.spare }
    ensures counted { IsCounted log.new batch.new.blocks batch.new.spare counted.new }
    ensures reached { lsn < log.new.next }
    ensures last { (read : ReadBlock) → IsLastRead L.tells L.told log.old read → IsLastRead L.tells L.told log.new read }
{
    if lsn < log.next() {
        return;
    }
    hand_over(log, batch, counted);
}

/// The payload of the block that has this LSN becomes the one that was read last.
fn hold<L: Disk>(
    alloc: Global,
    log: &mut BlockLog<L>,
    last: &mut Option<LastRead>,
    lsn: Lsn,
) -> Result<(), Fault>
    requires kept { (first_kept log.old ≤ lsn) × (lsn < log.old.next) }
    requires live { log.old.ended ≡ None }
    requires last { IfSome last.old (IsLastRead L.tells L.told log.old) }
    ensures held { OnOk result (IsSome last.new × IfSome last.new (λ read. IsWithin read lsn)) }
    ensures last { IfSome last.new (IsLastRead L.tells L.told log.new) }
    ensures same { log.new ≡ record log.old { device = log.new.device; ended = log.new.ended } }
    ensures numbered { AreNumbered log.old }
    ensures durable { L.tells → (bs : List Block) → IsDurable L.told L.may_leave log.old bs → IsDurable L.told L.may_leave log.new bs }
    ensures any_moment { LeavesOnly L.moment L.left_since log.old.device log.new.device (λ k. L.may_leave log.old.device k) }
    ensures live { OnOk result (log.new.ended ≡ None) }
    ensures refused { IfErr result (Refused ⊤ L.faults log.old log.new) }
    ensures later { L.faults log.old.device ≤ L.faults log.new.device }
    ensures fuse { Blames L.passes L.refused L.own log.old.device log.new.device (IsErrAnd result IsLogFault) }
{
    let blocks = log.blocks();
    if has(last, lsn) {
        return Ok(());
    }
    *last = None;
    let block = block_of(log, blocks, lsn);
    let (first, behind) = span_of(log, blocks, block);
    let mut payload = Vec::new(alloc);
    log.read_block(block, &mut payload)?;
    *last = Some(LastRead::new(alloc, block, first, behind, payload)?);
    Ok(())
}

/// Whether a payload is there, and its block has this LSN.
fn has(last: &Option<LastRead>, lsn: Lsn) -> bool
    ensures { (result ≡ true) → IsSome last.now × IfSome last.now (λ read. IsWithin read lsn) }
{
    match last {
        Some(read) => read.has(lsn),
        None => false,
    }
}

/// The LSN of a block's first record, and that behind its last.
fn span_of<L: Disk>(log: &BlockLog<L>, blocks: u64, block: u64) -> (Lsn, Lsn)
    requires blocks { blocks ≡ length log.now.places + length log.now.pending }
    requires within { block < blocks }
    ensures first { result.0 ≡ slice_index_or (firsts log.now) block 0 }
    ensures behind { result.1 ≡ slice_index_or (firsts log.now) (block + 1) log.now.next }
{
    let behind = if block + 1 < blocks {
        log.first_of(block + 1)
    } else {
        log.next()
    };
    (log.first_of(block), behind)
}

/// The number of the block that has the record of this LSN, of so many.
fn block_of<L: Disk>(log: &BlockLog<L>, blocks: u64, lsn: Lsn) -> u64
    requires blocks { blocks ≡ length log.now.places + length log.now.pending }
    requires kept { (first_kept log.now ≤ lsn) × (lsn < log.now.next) }
    ensures { HasLsn (firsts log.now) lsn result }
{
    let mut low = 0;
    let mut high = blocks;
    while high - low > 1 {
        let middle = low + (high - low) / 2;
        if log.first_of(middle) <= lsn {
            low = middle;
        } else {
            high = middle;
        }
    }
    low
}

/// How many durable blocks end before an LSN and aren't the last.
fn blocks_before<L: Disk>(log: &BlockLog<L>, upto: Lsn) -> u64
    ensures { result ≡ before_lsn upto log.now.places }
{
    let last = log.durable().saturating_sub(1);
    let mut n = 0;
    while n < last && log.first_of(n + 1) <= upto {
        n += 1;
    }
    n
}
