//! The log as a list of blocks.
ghost use Rattle.std.specs.Prelude.{◌≡◌, ◌⊎◌, ◌+◌, ◌-◌, ◌<◌, ◌≤◌, ◌^◌, ◌++◌, ◌∷◌, [], ℕ, List, length, drop, map, Option, None, Some, Ok, Err, OnOk, OnErr, IfOk, IfErr, IsErrAnd, IsOk, MatchOption, MatchResult, slice_index_or, min, vec_len, vec_capacity, ⊤};
ghost use Rattle.media.specs.Cause.{Rose};
ghost use Rattle.media.specs.Counted.{Armed, Blames};
ghost use Rattle.media.specs.Crash.{LeavesOnly, NoMore};
ghost use Rattle.media.specs.Kept.{Kept, bytes_at};
ghost use Rattle.store_model.specs.declared.fault.Fault.TheVariants as faults;
ghost use Rattle.log_blocks.specs.Batch.{IsChecked, numbered, records_in, AreSized};
ghost use Rattle.log_blocks.specs.Log.{Block, IsRun, StandsFor, StandsForSome, blocks, laid, next_lsn};
ghost use Rattle.log_blocks.specs.LogState.{AreNumbered, LogState, IsDurable, Refused, checkpoint_of, counts, durable_lsn, firsts, last_or, log_end, payload_at};
ghost use Rattle.log_blocks.specs.Opening.{DropLeaves, FlushLeaves, IsLogFault, Progress, RoseFor, StandsForRest, TellsFault, places};

use crate::batch::{Batch, pass};
use crate::block::BlockBuf;
use crate::flush::flush_all;
use crate::header::Place;
use crate::layout::PAYLOAD_AT;
use crate::opening::walk;
use crate::waiting::Waiting;
use media::Disk;
use std::alloc::Global;
use std::collections::LinkedList;
use std::marker::Model;
use store_model::{Fault, Lsn, Memory};

/// The blocks of a log: those that are durable on its disk, and pending ones in memory.
#[derive(Drop)]
pub struct BlockLog<L: Disk> {
    alloc: Global,
    device: L,
    /// The durable blocks, oldest first.
    places: Vec<Place>,
    /// Those behind them, in the nodes that they brought.
    recent: LinkedList<Place>,
    pending: Waiting,
    /// Where the gate behind the durable blocks stands.
    gate: u64,
    /// Where the gate behind the pending blocks will stand.
    end: u64,
    /// The LSN that the next record gets.
    next: Lsn,
    /// The durable LSN when a device call failed.
    ended: Option<Lsn>,
}

impl<L: Disk> Model for BlockLog<L> {
    ghost use Rattle.std.specs.Prelude.{◌≡◌, ◌++◌, None};
    ghost use Rattle.log_blocks.specs.LogState.{LogState, IsWhole, IsLive};

    ghost Value = { LogState L };

    ghost view = { λ b. record { device = b.device; places = b.places.items ++ b.recent; pending = b.pending; gate = b.gate; next = b.next; ended = b.ended } };

    ghost invariant = { λ b. record {
      whole : IsWhole (b.places.items ++ b.recent) b.pending b.gate b.next b.end;
      live : b.ended ≡ None → IsLive (L.start b.device) (L.len b.device) (b.places.items ++ b.recent) b.gate;
    } };
}

/// A log that can't be opened, with its disk.
#[derive(Drop)]
pub struct OpenRefused<L> {
    pub disk: L,
    pub fault: Fault,
}

/// Syncs the disk and reads the headers of its blocks. No byte changes, and nothing is pending.
pub fn open_log<L: Disk>(alloc: Global, disk: L) -> Result<BlockLog<L>, OpenRefused<L>>
    // The blocks are the ones that the kept bytes stand for.
    ensures blocks { L.tells → IfOk result (λ log. (bs : List Block) × IsDurable L.told L.may_leave log bs) }
    ensures fresh { IfOk result (λ log. (log.pending ≡ []) × (log.ended ≡ None)) }
    // Where they stand for none, the first field that is cut or breaks a rule is named.
    ensures bad { L.tells → IfErr result (λ r. TellsFault (L.told disk) r.fault) }
    ensures same { L.tells → MatchResult result (λ log. L.told log.device ≡ L.told disk) (λ r. L.told r.disk ≡ L.told disk) }
    ensures any_moment { MatchResult result
        (λ log. LeavesOnly L.moment L.left_since disk log.device (λ c. L.may_leave disk c))
        (λ r. LeavesOnly L.moment L.left_since disk r.disk (λ c. L.may_leave disk c)) }
    ensures cause { IfErr result (λ r. RoseFor (L.faults disk) (L.faults r.disk) r.fault) }
    ensures later { MatchResult result (λ log. L.faults disk ≤ L.faults log.device) (λ r. L.faults disk ≤ L.faults r.disk) }
    // Where a device call failed, the device itself did, or a fuse that was armed refused the call; else none refused one.
    ensures fuse { MatchResult result
        (λ log. Blames L.passes L.refused L.own disk log.device ⊥)
        (λ r. Blames L.passes L.refused L.own disk r.disk (IsLogFault r.fault)) }
{
    let mut disk = disk;
    if disk.sync().is_err() {
        return Err(OpenRefused {
            disk,
            fault: Fault::LogFault,
        });
    }
    match walk(alloc, &mut disk) {
        Ok(found) => Ok(BlockLog {
            alloc,
            device: disk,
            places: found.places,
            recent: LinkedList::new(alloc),
            pending: Waiting::new(alloc),
            gate: found.gate,
            end: found.gate,
            next: found.next.max(1),
            ended: None,
        }),
        Err(fault) => Err(OpenRefused { disk, fault }),
    }
}

impl<L: Disk> BlockLog<L> {
    /// How many blocks there are, pending ones among them.
    pub fn blocks(&self) -> u64
        ensures value { result ≡ length self.now.places + length self.now.pending }
        ensures numbered { AreNumbered self.now }
    {
        self.durable() + self.pending.len() as u64
    }

    /// How many durable blocks there are.
    pub fn durable(&self) -> u64
        ensures { result ≡ length self.now.places }
    {
        self.places.len() as u64 + self.recent.len() as u64
    }

    /// The LSN that the next record gets.
    pub fn next(&self) -> Lsn
        ensures { result ≡ self.now.next }
    {
        self.next
    }

    /// The LSN of the last durable record, 0 where none is durable.
    pub fn durable_lsn(&self) -> Lsn
        ensures value { result ≡ durable_lsn self.now.places }
        ensures numbered { AreNumbered self.now }
    {
        lsn_before(&self.pending, self.next)
    }

    /// The offset where the gate of the next block will stand.
    pub fn end(&self) -> u64
        ensures { result ≡ log_end self.now }
    {
        self.end
    }

    /// The durable LSN when a device call failed, if one has: then the log has ended.
    pub fn ended(&self) -> Option<Lsn>
        ensures { result ≡ self.now.ended }
    {
        self.ended
    }

    /// The first LSN of a block, counted from 0.
    pub fn first_of(&self, i: u64) -> Lsn
        requires { i < length self.now.places + length self.now.pending }
        ensures { result ≡ slice_index_or (firsts self.now) i 0 }
    {
        if i < self.durable() {
            self.place(i as usize).first
        } else {
            self.waiting((i - self.durable()) as usize).first()
        }
    }

    /// How many records a block has, counted from 0.
    pub fn count_of(&self, i: u64) -> u16
        requires { i < length self.now.places + length self.now.pending }
        ensures { result ≡ slice_index_or (counts self.now) i 0 }
    {
        if i < self.durable() {
            self.place(i as usize).count
        } else {
            self.waiting((i - self.durable()) as usize).count()
        }
    }

    /// The Checkpoint LSN of the last block, pending ones among them, 0 where there is none.
    pub fn checkpoint(&self) -> Lsn
        ensures { result ≡ checkpoint_of self.now }
    {
        let pending = self.pending.len();
        if pending == 0 {
            return last_checkpoint(&self.places, &self.recent);
        }
        self.pending.get(pending - 1).checkpoint()
    }

    /// Brings all blocks to where each is found at once, which may take memory.
    pub fn settle(&mut self) -> Result<(), Memory>
        ensures { self.new ≡ self.old }
    {
        self.pending.settle()?;
        settle(&mut self.places, &mut self.recent)
    }

    /// Moves all blocks of the batch to the end of the pending ones, without memory. The batch keeps its spare.
    pub fn append_batch(&mut self, batch: &mut Batch)
        requires checked { IsChecked self.old.next batch.old.blocks }
        requires records { self.old.next + records_in batch.old.blocks ≤ 2 ^ 62 }
        requires bytes { log_end self.old + length (blocks batch.old.blocks) < 2 ^ 62 }
        ensures appended { self.new ≡ record self.old { pending = self.old.pending ++ numbered self.old.next batch.old.blocks; next = self.old.next + records_in batch.old.blocks } }
        ensures left { batch.new ≡ record { blocks = []; spare = batch.old.spare } }
    {
        let mut more = batch.take_blocks();
        let mut numbered = LinkedList::new(self.alloc);
        let (next, end) = join_numbered(&mut numbered, &mut more, self.next, self.end);
        self.pending.append(&mut numbered);
        self.next = next;
        self.end = end;
    }

    /// Makes the pending blocks durable, one after the other. After a fault those that are durable stay so.
    pub fn flush(&mut self) -> Result<(), Fault>
        ensures all { OnOk result ((self.new.pending ≡ []) × (self.new.ended ≡ None)) }
        ensures progress { Progress self.old.gate self.old.places self.old.pending self.new.gate self.new.places self.new.pending }
        ensures next { self.new.next ≡ self.old.next }
        ensures numbered { OnOk result (AreNumbered self.new) }
        ensures durable { L.tells → (bs : List Block) → IsDurable L.told L.may_leave self.old bs
            → OnOk result (IsDurable L.told L.may_leave self.new (bs ++ self.old.pending)) }
        // A crash at any moment leaves the blocks that were durable before, then some of the pending ones in order, none
        // in part.
        ensures any_moment { L.tells → (bs : List Block) → IsDurable L.told L.may_leave self.old bs
            → LeavesOnly L.moment L.left_since self.old.device self.new.device (StandsForSome bs self.old.pending) }
        // After a fault, too, a read gives the durable blocks, which are at least those before and those that are no longer
        // pending, and then maybe further ones in order.
        ensures left { L.tells → (bs : List Block) → IsDurable L.told L.may_leave self.old bs
            → FlushLeaves L.told L.may_leave bs self.old.pending self.new.pending self.new.device }
        ensures refused { IfErr result (Refused ⊥ L.faults self.old self.new) }
        ensures live { OnOk result (self.old.ended ≡ None) }
        ensures later { L.faults self.old.device ≤ L.faults self.new.device }
        ensures fuse { Blames L.passes L.refused L.own self.old.device self.new.device (IsErrAnd result IsLogFault) }
    {
        self.live()?;
        if self.pending.is_empty() {
            return Ok(());
        }
        let is_first = self.durable() == 0;
        match flush_all(
            &mut self.device,
            &mut self.gate,
            &mut self.recent,
            &mut self.pending,
            is_first,
        ) {
            Ok(()) => Ok(()),
            Err(_) => {
                self.ended = Some(lsn_before(&self.pending, self.next));
                Err(Fault::LogFault)
            }
        }
    }

    /// Appends the payload of a block, counted from 0, to `out`, which is as before after a refusal.
    pub fn read_block(&mut self, i: u64, out: &mut Vec<u8>) -> Result<(), Fault>
        requires { i < length self.old.places + length self.old.pending }
        // It is that of whatever blocks the disk has at these places.
        ensures payload { L.tells → (bs : List Block) → StandsFor bs (L.told self.old.device) → self.old.places ≡ places (L.told self.old.device).start bs
            → OnOk result (out.new.items ≡ out.old.items ++ payload_at (bs ++ self.old.pending) i) }
        ensures out_same { OnErr result (out.new.items ≡ out.old.items) }
        ensures same { self.new ≡ record self.old { device = self.new.device; ended = self.new.ended } }
        ensures told { L.tells → L.told self.new.device ≡ L.told self.old.device }
        ensures durable { L.tells → (bs : List Block) → IsDurable L.told L.may_leave self.old bs → IsDurable L.told L.may_leave self.new bs }
        ensures any_moment { LeavesOnly L.moment L.left_since self.old.device self.new.device (λ c. L.may_leave self.old.device c) }
        ensures live { OnOk result ((self.old.ended ≡ None) × (self.new.ended ≡ None)) }
        ensures refused { IfErr result (Refused ⊤ L.faults self.old self.new) }
        ensures later { L.faults self.old.device ≤ L.faults self.new.device }
        ensures fuse { Blames L.passes L.refused L.own self.old.device self.new.device (IsErrAnd result IsLogFault) }
    {
        self.live()?;
        let durable = self.durable();
        if i >= durable {
            let payload = self.waiting((i - durable) as usize).payload();
            out.extend_from_slice(payload)?;
            return Ok(());
        }
        settle(&mut self.places, &mut self.recent)?;
        let place = self.place(i as usize);
        match read_payload(
            self.alloc,
            &mut self.device,
            place.at + PAYLOAD_AT as u64,
            place.length as usize,
            out,
        ) {
            Ok(()) => Ok(()),
            Err(Fault::Memory) => Err(Fault::Memory),
            Err(_) => {
                self.ended = Some(lsn_before(&self.pending, self.next));
                Err(Fault::LogFault)
            }
        }
    }

    /// Discards the first n blocks, which are durable, but not all that are.
    pub fn drop_front(&mut self, n: u64) -> Result<(), Fault>
        requires { n < length self.old.places }
        ensures dropped { OnOk result (self.new ≡ record self.old { device = self.new.device; places = drop n self.old.places }) }
        ensures same { OnErr result (self.new ≡ record self.old { device = self.new.device; ended = self.new.ended }) }
        ensures durable { L.tells → (bs : List Block) → IsDurable L.told L.may_leave self.old bs → OnOk result (IsDurable L.told L.may_leave self.new (drop n bs)) }
        // A crash at any moment leaves all durable blocks, or all but those.
        ensures any_moment { L.tells → (bs : List Block) → IsDurable L.told L.may_leave self.old bs
            → LeavesOnly L.moment L.left_since self.old.device self.new.device (StandsForRest bs n) }
        // After a fault, too, a read gives all of them, or all but those.
        ensures left { L.tells → (bs : List Block) → IsDurable L.told L.may_leave self.old bs → DropLeaves L.told L.may_leave bs n self.new.device }
        ensures live { OnOk result (self.old.ended ≡ None) }
        ensures refused { IfErr result (Refused ⊥ L.faults self.old self.new) }
        ensures later { L.faults self.old.device ≤ L.faults self.new.device }
        ensures fuse { Blames L.passes L.refused L.own self.old.device self.new.device (IsErrAnd result IsLogFault) }
    {
        self.live()?;
        let upto = self.place(n as usize).at;
        match self.device.discard(upto) {
            Ok(()) => {
                drop_first(&mut self.places, &mut self.recent, n as usize);
                Ok(())
            }
            Err(_) => {
                self.ended = Some(lsn_before(&self.pending, self.next));
                Err(Fault::LogFault)
            }
        }
    }

    /// Arms the disk's fuse, which lets n more calls pass, or renews it.
    pub fn fuse(&mut self, n: Option<u64>)
        ensures same { self.new ≡ record self.old { device = self.new.device } }
        ensures durable { L.tells → (bs : List Block) → IsDurable L.told L.may_leave self.old bs → IsDurable L.told L.may_leave self.new bs }
        ensures any_moment { LeavesOnly L.moment L.left_since self.old.device self.new.device (λ c. L.may_leave self.old.device c) }
        ensures faults { L.faults self.new.device ≡ L.faults self.old.device }
        ensures fuse { Armed L.fuses L.passes L.refused L.own n self.old.device self.new.device }
        ensures told { L.tells → L.told self.new.device ≡ L.told self.old.device }
    {
        self.device.fuse(n);
    }

    /// The disk, as it is.
    pub fn into_device(self) -> L
        ensures { result ≡ self.device }
    {
        let BlockLog { device, .. } = self;
        device
    }

    /// How many calls the disk's fuse has refused.
    pub fn refused(&self) -> u64
        ensures { result ≡ min (L.refused self.now.device) (2 ^ 64 - 1) }
    {
        self.device.refused()
    }

    /// No device call has failed.
    fn live(&self) -> Result<(), Fault>
        ensures exact { MatchOption self.now.ended (IsOk result) (λ at. result ≡ Err (faults.Ended at)) }
        ensures live { OnOk result (self.now.ended ≡ None) }
    {
        match self.ended {
            Some(at) => Err(Fault::Ended { at }),
            None => Ok(()),
        }
    }

    fn place(&self, i: usize) -> Place
        requires { i < length self.now.places }
        ensures { result ≡ slice_index_or self.now.places i result }
    {
        if i < self.places.len() {
            return self.places[i];
        }
        match self.recent.iter().nth(i - self.places.len()) {
            Some(place) => *place,
            None => unreachable!(),
        }
    }

    fn waiting(&self, i: usize) -> &BlockBuf
        requires { i < length self.now.pending }
        ensures { result.now ≡ slice_index_or self.now.pending i result.now }
    {
        self.pending.get(i)
    }
}

/// The Checkpoint LSN of the last durable block, 0 where there is none.
fn last_checkpoint(places: &[Place], recent: &LinkedList<Place>) -> Lsn
    ensures { result ≡ last_or 0 (map (λ p. p.checkpoint) (places.now ++ recent.now)) }
{
    match recent.back() {
        Some(place) => place.checkpoint,
        None => match places.last() {
            Some(place) => place.checkpoint,
            None => 0,
        },
    }
}

/// The LSN before that of the first pending record.
fn lsn_before(pending: &Waiting, next: Lsn) -> Lsn
    requires some { 1 ≤ next }
    ensures { (first : ℕ) → IsRun first pending.now → next ≡ next_lsn first pending.now → 1 ≤ first → result ≡ first - 1 }
{
    if pending.is_empty() {
        return next - 1;
    }
    pending.get(0).first().saturating_sub(1)
}

/// The blocks get their first LSNs, from this one on, and join the pending ones. Gives the LSN behind them, and the
/// offset.
fn join_numbered(
    pending: &mut LinkedList<BlockBuf>,
    more: &mut LinkedList<BlockBuf>,
    next: Lsn,
    end: u64,
) -> (Lsn, u64)
    requires records { next + records_in more.old ≤ 2 ^ 62 }
    requires bytes { end + length (blocks more.old) < 2 ^ 62 }
    requires few { length pending.old + length more.old < 2 ^ 63 }
    ensures pending { pending.new ≡ pending.old ++ numbered next more.old }
    ensures more { more.new ≡ [] }
    ensures next { result.0 ≡ next + records_in more.old }
    ensures end { result.1 ≡ end + length (blocks more.old) }
{
    let mut next = next;
    let mut end = end;
    while !more.is_empty() {
        let (count, size) = number_first(more, next);
        pass(pending, more);
        next += count;
        end += size;
    }
    (next, end)
}

/// The first block gets its first LSN. Gives how many records it has, and how many bytes with its gate.
fn number_first(more: &mut LinkedList<BlockBuf>, next: Lsn) -> (u64, u64)
    requires { 0 < length more.old }
    ensures { (b : Block) (rest : List Block) → more.old ≡ b ∷ rest → (more.new ≡ record { first = next; checkpoint = b.checkpoint; count = b.count; payload = b.payload } ∷ rest) × (result.0 ≡ b.count) × (result.1 ≡ length (laid b)) }
{
    match more.front_mut() {
        Some(block) => {
            block.set_first(next);
            (block.count() as u64, block.bytes().len() as u64)
        }
        None => unreachable!(),
    }
}

/// The places in the nodes join the others in the vector.
fn settle(places: &mut Vec<Place>, recent: &mut LinkedList<Place>) -> Result<(), Memory>
    ensures { places.new.items ++ recent.new ≡ places.old.items ++ recent.old }
{
    while !recent.is_empty() {
        places.reserve(1)?;
        settle_first(places, recent);
    }
    Ok(())
}

/// The place in the first node joins those in the vector, which has room for it.
fn settle_first(places: &mut Vec<Place>, recent: &mut LinkedList<Place>)
    requires some { 0 < length recent.old }
    requires room { vec_len places.old < vec_capacity places.old }
    ensures same { places.new.items ++ recent.new ≡ places.old.items ++ recent.old }
    ensures less { length recent.new + 1 ≡ length recent.old }
{
    match recent.pop_front() {
        Some(place) => match places.push(place) {
            Ok(()) => {}
            Err(_) => unreachable!(),
        },
        None => unreachable!(),
    }
}

/// The first n places are forgotten.
fn drop_first(places: &mut Vec<Place>, recent: &mut LinkedList<Place>, n: usize)
    requires { n ≤ length places.old.items + length recent.old }
    ensures { places.new.items ++ recent.new ≡ drop n (places.old.items ++ recent.old) }
{
    let settled = places.len();
    if n < settled {
        places.rotate_left(n);
        places.truncate(settled - n);
    } else {
        match recent.split_off(n - settled) {
            Ok(rest) => *recent = rest,
            Err(_) => unreachable!(),
        }
        places.clear();
    }
}

/// Appends this many bytes from an offset on.
fn read_payload<D: Disk>(
    alloc: Global,
    device: &mut D,
    at: u64,
    size: usize,
    out: &mut Vec<u8>,
) -> Result<(), Fault>
    requires not_before { D.start device.old ≤ at }
    requires within { at + size ≤ D.len device.old }
    ensures bytes { D.tells → OnOk result (out.new.items ≡ out.old.items ++ bytes_at (D.told device.old) at size) }
    ensures out_same { OnErr result (out.new.items ≡ out.old.items) }
    ensures place { (D.start device.new ≡ D.start device.old) × (D.len device.new ≡ D.len device.old) }
    ensures told { D.tells → D.told device.new ≡ D.told device.old }
    ensures crash { NoMore D.may_leave device.old device.new }
    ensures any_moment { LeavesOnly D.moment D.left_since device.old device.new (λ c. D.may_leave device.old c) }
    ensures later { D.faults device.old ≤ D.faults device.new }
    ensures cause { IfErr result (λ f. (f ≡ faults.Memory) ⊎ ((f ≡ faults.LogFault) × Rose (D.faults device.old) (D.faults device.new))) }
    ensures fuse { Blames D.passes D.refused D.own device.old device.new (IsErrAnd result IsLogFault) }
{
    let mut bytes = vec![in alloc; 0u8; size]?;
    if device.read_at(at, bytes.as_mut_slice()).is_err() {
        return Err(Fault::LogFault);
    }
    out.extend_from_slice(&bytes)?;
    Ok(())
}
