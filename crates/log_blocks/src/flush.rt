//! A flush makes the first gate where there is none, and then writes block after block.
ghost use Rattle.std.specs.Prelude.{◌≡◌, ◌⊎◌, ◌+◌, ◌-◌, ◌<◌, ◌≤◌, ◌^◌, ◌++◌, ◌∷◌, [], ℕ, List, length, take, drop, OnOk, slice_index_or};
ghost use Rattle.media.specs.Cause.{HasCause};
ghost use Rattle.media.specs.Counted.{Blames, Fails};
ghost use Rattle.media.specs.Crash.{Only, LeavesOnly};
ghost use Rattle.log_blocks.specs.Batch.{AreSized};
ghost use Rattle.log_blocks.specs.Log.{Block, Behind, IsSequence, StandsFor, StandsForSome, blocks, laid};
ghost use Rattle.log_blocks.specs.Opening.{FlushLeaves, Progress, place_of};

use crate::block::BlockBuf;
use crate::header::Place;
use crate::layout::CLOSED;
use crate::waiting::Waiting;
use crate::write::{put_down, write_block};
use media::{Disk, Failed};
use std::collections::LinkedList;

/// A closed gate stands behind the blocks. On a blank disk it is written; where it stands, but no block does, the disk
/// is synced.
fn make_gate<D: Disk>(device: &mut D, gate: u64, is_first: bool) -> Result<(), Failed>
    requires not_before { D.start device.old ≤ gate }
    requires at_start { D.len device.old - D.start device.old ≤ 1 → gate ≡ D.start device.old }
    requires not_past { 1 < D.len device.old - D.start device.old → gate < D.len device.old }
    requires fits { gate + 1 < 2 ^ 63 }
    ensures start { D.start device.new ≡ D.start device.old }
    ensures not_past { OnOk result (gate < D.len device.new) }
    ensures durable { D.tells → Only (D.told device.old) (D.may_leave device.old) → OnOk result (Only (D.told device.new) (D.may_leave device.new)) }
    ensures stands { D.tells → (bs : List _) → StandsFor bs (D.told device.old) → gate ≡ D.start device.old + length (blocks bs)
        → OnOk result (Behind (D.start device.old) (blocks bs) (D.told device.new)) }
    ensures left { D.tells → (bs : List _) → StandsFor bs (D.told device.old) → StandsFor bs (D.told device.new) }
    ensures any_moment { D.tells → Only (D.told device.old) (D.may_leave device.old) → (bs : List _) → StandsFor bs (D.told device.old)
        → LeavesOnly D.moment D.left_since device.old device.new (StandsFor bs) }
    ensures cause { HasCause D.faults device.old device.new result }
    ensures fuse { Blames D.passes D.refused D.own device.old device.new (Fails result) }
{
    if device.len() - device.start() <= 1 {
        put_down(device, gate, &[CLOSED])
    } else if is_first {
        device.sync()
    } else {
        Ok(())
    }
}

/// Makes the first gate where no block is durable yet, and writes the pending blocks.
pub fn flush_all<D: Disk>(
    device: &mut D,
    gate: &mut u64,
    done: &mut LinkedList<Place>,
    pending: &mut Waiting,
    is_first: bool,
) -> Result<(), Failed>
    requires not_before { D.start device.old ≤ gate.old }
    requires at_start { D.len device.old - D.start device.old ≤ 1 → gate.old ≡ D.start device.old }
    requires not_past { 1 < D.len device.old - D.start device.old → gate.old < D.len device.old }
    requires fits { gate.old + length (blocks pending.old) + 1 < 2 ^ 63 }
    requires few { length done.old + length pending.old < 2 ^ 63 }
    requires sized { AreSized pending.old }
    ensures start { D.start device.new ≡ D.start device.old }
    ensures progress { Progress gate.old done.old pending.old gate.new done.new pending.new }
    ensures all { OnOk result (pending.new ≡ []) }
    ensures not_past { OnOk result (gate.new < D.len device.new) }
    ensures durable { D.tells → Only (D.told device.old) (D.may_leave device.old) → OnOk result (Only (D.told device.new) (D.may_leave device.new)) }
    ensures written { D.tells → (bs : List _) → gate.old ≡ D.start device.old + length (blocks bs)
        → StandsFor bs (D.told device.old) → IsSequence (D.start device.old) (bs ++ pending.old)
        → OnOk result (StandsFor (bs ++ pending.old) (D.told device.new)) }
    // A crash at any moment leaves the blocks that stood before, then some of these in order, none in part.
    ensures any_moment { D.tells → Only (D.told device.old) (D.may_leave device.old)
        → (bs : List _) → gate.old ≡ D.start device.old + length (blocks bs)
        → StandsFor bs (D.told device.old) → IsSequence (D.start device.old) (bs ++ pending.old)
        → LeavesOnly D.moment D.left_since device.old device.new (StandsForSome bs pending.old) }
    ensures left { D.tells → Only (D.told device.old) (D.may_leave device.old)
        → (bs : List _) → gate.old ≡ D.start device.old + length (blocks bs)
        → StandsFor bs (D.told device.old) → IsSequence (D.start device.old) (bs ++ pending.old)
        → FlushLeaves D.told D.may_leave bs pending.old pending.new device.new }
    ensures cause { HasCause D.faults device.old device.new result }
    ensures fuse { Blames D.passes D.refused D.own device.old device.new (Fails result) }
{
    make_gate(device, *gate, is_first)?;
    write_waiting(device, gate, done, pending)
}

/// Writes the pending blocks, in their nodes.
fn write_waiting<D: Disk>(
    device: &mut D,
    gate: &mut u64,
    done: &mut LinkedList<Place>,
    pending: &mut Waiting,
) -> Result<(), Failed>
    requires not_before { D.start device.old ≤ gate.old }
    requires not_past { gate.old < D.len device.old }
    requires fits { gate.old + length (blocks pending.old) + 1 < 2 ^ 63 }
    requires few { length done.old + length pending.old < 2 ^ 63 }
    requires sized { AreSized pending.old }
    ensures start { D.start device.new ≡ D.start device.old }
    ensures progress { Progress gate.old done.old pending.old gate.new done.new pending.new }
    ensures all { OnOk result (pending.new ≡ []) }
    ensures not_past { gate.new < D.len device.new }
    ensures durable { D.tells → Only (D.told device.old) (D.may_leave device.old) → OnOk result (Only (D.told device.new) (D.may_leave device.new)) }
    ensures written { D.tells → (bs : List _) → gate.old ≡ D.start device.old + length (blocks bs)
        → Behind (D.start device.old) (blocks bs) (D.told device.old)
        → OnOk result (Behind (D.start device.old) (blocks (bs ++ pending.old)) (D.told device.new)) }
    // A crash at any moment leaves the blocks that stood before, then some of these in order, none in part.
    ensures any_moment { D.tells → Only (D.told device.old) (D.may_leave device.old)
        → (bs : List _) → gate.old ≡ D.start device.old + length (blocks bs)
        → Behind (D.start device.old) (blocks bs) (D.told device.old)
        → IsSequence (D.start device.old) (bs ++ pending.old)
        → LeavesOnly D.moment D.left_since device.old device.new (StandsForSome bs pending.old) }
    ensures left { D.tells → Only (D.told device.old) (D.may_leave device.old)
        → (bs : List _) → gate.old ≡ D.start device.old + length (blocks bs)
        → Behind (D.start device.old) (blocks bs) (D.told device.old)
        → IsSequence (D.start device.old) (bs ++ pending.old)
        → FlushLeaves D.told D.may_leave bs pending.old pending.new device.new }
    ensures cause { HasCause D.faults device.old device.new result }
    ensures fuse { Blames D.passes D.refused D.own device.old device.new (Fails result) }
{
    let mut blocks = pending.take();
    let written = write_pending(device, gate, done, &mut blocks);
    pending.append(&mut blocks);
    written
}

/// Writes the pending blocks one after the other. Those that are done are no longer pending.
fn write_pending<D: Disk>(
    device: &mut D,
    gate: &mut u64,
    done: &mut LinkedList<Place>,
    pending: &mut LinkedList<BlockBuf>,
) -> Result<(), Failed>
    requires not_before { D.start device.old ≤ gate.old }
    requires not_past { gate.old < D.len device.old }
    requires fits { gate.old + length (blocks pending.old) + 1 < 2 ^ 63 }
    requires few { length done.old + length pending.old < 2 ^ 63 }
    requires sized { AreSized pending.old }
    ensures start { D.start device.new ≡ D.start device.old }
    ensures progress { Progress gate.old done.old pending.old gate.new done.new pending.new }
    ensures all { OnOk result (pending.new ≡ []) }
    ensures not_past { gate.new < D.len device.new }
    ensures durable { D.tells → Only (D.told device.old) (D.may_leave device.old) → OnOk result (Only (D.told device.new) (D.may_leave device.new)) }
    ensures written { D.tells → (bs : List _) → gate.old ≡ D.start device.old + length (blocks bs)
        → Behind (D.start device.old) (blocks bs) (D.told device.old)
        → OnOk result (Behind (D.start device.old) (blocks (bs ++ pending.old)) (D.told device.new)) }
    // A crash at any moment leaves the blocks that stood before, then some of these in order, none in part.
    ensures any_moment { D.tells → Only (D.told device.old) (D.may_leave device.old)
        → (bs : List _) → gate.old ≡ D.start device.old + length (blocks bs)
        → Behind (D.start device.old) (blocks bs) (D.told device.old)
        → IsSequence (D.start device.old) (bs ++ pending.old)
        → LeavesOnly D.moment D.left_since device.old device.new (StandsForSome bs pending.old) }
    ensures left { D.tells → Only (D.told device.old) (D.may_leave device.old)
        → (bs : List _) → gate.old ≡ D.start device.old + length (blocks bs)
        → Behind (D.start device.old) (blocks bs) (D.told device.old)
        → IsSequence (D.start device.old) (bs ++ pending.old)
        → FlushLeaves D.told D.may_leave bs pending.old pending.new device.new }
    ensures cause { HasCause D.faults device.old device.new result }
    ensures fuse { Blames D.passes D.refused D.own device.old device.new (Fails result) }
{
    while !pending.is_empty() {
        let bytes = first_bytes(pending);
        write_block(device, *gate, bytes)?;
        let length = bytes.len() as u64;
        settle_first(done, pending, *gate);
        *gate += length;
    }
    Ok(())
}

/// The bytes of the first block.
fn first_bytes(pending: &LinkedList<BlockBuf>) -> &[u8]
    requires { 0 < length pending.now }
    ensures { (b : Block) → b ≡ slice_index_or pending.now 0 b → result.now ≡ laid b }
{
    match pending.front() {
        Some(block) => block.bytes(),
        None => unreachable!(),
    }
}

/// The first block is no longer pending, and its place joins those that are done.
fn settle_first(done: &mut LinkedList<Place>, pending: &mut LinkedList<BlockBuf>, at: u64)
    requires some { 0 < length pending.old }
    requires few { length done.old + 1 < 2 ^ 63 }
    requires sized { AreSized pending.old }
    ensures pending { pending.new ≡ drop 1 pending.old }
    ensures done { (b : Block) → b ≡ slice_index_or pending.old 0 b → done.new ≡ done.old ++ place_of at b ∷ [] }
{
    match pending.pop_front() {
        Some(block) => match done.append(&mut block.into_place(at)) {
            Ok(()) => {}
            Err(_) => unreachable!(),
        },
        None => unreachable!(),
    }
}
