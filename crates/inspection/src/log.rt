//! The blocks and records of a log.
ghost use Rattle.std.specs.Prelude.{◌≡◌, ◌+◌, ◌≤◌, length, IsNone, OnOk, List};
ghost use Rattle.log_blocks.specs.Log as log;
ghost use Rattle.log_blocks.specs.LogState.{IsDurable};
ghost use Rattle.media.specs.Cause.{HasCause};

use crate::halt::Halt;
use crate::printing::write_line;
use crate::walk::{Block, Totals, Walk};
use field_line::Line;
use log_blocks::{CHECKPOINT_AT, COUNT_AT, FIRST_AT, LENGTH_AT, PAYLOAD_AT, open_log};
use media::{Disk, Sink};
use record_codec::{RecordFault, decode};
use record_line::record_line;
use std::alloc::{AllocError, Global};
use store_model::{Fault, Lsn};
use wal_record::Record;

/// Writes a line for each block and each record, and one for the log's end. It stops at the first fault.
pub fn inspect_log<L: Disk, K: Sink>(
    alloc: Global,
    disk: L,
    sink: &mut K,
) -> (L, Result<Totals, Halt>)
    // No byte changes.
    ensures same { L.tells → L.told result.0 ≡ L.told disk }
    // Where no fault is found, the kept bytes stand for blocks.
    ensures sound { L.tells → OnOk result.1 ((bs : List log.Block) × log.StandsFor bs (L.told disk)) }
{
    let Headers {
        mut disk,
        blocks,
        fault,
    } = judged(alloc, disk);
    let outcome = list_log(alloc, &mut disk, blocks, fault, sink);
    (disk, outcome)
}

/// What the headers of a log say: how many blocks stand before the first fault, and that fault.
struct Headers<L> {
    disk: L,
    blocks: u64,
    fault: Option<Fault>,
}

/// Reads all headers.
fn judged<L: Disk>(alloc: Global, disk: L) -> Headers<L>
    ensures same { L.tells → L.told result.disk ≡ L.told disk }
    ensures sound { L.tells → IsNone result.fault → (bs : List log.Block) × log.StandsFor bs (L.told disk) }
{
    match open_log(alloc, disk) {
        Ok(log) => {
            let blocks = log.blocks();
            Headers {
                disk: log.into_device(),
                blocks,
                fault: None,
            }
        }
        Err(refused) => Headers {
            disk: refused.disk,
            blocks: blocks_before(&refused.fault),
            fault: Some(refused.fault),
        },
    }
}

/// How many blocks stand before a fault.
fn blocks_before(fault: &Fault) -> u64 {
    match fault {
        Fault::LogBad { block, .. } => *block,
        _ => 0,
    }
}

/// Lists the blocks before the fault, and then the end or the fault.
fn list_log<L: Disk, K: Sink>(
    alloc: Global,
    disk: &mut L,
    blocks: u64,
    fault: Option<Fault>,
    sink: &mut K,
) -> Result<Totals, Halt>
    ensures same { L.tells → L.told disk.new ≡ L.told disk.old }
    ensures fault { OnOk result (IsNone fault) }
{
    let mut walk = Walk::new(alloc, disk.start());
    list_blocks(alloc, disk, blocks, &mut walk, sink)?;
    match fault {
        None => {
            write_line(sink, end_line(alloc, &walk)?)?;
            Ok(walk.totals())
        }
        Some(Fault::LogBad { byte, .. }) => Err(walk.bad_at(byte)),
        Some(Fault::LogFault) => Err(Halt::Device),
        Some(_) => Err(Halt::Memory),
    }
}

/// Lists so many blocks.
fn list_blocks<L: Disk, K: Sink>(
    alloc: Global,
    disk: &mut L,
    blocks: u64,
    walk: &mut Walk,
    sink: &mut K,
) -> Result<(), Halt>
    ensures same { L.tells → L.told disk.new ≡ L.told disk.old }
{
    for _ in 0..blocks {
        list_block(alloc, disk, walk, sink)?;
    }
    Ok(())
}

/// Lists the next block.
fn list_block<L: Disk, K: Sink>(
    alloc: Global,
    disk: &mut L,
    walk: &mut Walk,
    sink: &mut K,
) -> Result<(), Halt>
    ensures same { L.tells → L.told disk.new ≡ L.told disk.old }
{
    let block = next_block(disk, walk)?;
    write_line(sink, block_line(alloc, walk, &block)?)?;
    let payload = payload_of(alloc, disk, &block)?;
    list_records(alloc, &block, &payload, walk, sink)?;
    walk.end(&block)
}

/// Lists the records of a block.
fn list_records<K: Sink>(
    alloc: Global,
    block: &Block,
    payload: &[u8],
    walk: &mut Walk,
    sink: &mut K,
) -> Result<(), Halt> {
    let mut rest = payload;
    for i in 0..block.count {
        let lsn = block.first.saturating_add(u64::from(i));
        let length = list_record(alloc, lsn, rest, place_of(payload, rest), walk, sink)?;
        rest = rest.get(length..).unwrap_or_default();
    }
    if rest.is_empty() {
        Ok(())
    } else {
        Err(walk.bad_at(place_of(payload, rest)))
    }
}

/// The byte of a block at which the rest of its payload begins.
fn place_of(payload: &[u8], rest: &[u8]) -> u64 {
    PAYLOAD_AT.saturating_add(payload.len().saturating_sub(rest.len())) as u64
}

/// Lists the record in front of bytes, which begin at this byte of the block. How long it is.
fn list_record<K: Sink>(
    alloc: Global,
    lsn: Lsn,
    bytes: &[u8],
    byte: u64,
    walk: &mut Walk,
    sink: &mut K,
) -> Result<usize, Halt> {
    let (record, length) = record_in(alloc, bytes, byte, walk)?;
    list_found(alloc, lsn, &record, byte, walk, sink)?;
    Ok(length)
}

/// Lists a record, which begins at this byte of the block.
fn list_found<K: Sink>(
    alloc: Global,
    lsn: Lsn,
    record: &Record,
    byte: u64,
    walk: &mut Walk,
    sink: &mut K,
) -> Result<(), Halt> {
    write_line(sink, record_line(alloc, lsn, record)?)?;
    if walk.add(lsn, record)? {
        Ok(())
    } else {
        Err(walk.bad_at(byte))
    }
}

/// The record in front of bytes, which begin at this byte of the block, and its length.
fn record_in(alloc: Global, bytes: &[u8], byte: u64, walk: &Walk) -> Result<(Record, usize), Halt> {
    match decode(alloc, bytes) {
        Ok(found) => Ok(found),
        Err(RecordFault::Memory) => Err(Halt::Memory),
        Err(RecordFault::Bad { byte: within }) => {
            Err(walk.bad_at(byte.saturating_add(within as u64)))
        }
    }
}

/// Reads from so many bytes behind the disk's start on.
fn read<L: Disk>(disk: &mut L, offset: u64, buf: &mut [u8]) -> Result<(), Halt>
    ensures same { L.tells → L.told disk.new ≡ L.told disk.old }
    ensures len { length buf.new ≡ length buf.old }
    ensures cause { HasCause L.faults disk.old disk.new result }
{
    let at = disk.start().saturating_add(offset);
    match disk.read_at(at, buf) {
        Ok(_) => Ok(()),
        Err(_) => Err(Halt::Device),
    }
}

/// The next block, as its header has it.
fn next_block<L: Disk>(disk: &mut L, walk: &Walk) -> Result<Block, Halt>
    ensures same { L.tells → L.told disk.new ≡ L.told disk.old }
{
    let mut head = [0u8; PAYLOAD_AT];
    read(disk, walk.offset(), &mut head)?;
    Ok(Block {
        number: walk.next_block(),
        offset: walk.offset(),
        first: u64_at(&head, FIRST_AT),
        checkpoint: u64_at(&head, CHECKPOINT_AT),
        count: u16_at(&head, COUNT_AT),
        length: u32_at(&head, LENGTH_AT),
    })
}

fn u64_at(head: &[u8], at: usize) -> u64
    requires { at + 8 ≤ length head.now }
{
    let b = &head[at..at + 8];
    u64::from_be_bytes([b[0], b[1], b[2], b[3], b[4], b[5], b[6], b[7]])
}

fn u32_at(head: &[u8], at: usize) -> u32
    requires { at + 4 ≤ length head.now }
{
    let b = &head[at..at + 4];
    u32::from_be_bytes([b[0], b[1], b[2], b[3]])
}

fn u16_at(head: &[u8], at: usize) -> u16
    requires { at + 2 ≤ length head.now }
{
    u16::from_be_bytes([head[at], head[at + 1]])
}

fn payload_of<L: Disk>(alloc: Global, disk: &mut L, block: &Block) -> Result<Vec<u8>, Halt>
    ensures same { L.tells → L.told disk.new ≡ L.told disk.old }
{
    let mut payload = Vec::from_elem(alloc, 0u8, block.length as usize)?;
    let offset = block.offset.saturating_add(PAYLOAD_AT as u64);
    read(disk, offset, payload.as_mut_slice())?;
    Ok(payload)
}

fn block_line(alloc: Global, walk: &Walk, block: &Block) -> Result<Line, AllocError> {
    let mut line = Line::new(alloc, "block")?;
    line.count(block.number)?;
    line.numbers(&[
        ("at", walk.place()),
        ("first", block.first),
        ("checkpoint", block.checkpoint),
        ("records", u64::from(block.count)),
        ("payload", u64::from(block.length)),
    ])?;
    Ok(line)
}

fn end_line(alloc: Global, walk: &Walk) -> Result<Line, AllocError> {
    let totals = walk.totals();
    let mut line = Line::new(alloc, "log")?;
    line.numbers(&[
        ("end", walk.place()),
        ("blocks", totals.blocks),
        ("records", totals.records),
    ])?;
    Ok(line)
}
