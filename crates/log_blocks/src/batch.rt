//! Blocks in memory, with room for records to come.
ghost use Rattle.std.specs.Prelude.{◌≡◌, ◌+◌, ◌-◌, ◌*◌, ◌<◌, ◌≤◌, ◌^◌, ◌↔◌, ◌++◌, ◌∷◌, [], ℕ, length, drop, take, OnOk, OnErr, IsSome, IsTrue, None, Some, IfSome};
ghost use Rattle.log_blocks.specs.Log.{Block};
ghost use Rattle.log_blocks.specs.Batch.{Batched, Filling, Grows, Joins, IsSpare, IsSized, AreSized, block_in, in_open, joins, joined, begun, with_group};

use crate::block::{BlockBuf, OpenBlock};
use crate::layout::MOST_BYTES;
use std::alloc::Global;
use std::collections::LinkedList;
use std::marker::Model;
use std::mem;
use store_model::{Lsn, Memory};

/// The most bytes of a short record.
const SHORT: usize = 17;

/// The most short records that may wait: more are want of memory.
const MOST_SPARE: usize = 1 << 32;

/// The most blocks of a batch, and short records that may begin one: more are want of memory.
const MOST_BLOCKS: usize = 1 << 62;

/// A list of blocks, and room for as many short records as `reserve_short` was called more often than `push_short`.
///
/// Each short record to come has a node and a buffer of its own, in case it begins a block; the last block has room
/// for all of them, in case they join it.
#[derive(Drop)]
pub struct Batch {
    alloc: Global,
    closed: LinkedList<BlockBuf>,
    last: Option<OpenBlock>,
    nodes: LinkedList<BlockBuf>,
    spares: Vec<OpenBlock>,
}

impl Model for Batch {
    ghost use Rattle.std.specs.Prelude.{◌++◌, length};
    ghost use Rattle.log_blocks.specs.Batch.{Batched, IsReady, in_open};

    ghost Value = { Batched };

    ghost view = { λ b. record { blocks = b.closed ++ in_open b.last; spare = length b.spares.items } };

    ghost invariant = { λ b. IsReady b.closed b.last b.nodes b.spares.items };
}

impl Batch {
    /// No blocks, and spare 0.
    pub fn new(alloc: Global) -> Batch
        ensures { result ≡ record { blocks = []; spare = 0 } }
    {
        Batch {
            alloc,
            closed: LinkedList::new(alloc),
            last: None,
            nodes: LinkedList::new(alloc),
            spares: Vec::new(alloc),
        }
    }

    /// How many blocks there are.
    pub fn len(&self) -> usize
        ensures { result ≡ length self.now.blocks }
    {
        match &self.last {
            Some(_) => self.closed.len() + 1,
            None => self.closed.len(),
        }
    }

    pub fn is_empty(&self) -> bool
        ensures { IsTrue result ↔ (self.now.blocks ≡ []) }
    {
        self.last.is_none()
    }

    /// How many short records have room.
    pub fn spare(&self) -> usize
        ensures { result ≡ self.now.spare }
    {
        self.spares.len()
    }

    /// Adds a group of records to the last block, or to a new one where there is none or the last would pass a limit.
    pub fn push(&mut self, count: u16, checkpoint: Lsn, bytes: &[u8]) -> Result<(), Memory>
        requires records { (1 ≤ count) × (count ≤ 3) }
        requires size { (1 ≤ length bytes.now) × (length bytes.now ≤ MOST_BYTES) }
        ensures ok { OnOk result (self.new ≡ record { blocks = with_group self.old.blocks count checkpoint bytes.now; spare = self.old.spare }) }
        ensures err { OnErr result (self.new ≡ self.old) }
    {
        if self.takes(count, bytes.len()) {
            self.join(count, checkpoint, bytes)
        } else {
            self.begin(count, checkpoint, bytes)
        }
    }

    /// Makes room for one more short record.
    pub fn reserve_short(&mut self) -> Result<(), Memory>
        ensures ok { OnOk result (self.new ≡ record self.old { spare = self.old.spare + 1 }) }
        ensures err { OnErr result (self.new ≡ self.old) }
    {
        if self.spares.len() >= MOST_SPARE || self.closed.len() + self.nodes.len() >= MOST_BLOCKS {
            return Err(Memory);
        }
        let more = SHORT * (self.spares.len() + 1);
        grow(&mut self.last, more)?;
        let buffer = OpenBlock::new(self.alloc, more)?;
        let node = BlockBuf::blank(self.alloc)?;
        self.spares.reserve(1)?;
        self.nodes.push_back(node)?;
        match self.spares.push(buffer) {
            Ok(()) => Ok(()),
            Err(_) => unreachable!(),
        }
    }

    /// Adds one record of at most 17 bytes as `push` does, without memory.
    pub fn push_short(&mut self, checkpoint: Lsn, bytes: &[u8])
        requires spare { 1 ≤ self.old.spare }
        requires size { (1 ≤ length bytes.now) × (length bytes.now ≤ SHORT) }
        ensures { self.new ≡ record { blocks = with_group self.old.blocks 1 checkpoint bytes.now; spare = self.old.spare - 1 } }
    {
        if self.takes(1, bytes.len()) {
            self.join_short(checkpoint, bytes)
        } else {
            self.begin_short(checkpoint, bytes)
        }
    }

    /// Moves all blocks to the end of another batch, without memory. Both keep their spare.
    pub fn move_to(&mut self, other: &mut Batch)
        requires none { other.old.spare ≡ 0 }
        requires fits { length other.old.blocks + length self.old.blocks < 2 ^ 63 }
        ensures moved { other.new ≡ record { blocks = other.old.blocks ++ self.old.blocks; spare = 0 } }
        ensures left { self.new ≡ record { blocks = []; spare = self.old.spare } }
    {
        if let Some(last) = self.last.take() {
            replace_last(&mut other.last, last, &mut other.nodes, &mut other.closed);
            append(&mut other.closed, &mut self.closed);
            pass(&mut other.nodes, &mut self.nodes);
        }
    }

    /// Takes all blocks out, without memory.
    pub(crate) fn take_blocks(&mut self) -> LinkedList<BlockBuf>
        ensures blocks { result ≡ self.old.blocks }
        ensures left { self.new ≡ record { blocks = []; spare = self.old.spare } }
        ensures sized { AreSized result }
    {
        close_last(&mut self.last, &mut self.nodes, &mut self.closed);
        mem::replace(&mut self.closed, LinkedList::new(self.alloc))
    }

    /// Whether these records join the last block.
    fn takes(&self, count: u16, size: usize) -> bool
        requires { size < 2 ^ 63 }
        ensures { result ≡ joins self.now.blocks count size }
    {
        match &self.last {
            Some(last) => last.has_room(count, size),
            None => false,
        }
    }

    /// Records join the last block.
    fn join(&mut self, count: u16, checkpoint: Lsn, bytes: &[u8]) -> Result<(), Memory>
        requires takes { IsTrue (joins self.old.blocks count (length bytes.now)) }
        requires size { (1 ≤ length bytes.now) × (length bytes.now ≤ MOST_BYTES) }
        ensures ok { OnOk result (self.new ≡ record { blocks = joined self.old.blocks count checkpoint bytes.now; spare = self.old.spare }) }
        ensures err { OnErr result (self.new ≡ self.old) }
    {
        let later = SHORT * self.spares.len();
        grow(&mut self.last, bytes.len() + later)?;
        add(&mut self.last, count, checkpoint, bytes);
        Ok(())
    }

    /// Records begin a block.
    fn begin(&mut self, count: u16, checkpoint: Lsn, bytes: &[u8]) -> Result<(), Memory>
        requires records { (1 ≤ count) × (count ≤ 3) }
        requires size { (1 ≤ length bytes.now) × (length bytes.now ≤ MOST_BYTES) }
        ensures ok { OnOk result (self.new ≡ record { blocks = self.old.blocks ++ begun count checkpoint bytes.now ∷ []; spare = self.old.spare }) }
        ensures err { OnErr result (self.new ≡ self.old) }
    {
        if self.closed.len() + self.nodes.len() >= MOST_BLOCKS {
            return Err(Memory);
        }
        let later = SHORT * self.spares.len();
        let mut next = OpenBlock::new(self.alloc, bytes.len() + later)?;
        next.add(count, checkpoint, bytes);
        let node = BlockBuf::blank(self.alloc)?;
        self.nodes.push_back(node)?;
        replace_last(&mut self.last, next, &mut self.nodes, &mut self.closed);
        Ok(())
    }

    /// A short record joins the last block.
    fn join_short(&mut self, checkpoint: Lsn, bytes: &[u8])
        requires takes { IsTrue (joins self.old.blocks 1 (length bytes.now)) }
        requires spare { 1 ≤ self.old.spare }
        requires size { (1 ≤ length bytes.now) × (length bytes.now ≤ SHORT) }
        ensures { self.new ≡ record { blocks = joined self.old.blocks 1 checkpoint bytes.now; spare = self.old.spare - 1 } }
    {
        self.spares.pop();
        self.nodes.pop_front();
        add(&mut self.last, 1, checkpoint, bytes);
    }

    /// A short record begins a block.
    fn begin_short(&mut self, checkpoint: Lsn, bytes: &[u8])
        requires spare { 1 ≤ self.old.spare }
        requires size { (1 ≤ length bytes.now) × (length bytes.now ≤ SHORT) }
        ensures { self.new ≡ record { blocks = self.old.blocks ++ begun 1 checkpoint bytes.now ∷ []; spare = self.old.spare - 1 } }
    {
        let mut next = match self.spares.pop() {
            Some(buffer) => buffer,
            None => unreachable!(),
        };
        next.add(1, checkpoint, bytes);
        replace_last(&mut self.last, next, &mut self.nodes, &mut self.closed);
    }
}

/// Makes room in the last block, if there is one.
fn grow(last: &mut Option<OpenBlock>, room: usize) -> Result<(), Memory>
    requires { room < 2 ^ 63 }
    ensures same { Grows last.old last.new }
    ensures room { OnOk result (IfSome last.new (λ f. room ≤ f.room)) }
{
    match last {
        Some(block) => block.reserve(room),
        None => Ok(()),
    }
}

/// Records join the last block, which has room for them.
fn add(last: &mut Option<OpenBlock>, count: u16, checkpoint: Lsn, bytes: &[u8])
    requires is { IsSome last.old }
    requires room { IfSome last.old (λ f. length bytes.now ≤ f.room) }
    requires fits { IfSome last.old (λ f. f.count + count < 2 ^ 16) }
    ensures { (room : ℕ) → IfSome last.old (λ f. room + length bytes.now ≤ f.room) → Joins count checkpoint bytes.now room last.old last.new }
{
    match last {
        Some(block) => block.add(count, checkpoint, bytes),
        None => unreachable!(),
    }
}

/// Another block becomes the last. The one before goes into a node that was waiting.
fn replace_last(
    last: &mut Option<OpenBlock>,
    next: OpenBlock,
    nodes: &mut LinkedList<BlockBuf>,
    closed: &mut LinkedList<BlockBuf>,
)
    requires node { length (in_open last.old) ≤ length nodes.old }
    requires size { IfSome last.old (λ f. length f.payload < 2 ^ 32) }
    requires fits { length closed.old + length nodes.old < 2 ^ 63 }
    ensures last { last.new ≡ Some next }
    ensures nodes { nodes.new ≡ drop (length (in_open last.old)) nodes.old }
    ensures closed { closed.new ≡ closed.old ++ in_open last.old }
{
    close_last(last, nodes, closed);
    *last = Some(next);
}

/// The last block goes into a node that was waiting.
fn close_last(
    last: &mut Option<OpenBlock>,
    nodes: &mut LinkedList<BlockBuf>,
    closed: &mut LinkedList<BlockBuf>,
)
    requires node { length (in_open last.old) ≤ length nodes.old }
    requires size { IfSome last.old (λ f. length f.payload < 2 ^ 32) }
    requires fits { length closed.old + length nodes.old < 2 ^ 63 }
    ensures last { last.new ≡ None }
    ensures nodes { nodes.new ≡ drop (length (in_open last.old)) nodes.old }
    ensures closed { closed.new ≡ closed.old ++ in_open last.old }
{
    if let Some(block) = last.take() {
        close(block, nodes, closed);
    }
}

/// A block whose last record is there goes into the first node.
fn close(block: OpenBlock, nodes: &mut LinkedList<BlockBuf>, closed: &mut LinkedList<BlockBuf>)
    requires node { 0 < length nodes.old }
    requires size { length block.payload < 2 ^ 32 }
    requires fits { length closed.old + length nodes.old < 2 ^ 63 }
    ensures nodes { nodes.new ≡ drop 1 nodes.old }
    ensures closed { closed.new ≡ closed.old ++ block_in block ∷ [] }
{
    match nodes.front_mut() {
        Some(node) => node.fill(block),
        None => unreachable!(),
    }
    pass(closed, nodes);
}

/// The first of the nodes joins the others.
pub(crate) fn pass(kept: &mut LinkedList<BlockBuf>, nodes: &mut LinkedList<BlockBuf>)
    requires some { 0 < length nodes.old }
    requires fits { length kept.old + length nodes.old < 2 ^ 63 }
    ensures kept { kept.new ≡ kept.old ++ take 1 nodes.old }
    ensures nodes { nodes.new ≡ drop 1 nodes.old }
{
    match nodes.split_off(1) {
        Ok(rest) => {
            append(kept, nodes);
            *nodes = rest;
        }
        Err(_) => unreachable!(),
    }
}

/// All blocks join the others.
pub(crate) fn append(kept: &mut LinkedList<BlockBuf>, more: &mut LinkedList<BlockBuf>)
    requires fits { length kept.old + length more.old < 2 ^ 63 }
    ensures kept { kept.new ≡ kept.old ++ more.old }
    ensures more { more.new ≡ [] }
{
    match kept.append(more) {
        Ok(()) => {}
        Err(_) => unreachable!(),
    }
}
