//! Blocks that wait for a flush.
//!
//! They come in the nodes that they bring, and go so, without memory. Where there is memory their nodes are settled in
//! order, and then each block is found at once.
ghost use Rattle.std.specs.Prelude.{◌≡◌, ◌==◌, ◌+◌, ◌<◌, ◌^◌, ◌++◌, [], length, slice_index_or, vec_len, vec_capacity};
ghost use Rattle.log_blocks.specs.Waiting.{AreNodes, all_in};

use crate::batch::append;
use crate::block::BlockBuf;
use std::alloc::Global;
use std::collections::LinkedList;
use std::marker::Model;
use std::mem;
use store_model::Memory;

/// The blocks, oldest first.
#[derive(Drop)]
pub struct Waiting {
    alloc: Global,
    /// The first ones, each in its node.
    settled: Vec<LinkedList<BlockBuf>>,
    /// Those behind them.
    recent: LinkedList<BlockBuf>,
}

impl Model for Waiting {
    ghost use Rattle.std.specs.Prelude.{List, ◌++◌, ◌<◌, ◌^◌, length};
    ghost use Rattle.log_blocks.specs.Log.{Block};
    ghost use Rattle.log_blocks.specs.Waiting.{AreNodes, all_in};

    ghost Value = { List Block };

    ghost view = { λ w. all_in w.settled.items ++ w.recent };

    ghost invariant = { λ w. record {
      nodes : AreNodes w.settled.items;
      few : length (all_in w.settled.items ++ w.recent) < 2 ^ 63;
    } };
}

impl Waiting {
    pub fn new(alloc: Global) -> Waiting
        ensures { result ≡ [] }
    {
        Waiting {
            alloc,
            settled: Vec::new(alloc),
            recent: LinkedList::new(alloc),
        }
    }

    pub fn len(&self) -> usize
        ensures value { result ≡ length self.now }
        ensures fits { result < 2 ^ 63 }
    {
        self.settled.len() + self.recent.len()
    }

    pub fn is_empty(&self) -> bool
        ensures { result ≡ (length self.now == 0) }
    {
        self.len() == 0
    }

    /// The block at a place, counted from 0.
    pub fn get(&self, i: usize) -> &BlockBuf
        requires { i < length self.now }
        ensures { result.now ≡ slice_index_or self.now i result.now }
    {
        let settled = self.settled.len();
        if i < settled {
            return nth(&self.settled[i], 0);
        }
        nth(&self.recent, i - settled)
    }

    /// Blocks join behind those that are there, in their nodes.
    pub fn append(&mut self, more: &mut LinkedList<BlockBuf>)
        requires { length self.old + length more.old < 2 ^ 63 }
        ensures all { self.new ≡ self.old ++ more.old }
        ensures more { more.new ≡ [] }
    {
        append(&mut self.recent, more);
    }

    /// All blocks, in their nodes.
    pub fn take(&mut self) -> LinkedList<BlockBuf>
        ensures all { result ≡ self.old }
        ensures none { self.new ≡ [] }
    {
        let recent = mem::replace(&mut self.recent, LinkedList::new(self.alloc));
        gather(&mut self.settled, recent)
    }

    /// Settles all nodes, which may take memory.
    pub fn settle(&mut self) -> Result<(), Memory>
        ensures { self.new ≡ self.old }
    {
        settle(&mut self.settled, &mut self.recent)
    }
}

/// The block at a place, which a walk finds.
fn nth(blocks: &LinkedList<BlockBuf>, i: usize) -> &BlockBuf
    requires { i < length blocks.now }
    ensures { result.now ≡ slice_index_or blocks.now i result.now }
{
    match blocks.iter().nth(i) {
        Some(block) => block,
        None => unreachable!(),
    }
}

/// The blocks of the settled nodes, and those behind them.
fn gather(
    settled: &mut Vec<LinkedList<BlockBuf>>,
    recent: LinkedList<BlockBuf>,
) -> LinkedList<BlockBuf>
    requires { length (all_in settled.old.items ++ recent) < 2 ^ 63 }
    ensures all { result ≡ all_in settled.old.items ++ recent }
    ensures none { settled.new.items ≡ [] }
{
    let mut all = recent;
    while let Some(node) = settled.pop() {
        let mut first = node;
        append(&mut first, &mut all);
        all = first;
    }
    all
}

/// The nodes join the settled ones, one by one.
fn settle(
    settled: &mut Vec<LinkedList<BlockBuf>>,
    recent: &mut LinkedList<BlockBuf>,
) -> Result<(), Memory>
    requires { AreNodes settled.old.items }
    ensures same { all_in settled.new.items ++ recent.new ≡ all_in settled.old.items ++ recent.old }
    ensures nodes { AreNodes settled.new.items }
{
    while !recent.is_empty() {
        settled.reserve(1)?;
        settle_first(settled, recent);
    }
    Ok(())
}

/// The first node joins the settled ones, for which there is room.
fn settle_first(settled: &mut Vec<LinkedList<BlockBuf>>, recent: &mut LinkedList<BlockBuf>)
    requires some { 0 < length recent.old }
    requires room { vec_len settled.old < vec_capacity settled.old }
    requires nodes { AreNodes settled.old.items }
    ensures same { all_in settled.new.items ++ recent.new ≡ all_in settled.old.items ++ recent.old }
    ensures nodes { AreNodes settled.new.items }
    ensures less { length recent.new + 1 ≡ length recent.old }
{
    match recent.split_off(1) {
        Ok(rest) => {
            let node = mem::replace(recent, rest);
            match settled.push(node) {
                Ok(()) => {}
                Err(_) => unreachable!(),
            }
        }
        Err(_) => unreachable!(),
    }
}
