//! A block in memory.
ghost use Rattle.std.specs.Prelude.{◌≡◌, ◌+◌, ◌-◌, ◌<◌, ◌≤◌, ◌^◌, ◌++◌, ◌∷◌, [], length, take, drop, OnOk, IfOk};
ghost use Rattle.std.specs.Int.{w16, w32, w64, to_be_bytes};
ghost use Rattle.log_blocks.specs.Log.{laid};
ghost use Rattle.log_blocks.specs.Batch.{Filling, has_room, begun};
ghost use Rattle.log_blocks.specs.Opening.{place_of};

use crate::header::Place;
use crate::layout::{CLOSED, HEADER, MOST_BYTES, MOST_RECORDS, PAYLOAD_AT};
use std::alloc::{AllocError, Global};
use std::collections::LinkedList;
use std::marker::Model;
use store_model::Memory;

/// The bytes of a block from behind its gate on, with the closed gate of the next, and a node for its place in the
/// list of the durable blocks.
#[derive(Drop)]
pub struct BlockBuf {
    first: u64,
    checkpoint: u64,
    count: u16,
    bytes: Vec<u8>,
    node: LinkedList<Place>,
}

/// A block to which records are added: room for its header, and its payload.
#[derive(Drop)]
pub struct OpenBlock {
    pub checkpoint: u64,
    pub count: u16,
    pub bytes: Vec<u8>,
}

impl Model for OpenBlock {
    ghost use Rattle.std.specs.Prelude.{◌≡◌, ◌≤◌, ◌<◌, ◌+◌, ◌-◌, length, drop, vec_len, vec_capacity};
    ghost use Rattle.log_blocks.specs.Batch.{Filling};
    ghost use Rattle.log_blocks.specs.declared.layout.TheConstants.{HEADER};

    ghost Value = { Filling };

    ghost view = { λ b. record { checkpoint = b.checkpoint; count = b.count; payload = drop HEADER b.bytes.items; room = vec_capacity b.bytes - (vec_len b.bytes + 1) } };

    ghost invariant = { λ b. (HEADER ≤ length b.bytes.items) × (vec_len b.bytes < vec_capacity b.bytes) };
}

impl OpenBlock {
    /// No records yet, and room for this many bytes of them.
    pub fn new(alloc: Global, room: usize) -> Result<OpenBlock, Memory>
        requires { room < 2 ^ 63 }
        ensures empty { IfOk result (λ b. (b.checkpoint ≡ 0) × (b.count ≡ 0) × (b.payload ≡ [])) }
        ensures room { IfOk result (λ b. room ≤ b.room) }
    {
        let mut bytes = Vec::new(alloc);
        bytes.extend_from_slice(&[0; HEADER])?;
        bytes.reserve(room + 1)?;
        Ok(OpenBlock {
            checkpoint: 0,
            count: 0,
            bytes,
        })
    }

    /// How many bytes its records have.
    pub fn size(&self) -> usize
        ensures value { result ≡ length self.now.payload }
        ensures fits { result < 2 ^ 63 }
    {
        self.bytes.len() - HEADER
    }

    /// Whether these records pass no limit of a block here.
    pub fn has_room(&self, count: u16, size: usize) -> bool
        requires { size < 2 ^ 63 }
        ensures { result ≡ has_room self.now.count (length self.now.payload) count size }
    {
        self.count as u32 + count as u32 <= MOST_RECORDS as u32
            && self.size() + size <= MOST_BYTES as usize
    }

    /// Makes room for this many bytes of records more.
    pub fn reserve(&mut self, room: usize) -> Result<(), Memory>
        requires { room < 2 ^ 63 }
        ensures same { self.new ≡ record self.old { room = self.new.room } }
        ensures no_less { self.old.room ≤ self.new.room }
        ensures room { OnOk result (room ≤ self.new.room) }
    {
        self.bytes.reserve(room + 1)?;
        Ok(())
    }

    /// Adds records, without memory.
    pub fn add(&mut self, count: u16, checkpoint: u64, records: &[u8])
        requires room { length records.now ≤ self.old.room }
        requires fits { self.old.count + count < 2 ^ 16 }
        ensures records { self.new ≡ record { checkpoint = checkpoint; count = self.old.count + count; payload = self.old.payload ++ records.now; room = self.new.room } }
        ensures room { self.old.room ≤ self.new.room + length records.now }
    {
        match self.bytes.extend_from_slice(records) {
            Ok(()) => {}
            Err(_) => unreachable!(),
        }
        self.count += count;
        self.checkpoint = checkpoint;
    }
}

impl Model for BlockBuf {
    ghost use Rattle.std.specs.Prelude.{◌≡◌, ◌≤◌, length};
    ghost use Rattle.log_blocks.specs.Log.{Block, block_of, laid};
    ghost use Rattle.log_blocks.specs.declared.layout.TheConstants.{PAYLOAD_AT};

    ghost Value = { Block };

    ghost view = { λ b. block_of b.first b.checkpoint b.count b.bytes.items };

    ghost invariant = { λ b. record {
      bytes : b.bytes.items ≡ laid (block_of b.first b.checkpoint b.count b.bytes.items);
      long : PAYLOAD_AT ≤ length b.bytes.items;
      node : length b.node ≡ 1;
    } };
}

impl BlockBuf {
    /// A block without records.
    pub fn blank(alloc: Global) -> Result<BlockBuf, Memory>
        ensures { IfOk result (λ b. b ≡ begun 0 0 []) }
    {
        let bytes = laid_out(OpenBlock::new(alloc, 0)?);
        let node = place_node(alloc)?;
        Ok(BlockBuf {
            first: 0,
            checkpoint: 0,
            count: 0,
            bytes,
            node,
        })
    }

    /// Becomes this block, with its header in place and a closed gate behind it.
    pub fn fill(&mut self, block: OpenBlock)
        requires { length block.payload < 2 ^ 32 }
        ensures { self.new ≡ begun block.count block.checkpoint block.payload }
    {
        self.first = 0;
        self.checkpoint = block.checkpoint;
        self.count = block.count;
        self.bytes = laid_out(block);
    }

    /// The LSN of its first record is known.
    pub fn set_first(&mut self, first: u64)
        ensures { self.new ≡ record self.old { first = first } }
    {
        self.first = first;
        put(self.bytes.as_mut_slice(), 0, &first.to_be_bytes());
    }

    pub fn first(&self) -> u64
        ensures { result ≡ self.now.first }
    {
        self.first
    }

    pub fn checkpoint(&self) -> u64
        ensures { result ≡ self.now.checkpoint }
    {
        self.checkpoint
    }

    pub fn count(&self) -> u16
        ensures { result ≡ self.now.count }
    {
        self.count
    }

    /// Its bytes from behind the gate on, with the closed gate of the next.
    pub fn bytes(&self) -> &[u8]
        ensures { result.now ≡ laid self.now }
    {
        &self.bytes
    }

    pub fn payload(&self) -> &[u8]
        ensures { result.now ≡ self.now.payload }
    {
        let (_, behind) = self.bytes.split_at(HEADER);
        let (payload, _) = behind.split_at(behind.len() - 1);
        payload
    }

    /// Its place in the list of the durable blocks, once its gate at this offset is open.
    pub fn into_place(self, at: u64) -> LinkedList<Place>
        requires { length self.payload < 2 ^ 32 }
        ensures { result ≡ place_of at self ∷ [] }
    {
        let BlockBuf {
            first,
            checkpoint,
            count,
            bytes,
            mut node,
        } = self;
        match node.front_mut() {
            Some(place) => {
                *place = Place {
                    at,
                    first,
                    checkpoint,
                    count,
                    length: (bytes.len() - PAYLOAD_AT) as u32,
                }
            }
            None => unreachable!(),
        }
        node
    }
}

/// A node for a place that isn't known yet.
fn place_node(alloc: Global) -> Result<LinkedList<Place>, Memory>
    ensures { IfOk result (λ node. length node ≡ 1) }
{
    let mut node = LinkedList::new(alloc);
    node.push_back(Place::default())?;
    Ok(node)
}

/// The bytes of the block from behind the gate on, with the closed gate of the next.
fn laid_out(block: OpenBlock) -> Vec<u8>
    requires { length block.payload < 2 ^ 32 }
    ensures { result.items ≡ laid (begun block.count block.checkpoint block.payload) }
{
    let OpenBlock {
        checkpoint,
        count,
        mut bytes,
    } = block;
    let size = (bytes.len() - HEADER) as u32;
    put_header(bytes.as_mut_slice(), checkpoint, count, size);
    match bytes.push(CLOSED) {
        Ok(()) => {}
        Err(_) => unreachable!(),
    }
    bytes
}

/// Puts the fields of a header in front, with the first LSN 0.
fn put_header(bytes: &mut [u8], checkpoint: u64, count: u16, size: u32)
    requires { HEADER ≤ length bytes.old }
    ensures { bytes.new ≡ (((to_be_bytes w64 0 ++ to_be_bytes w64 checkpoint) ++ to_be_bytes w16 count) ++ to_be_bytes w32 size) ++ drop HEADER bytes.old }
{
    put(bytes, 0, &0u64.to_be_bytes());
    put(bytes, 8, &checkpoint.to_be_bytes());
    put(bytes, 16, &count.to_be_bytes());
    put(bytes, 18, &size.to_be_bytes());
}

/// Puts bytes over those at a place.
fn put(bytes: &mut [u8], at: usize, with: &[u8])
    requires { at + length with.now ≤ length bytes.old }
    ensures { bytes.new ≡ take at bytes.old ++ with.now ++ drop (at + length with.now) bytes.old }
{
    let end = at + with.len();
    bytes[at..end].copy_from_slice(with);
}
