//! A block's header.
ghost use Rattle.std.specs.Prelude.{◌≡◌, ◌+◌, ◌<◌, ◌≤◌, ◌^◌, min, length, take, drop, MatchResult, IfOk, ℕ, slice_index};
ghost use Rattle.log_blocks.specs.Opening.{field_at, field4_at, field2_at, fault_at, header_in, length_fault, may_begin};

use crate::layout::{CHECKPOINT_AT, COUNT_AT, FIRST_AT, LENGTH_AT, MOST_BYTES, PAYLOAD_AT};

/// What stands between a block's gate and its payload.
#[derive(Clone, Copy)]
pub struct Header {
    pub first: u64,
    pub checkpoint: u64,
    pub count: u16,
    pub length: u32,
}

/// Where a block stands, and its header.
#[derive(Clone, Copy, Default)]
pub struct Place {
    pub at: u64,
    pub first: u64,
    pub checkpoint: u64,
    pub count: u16,
    pub length: u32,
}

#[tactic(auto, unfolding(crate::specs::Opening::field_at))]
fn u64_at(head: &[u8], at: usize) -> u64
    requires { at + 8 ≤ length head.now }
    ensures { result ≡ field_at at head.now }
{
    let b = &head[at..at + 8];
    u64::from_be_bytes([b[0], b[1], b[2], b[3], b[4], b[5], b[6], b[7]])
}

#[tactic(auto, unfolding(crate::specs::Opening::field4_at))]
fn u32_at(head: &[u8], at: usize) -> u32
    requires { at + 4 ≤ length head.now }
    ensures { result ≡ field4_at at head.now }
{
    let b = &head[at..at + 4];
    u32::from_be_bytes([b[0], b[1], b[2], b[3]])
}

#[tactic(auto, unfolding(crate::specs::Opening::field2_at))]
fn u16_at(head: &[u8], at: usize) -> u16
    requires { at + 2 ≤ length head.now }
    ensures { result ≡ field2_at at head.now }
{
    let b = &head[at..at + 2];
    u16::from_be_bytes([b[0], b[1]])
}

/// The highest LSN.
const HIGHEST: u64 = (1 << 63) - 1;

/// Whether a block may begin with this LSN. `next` is the LSN that it has to begin with, 0 for any.
fn may_begin(start: u64, next: u64, first: u64) -> bool
    ensures { result ≡ may_begin start next first }
{
    if first < 1 || first > HIGHEST {
        false
    } else if next == 0 {
        start != 0 || first == 1
    } else {
        first == next
    }
}

/// The length of the payload, or the offset of the first of the fields from its length on that is cut or breaks a rule.
fn judge_length(head: &[u8], total: u64) -> Result<u32, u64>
    requires size { length head.now ≡ min PAYLOAD_AT total }
    ensures in_range { IfOk result (λ size. (size ≤ MOST_BYTES) × (PAYLOAD_AT + size < total)) }
    ensures exact { MatchResult result
        (λ size. (length_fault total head.now ≡ 0) × (size ≡ field4_at LENGTH_AT head.now))
        (λ byte. (length_fault total head.now ≡ byte) × (0 < byte)) }
{
    if total < PAYLOAD_AT as u64 {
        return Err(LENGTH_AT as u64);
    }
    let length = u32_at(head, LENGTH_AT);
    let end = PAYLOAD_AT as u64 + length as u64;
    if length == 0 || length > MOST_BYTES {
        Err(LENGTH_AT as u64)
    } else if total < end {
        Err(PAYLOAD_AT as u64)
    } else if total < end + 1 {
        Err(end)
    } else {
        Ok(length)
    }
}

/// The header in these bytes, which begin with an open gate and of which the disk has this many in all, or the offset
/// of the first field that is cut or breaks a rule. `next` is the LSN that the block has to begin with, 0 for any.
#[tactic(auto, unfolding(crate::specs::Opening::fault_at, crate::specs::Opening::header_in))]
pub fn judge(head: &[u8], total: u64, start: u64, next: u64) -> Result<Header, u64>
    requires { length head.now ≡ min PAYLOAD_AT total }
    ensures in_range { IfOk result (λ h. (h.count < 2 ^ 16) × (h.first + h.count ≤ 2 ^ 63) × (h.length ≤ MOST_BYTES) × (PAYLOAD_AT + h.length < total)) }
    ensures bytes { (i : ℕ) → slice_index head.now i < 256 }
    ensures exact { MatchResult result
        (λ h. (fault_at start next total head.now ≡ 0) × (h ≡ header_in head.now))
        (λ byte. (fault_at start next total head.now ≡ byte) × (0 < byte)) }
{
    if total < CHECKPOINT_AT as u64 {
        return Err(FIRST_AT as u64);
    }
    let first = u64_at(head, FIRST_AT);
    if !may_begin(start, next, first) {
        return Err(FIRST_AT as u64);
    }
    if total < COUNT_AT as u64 {
        return Err(CHECKPOINT_AT as u64);
    }
    let checkpoint = u64_at(head, CHECKPOINT_AT);
    if checkpoint > HIGHEST {
        return Err(CHECKPOINT_AT as u64);
    }
    if total < LENGTH_AT as u64 {
        return Err(COUNT_AT as u64);
    }
    let count = u16_at(head, COUNT_AT);
    if checkpoint >= first + count as u64 {
        return Err(CHECKPOINT_AT as u64);
    }
    if count == 0 || first + count as u64 > HIGHEST + 1 {
        return Err(COUNT_AT as u64);
    }
    let length = judge_length(head, total)?;
    Ok(Header {
        first,
        checkpoint,
        count,
        length,
    })
}
