//! An opening reads headers, and changes no byte.
ghost use Rattle.std.specs.Prelude.{◌≡◌, ◌≤◌, ◌<◌, ◌+◌, ◌-◌, ◌^◌, ◌++◌, ◌∷◌, [], min, length, take, drop, IfOk, OnOk, IsErrAnd};
ghost use Rattle.media.specs.Crash.{NoMore, LeavesOnly};
ghost use Rattle.media.specs.Cause.{HasCause};
ghost use Rattle.media.specs.Counted.{Blames, Fails};
ghost use Rattle.log_blocks.specs.Opening.{IsLogFault, IsPlaced, Tells, RoseIn};

use crate::header::{Header, Place, judge};
use crate::layout::{MOST_BYTES, OPEN, PAYLOAD_AT};
use media::{Disk, Failed};
use std::alloc::Global;
use store_model::{Fault, Memory};

/// What the headers tell.
#[derive(Drop)]
pub struct Walked {
    pub places: Vec<Place>,
    pub gate: u64,
    pub next: u64,
}

impl Walked {
    /// No block yet, and the first gate at this offset.
    fn new(alloc: Global, gate: u64) -> Walked
        ensures { (result.places.items ≡ []) × (result.gate ≡ gate) × (result.next ≡ 0) }
    {
        Walked {
            places: Vec::new(alloc),
            gate,
            next: 0,
        }
    }

    /// The block behind the gate has this header. The next gate stands behind the block.
    fn add(&mut self, header: Header) -> Result<(), Memory>
        requires gate { self.old.gate < 2 ^ 63 }
        requires size { header.length ≤ MOST_BYTES }
        requires last { header.first + header.count ≤ 2 ^ 63 }
        ensures places { OnOk result (self.new.places.items ≡ self.old.places.items ++ (record { at = self.old.gate; first = header.first; checkpoint = header.checkpoint; count = header.count; length = header.length }) ∷ []) }
        ensures gate { OnOk result (self.new.gate ≡ self.old.gate + (PAYLOAD_AT + header.length)) }
        ensures next { OnOk result (self.new.next ≡ header.first + header.count) }
    {
        self.places.push(Place {
            at: self.gate,
            first: header.first,
            checkpoint: header.checkpoint,
            count: header.count,
            length: header.length,
        })?;
        self.gate += PAYLOAD_AT as u64 + header.length as u64;
        self.next = header.first + header.count as u64;
        Ok(())
    }
}

/// The bytes from an offset on, as far as the payload of a block there.
fn look<D: Disk>(device: &mut D, at: u64, buf: &mut [u8]) -> Result<usize, Failed>
    requires size { length buf.old ≡ PAYLOAD_AT }
    requires not_before { D.start device.old ≤ at }
    ensures count { IfOk result (λ n. n ≡ min PAYLOAD_AT (D.len device.old - at)) }
    ensures bytes { D.tells → IfOk result (λ n. take n buf.new ≡ take PAYLOAD_AT (drop (at - (D.told device.old).start) (D.told device.old).bytes)) }
    ensures start { D.start device.new ≡ D.start device.old }
    ensures len { D.len device.new ≡ D.len device.old }
    ensures same { D.tells → D.told device.new ≡ D.told device.old }
    ensures crash { NoMore D.may_leave device.old device.new }
    ensures any_moment { LeavesOnly D.moment D.left_since device.old device.new (λ c. D.may_leave device.old c) }
    ensures cause { HasCause D.faults device.old device.new result }
    ensures fuse { Blames D.passes D.refused D.own device.old device.new (Fails result) }
{
    device.read_at(at, buf)
}

/// Reads the headers from the disk's start on.
pub fn walk<D: Disk>(alloc: Global, device: &mut D) -> Result<Walked, Fault>
    ensures placed { IfOk result (λ w. IsPlaced (D.start device.old) (D.len device.old) w.places.items w.gate w.next) }
    ensures opened { D.tells → Tells (D.told device.old) result }
    ensures start { D.start device.new ≡ D.start device.old }
    ensures len { D.len device.new ≡ D.len device.old }
    ensures same { D.tells → D.told device.new ≡ D.told device.old }
    ensures crash { NoMore D.may_leave device.old device.new }
    ensures any_moment { LeavesOnly D.moment D.left_since device.old device.new (λ c. D.may_leave device.old c) }
    ensures later { D.faults device.old ≤ D.faults device.new }
    ensures cause { RoseIn (D.faults device.old) (D.faults device.new) result }
    ensures fuse { Blames D.passes D.refused D.own device.old device.new (IsErrAnd result IsLogFault) }
{
    let start = device.start();
    let len = device.len();
    let mut found = Walked::new(alloc, start);
    if len - start <= 1 {
        return Ok(found);
    }
    while found.gate < len {
        let mut buf = [0u8; PAYLOAD_AT];
        let n = match look(device, found.gate, &mut buf) {
            Ok(n) => n,
            Err(_) => return Err(Fault::LogFault),
        };
        let head = &buf[..n];
        if head[0] != OPEN {
            return Ok(found);
        }
        match judge(head, len - found.gate, start, found.next) {
            Ok(header) => found.add(header)?,
            Err(byte) => {
                return Err(Fault::LogBad {
                    block: found.places.len() as u64,
                    byte,
                });
            }
        }
    }
    Ok(found)
}
