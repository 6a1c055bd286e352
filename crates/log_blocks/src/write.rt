//! A block is written in four calls.
ghost use Rattle.std.specs.Prelude.{◌≡◌, ◌⊎◌, ◌+◌, ◌<◌, ◌≤◌, ◌^◌, ◌++◌, ◌∷◌, [], ℕ, List, length, take, max, OnOk};
ghost use Rattle.media.specs.Kept.{Kept, Torn, written};
ghost use Rattle.media.specs.Crash.{Only, LeavesOnly};
ghost use Rattle.media.specs.Cause.{HasCause};
ghost use Rattle.media.specs.Counted.{Blames, Fails};
ghost use Rattle.log_blocks.specs.Log.{Behind, IsSequence, StandsFor, StandsForSome, blocks, open_gate};

use crate::layout::OPEN;
use media::{Disk, Failed};

/// Writes bytes and syncs.
pub fn put_down<D: Disk>(device: &mut D, at: u64, bytes: &[u8]) -> Result<(), Failed>
    requires not_before { D.start device.old ≤ at }
    requires not_past { at ≤ D.len device.old }
    requires fits { at + length bytes.now < 2 ^ 63 }
    ensures start { D.start device.new ≡ D.start device.old }
    ensures no_shorter { D.len device.old ≤ D.len device.new }
    ensures len { OnOk result (D.len device.new ≡ max (D.len device.old) (at + length bytes.now)) }
    ensures written { D.tells → OnOk result (D.told device.new ≡ written (D.told device.old) at bytes.now) }
    ensures torn { D.tells → Torn at (length bytes.now) (D.told device.old) (D.told device.new) }
    ensures durable { D.tells → OnOk result (Only (D.told device.new) (D.may_leave device.new)) }
    // A crash at any moment leaves what was there, with any bytes in the range.
    ensures any_moment { D.tells → Only (D.told device.old) (D.may_leave device.old)
        → LeavesOnly D.moment D.left_since device.old device.new (Torn at (length bytes.now) (D.told device.old)) }
    ensures cause { HasCause D.faults device.old device.new result }
    ensures fuse { Blames D.passes D.refused D.own device.old device.new (Fails result) }
{
    device.write_at(at, bytes)?;
    device.sync()?;
    Ok(())
}

/// Writes a block behind the closed gate, with a closed gate behind it, and then opens its gate.
pub fn write_block<D: Disk>(device: &mut D, gate: u64, bytes: &[u8]) -> Result<(), Failed>
    requires not_before { D.start device.old ≤ gate }
    requires not_past { gate < D.len device.old }
    requires fits { gate + 1 + length bytes.now < 2 ^ 63 }
    ensures start { D.start device.new ≡ D.start device.old }
    ensures no_shorter { D.len device.old ≤ D.len device.new }
    ensures len { OnOk result (gate + 1 + length bytes.now ≤ D.len device.new) }
    ensures durable { D.tells → OnOk result (Only (D.told device.new) (D.may_leave device.new)) }
    ensures written { D.tells → (front body : List ℕ) → gate ≡ D.start device.old + length front → bytes.now ≡ body ++ 0 ∷ []
        → Behind (D.start device.old) front (D.told device.old)
        → OnOk result (Behind (D.start device.old) (front ++ open_gate ∷ body) (D.told device.new)) }
    // A read gives the gate closed, or the whole block.
    ensures left { D.tells → (front body : List ℕ) → gate ≡ D.start device.old + length front → bytes.now ≡ body ++ 0 ∷ []
        → Behind (D.start device.old) front (D.told device.old)
        → Behind (D.start device.old) front (D.told device.new) ⊎ Behind (D.start device.old) (front ++ open_gate ∷ body) (D.told device.new) }
    // A crash at any moment leaves the gate closed, or the whole block.
    ensures any_moment { D.tells → Only (D.told device.old) (D.may_leave device.old)
        → (front body : List ℕ) → gate ≡ D.start device.old + length front → bytes.now ≡ body ++ 0 ∷ []
        → Behind (D.start device.old) front (D.told device.old)
        → LeavesOnly D.moment D.left_since device.old device.new
        (λ c. Behind (D.start device.old) front c ⊎ Behind (D.start device.old) (front ++ open_gate ∷ body) c) }
    ensures cause { HasCause D.faults device.old device.new result }
    ensures fuse { Blames D.passes D.refused D.own device.old device.new (Fails result) }
{
    put_down(device, gate + 1, bytes)?;
    put_down(device, gate, &[OPEN])?;
    Ok(())
}
