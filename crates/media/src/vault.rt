//! The vault of backups and archive runs.
ghost use Rattle.std.specs.Prelude.{◌≡◌, ◌⊎◌, ◌++◌, ◌^◌, ◌-◌, ℕ, List, Option, min, length, take, drop, OnOk, IfOk};
ghost use Rattle.std.specs.Io.{ReadsAtMost};
ghost use Rattle.media.specs.Cause.{HasCause};
ghost use Rattle.media.specs.Counted.{Armed, Counted, Uncounted};
ghost use Rattle.media.specs.Objects.{Stored, Unsynced, bytes_of, synced, SameObjects, OtherObjects, IsLoose, SyncsObjects, MaySync, LeavesObjects};
ghost use Rattle.store_model.specs.declared.object.ObjectName.{ObjectName};

use crate::fault::Failed;
use store_model::ObjectName;

/// Objects, each under its name. A synced object stays until a put of its name. An unsynced one may hold any bytes
/// after a crash, or be absent.
pub trait Vault {
    /// Whether vaults of this type tell what they hold.
    ghost tells: { Type 0 };

    /// What each name stands for.
    ghost told: { Self → ObjectName → Stored };

    /// How often it has failed.
    ghost faults: { Self → ℕ };

    /// How often it has failed by itself, without the calls that a fuse refused.
    ghost own: { Self → ℕ };

    /// How many calls a fuse has refused.
    ghost refused: { Self → ℕ };

    /// How many more calls a fuse lets pass, where it is armed.
    ghost passes: { Self → Option ℕ };

    /// Whether vaults of this type are fuses.
    ghost fuses: { Type 0 };

    /// Puts an unsynced object, in place of one that has the name. After `Failed` that one stands there yet, or an
    /// unsynced one with any bytes, or none.
    fn put(&mut self, name: ObjectName, bytes: &[u8]) -> Result<(), Failed>
        ensures put { tells → OnOk result (told self.new name ≡ Unsynced bytes.now) }
        ensures same_or_loose { tells → (told self.new name ≡ told self.old name) ⊎ IsLoose (told self.new name) }
        ensures others { tells → OtherObjects name (told self.old) (told self.new) }
        ensures cause { HasCause faults self.old self.new result }
        ensures fuse { Counted passes refused own self.old self.new result };

    /// Each object is synced. After `Failed` each one may be.
    fn sync(&mut self) -> Result<(), Failed>
        ensures synced { tells → OnOk result (SyncsObjects (told self.old) (told self.new)) }
        ensures may_sync { tells → MaySync (told self.old) (told self.new) }
        ensures cause { HasCause faults self.old self.new result }
        ensures fuse { Counted passes refused own self.old self.new result };

    /// Moves the object's bytes from an offset on into `buf`, fewer than asked only at their end. An absent object has
    /// none.
    fn get(&mut self, name: ObjectName, from: u64, buf: &mut [u8]) -> Result<usize, Failed>
        ensures bound { ReadsAtMost result buf.new }
        ensures count { tells → IfOk result (λ n. n ≡ min (length buf.old) (length (bytes_of (told self.old name)) - from)) }
        ensures bytes { tells → IfOk result (λ n. buf.new ≡ take n (drop from (bytes_of (told self.old name))) ++ drop n buf.old) }
        ensures same { tells → SameObjects (told self.old) (told self.new) }
        ensures cause { HasCause faults self.old self.new result }
        ensures fuse { Counted passes refused own self.old self.new result };

    /// The machine stops and starts: synced objects stay, absent ones too.
    fn power_cycle(&mut self)
        ensures left { tells → LeavesObjects (told self.old) (told self.new) }
        ensures faults { faults self.new ≡ faults self.old }
        ensures fuse { Uncounted passes refused own self.old self.new };

    /// Arms a fuse, which lets n more calls pass, or renews it. A vault with no fuse does nothing.
    fn fuse(&mut self, n: Option<u64>)
        ensures same { tells → SameObjects (told self.old) (told self.new) }
        ensures faults { faults self.new ≡ faults self.old }
        ensures fuse { Armed fuses passes refused own n self.old self.new };

    /// How many calls a fuse has refused, 0 where there is none.
    fn refused(&self) -> u64
        ensures { result ≡ min (refused self.now) (2 ^ 64 - 1) };

    /// Its count of faults.
    fn faults(&self) -> u64
        ensures { result ≡ min (faults self.now) (2 ^ 64 - 1) };
}
