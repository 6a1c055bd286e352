//! The log disk.
ghost use Rattle.std.specs.Prelude.{◌≡◌, ◌⊎◌, ◌+◌, ◌-◌, ◌<◌, ◌≤◌, ◌^◌, ℕ, List, Option, length, take, drop, ◌++◌, min, max, IfOk, OnOk, OnErr};
ghost use Rattle.media.specs.Kept.{Kept, end_of, written, without, bytes_at, Torn};
ghost use Rattle.media.specs.Cause.{HasCause};
ghost use Rattle.media.specs.Counted.{Armed, Counted, Uncounted};
ghost use Rattle.media.specs.Crash.{Only, Follows, NoMore, Elapses};

use crate::fault::Failed;

/// Kept bytes at the offsets from start to len, over which a crash may come at any moment.
///
/// Between two syncs each written range, and what lies past the old end, may hold any bytes after a crash; bytes
/// outside stay. After a sync that succeeds a crash leaves what a read gives. So the disk tells what a crash may leave
/// now, and what one since an earlier moment might have left.
pub trait Disk {
    /// Whether disks of this type tell what they keep.
    ghost tells: { Type 0 };

    /// The offset of the first kept byte.
    ghost start: { Self → ℕ };

    /// The offset behind the last kept byte.
    ghost len: { Self → ℕ };

    /// What is kept, where the disk tells.
    ghost told: { Self → Kept };

    /// What a crash at this moment may leave. Disks that tell nothing have none.
    ghost may_leave: { Self → Kept → Type 0 };

    /// The moment, as a number that doesn't fall.
    ghost moment: { Self → ℕ };

    /// What a crash at some moment from that one on might have left, during a call or between two.
    ghost left_since: { Self → ℕ → Kept → Type 0 };

    /// How often the disk has failed.
    ghost faults: { Self → ℕ };

    /// How often it has failed by itself, without the calls that a fuse refused.
    ghost own: { Self → ℕ };

    /// How many calls a fuse has refused.
    ghost refused: { Self → ℕ };

    /// How many more calls a fuse lets pass, where it is armed.
    ghost passes: { Self → Option ℕ };

    /// Whether disks of this type are fuses.
    ghost fuses: { Type 0 };

    /// The offset of the first kept byte.
    fn start(&self) -> u64
        ensures { result ≡ start self.now };

    /// The offset behind the last kept byte.
    fn len(&self) -> u64
        ensures value { result ≡ len self.now }
        ensures not_before { start self.now ≤ result }
        ensures fits { result < 2 ^ 63 };

    /// The bytes from an offset on, fewer than asked only at the end.
    fn read_at(&mut self, at: u64, buf: &mut [u8]) -> Result<usize, Failed>
        requires { start self.old ≤ at }
        ensures count { IfOk result (λ n. n ≡ min (length buf.old) (len self.old - at)) }
        ensures bytes { tells → IfOk result (λ n. buf.new ≡ bytes_at (told self.old) at n ++ drop n buf.old) }
        ensures place { (start self.new ≡ start self.old) × (len self.new ≡ len self.old) }
        ensures told { tells → told self.new ≡ told self.old }
        ensures crash { NoMore may_leave self.old self.new }
        ensures time { Elapses moment may_leave left_since self.old self.new }
        ensures cause { HasCause faults self.old self.new result }
        ensures fuse { Counted passes refused own self.old self.new result };

    /// Writes over what is there, and past the end. Until a sync, a crash may leave any bytes in the range, and after
    /// `Failed` a read may give them.
    fn write_at(&mut self, at: u64, bytes: &[u8]) -> Result<(), Failed>
        requires not_before { start self.old ≤ at }
        requires not_past { at ≤ len self.old }
        requires fits { at + length bytes.now < 2 ^ 63 }
        ensures start { start self.new ≡ start self.old }
        ensures len { OnOk result (len self.new ≡ max (len self.old) (at + length bytes.now)) }
        ensures len_between { (len self.old ≤ len self.new) × (len self.new ≤ max (len self.old) (at + length bytes.now)) }
        ensures written { tells → OnOk result (told self.new ≡ written (told self.old) at bytes.now) }
        ensures torn { tells → Torn at (length bytes.now) (told self.old) (told self.new) }
        ensures crash { Follows (Torn at (length bytes.now)) may_leave self.old self.new }
        ensures time { Elapses moment may_leave left_since self.old self.new }
        ensures cause { HasCause faults self.old self.new result }
        ensures fuse { Counted passes refused own self.old self.new result };

    /// After it, a crash leaves what a read gives.
    fn sync(&mut self) -> Result<(), Failed>
        ensures place { (start self.new ≡ start self.old) × (len self.new ≡ len self.old) }
        ensures told { tells → told self.new ≡ told self.old }
        ensures durable { tells → OnOk result (Only (told self.old) (may_leave self.new)) }
        ensures crash { NoMore may_leave self.old self.new }
        ensures time { Elapses moment may_leave left_since self.old self.new }
        ensures cause { HasCause faults self.old self.new result }
        ensures fuse { Counted passes refused own self.old self.new result };

    /// Forgets what lies before an offset, at once. After `Failed` it is forgotten or not.
    fn discard(&mut self, upto: u64) -> Result<(), Failed>
        requires not_before { start self.old ≤ upto }
        requires not_past { upto ≤ len self.old }
        ensures start { OnOk result (start self.new ≡ upto) }
        ensures start_either { (start self.new ≡ start self.old) ⊎ (start self.new ≡ upto) }
        ensures len { len self.new ≡ len self.old }
        ensures gone { tells → OnOk result (told self.new ≡ without (told self.old) upto) }
        ensures told { tells → (told self.new ≡ told self.old) ⊎ (told self.new ≡ without (told self.old) upto) }
        ensures crash { OnOk result (Follows (λ d c. c ≡ without d upto) may_leave self.old self.new) }
        ensures crash_either { Follows (λ d c. (c ≡ d) ⊎ (c ≡ without d upto)) may_leave self.old self.new }
        ensures time { Elapses moment may_leave left_since self.old self.new }
        ensures cause { HasCause faults self.old self.new result }
        ensures fuse { Counted passes refused own self.old self.new result };

    /// The machine stops and starts, and something that a crash may leave is left. A disk that can choose keeps the
    /// first `keep` of the bytes written since the last sync.
    fn power_cycle(&mut self, keep: u64)
        ensures left { tells → may_leave self.old (told self.new) }
        ensures durable { tells → Only (told self.new) (may_leave self.new) }
        ensures crash { NoMore may_leave self.old self.new }
        ensures time { Elapses moment may_leave left_since self.old self.new }
        ensures faults { faults self.new ≡ faults self.old }
        ensures fuse { Uncounted passes refused own self.old self.new };

    /// Arms a fuse, which lets n more calls pass, or renews it. A disk with no fuse does nothing.
    fn fuse(&mut self, n: Option<u64>)
        ensures place { (start self.new ≡ start self.old) × (len self.new ≡ len self.old) }
        ensures told { tells → told self.new ≡ told self.old }
        ensures crash { NoMore may_leave self.old self.new }
        ensures time { Elapses moment may_leave left_since self.old self.new }
        ensures faults { faults self.new ≡ faults self.old }
        ensures fuse { Armed fuses passes refused own n self.old self.new };

    /// How many calls a fuse has refused, 0 where there is none.
    fn refused(&self) -> u64
        ensures { result ≡ min (refused self.now) (2 ^ 64 - 1) };

    /// Its count of faults.
    fn faults(&self) -> u64
        ensures { result ≡ min (faults self.now) (2 ^ 64 - 1) };

    /// The kept bytes that are told lie from start to len.
    ghost extent: { (disk : Self) → tells → ((told disk).start ≡ start disk) × (end_of (told disk) ≡ len disk) };

    /// This moment is one of those since an earlier one.
    ghost counts_now: { (disk : Self) (t : ℕ) (c : Kept) → t ≤ moment disk → may_leave disk c → left_since disk t c };

    /// Since this moment there is no other.
    ghost only_now: { (disk : Self) (c : Kept) → left_since disk (moment disk) c → may_leave disk c };
}
