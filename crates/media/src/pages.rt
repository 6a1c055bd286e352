//! The data device.
ghost use Rattle.std.specs.Prelude.{◌≡◌, ◌≢◌, ◌⊎◌, ◌^◌, ◌-◌, Some, None, ℕ, List, Option, min, OnOk, OnErr};
ghost use Rattle.media.specs.Cause.{HasCause, Rose};
ghost use Rattle.media.specs.Counted.{Armed, Counted, Uncounted};
ghost use Rattle.media.specs.Images.{FailsVerification, Adds, NoOther, Keeps, KeepsBut, SameImages};

use crate::fault::Failed;
use store_model::{PAGE_BYTES, PageNo};

/// The bytes of a page: a digest of 32 bytes, and then what it is the digest of.
pub type PageBytes = [u8; PAGE_BYTES];

/// Images of pages, each written under a page's number. It may give an old image, or a damaged one: a read gives any of
/// the images written for the page since the last replace, or bytes that fail verification. A crash changes nothing of
/// this.
pub trait PageDevice {
    /// Whether devices of this type tell what was written.
    ghost tells: { Type 0 };

    /// The images of a page that a read may give, all of them written since the last replace.
    ghost told: { Self → ℕ → List ℕ → Type 0 };

    /// The image of a page that was written last.
    ghost newest: { Self → ℕ → Option (List ℕ) };

    /// The pages whose reads fail verification until their next write.
    ghost spoiled: { Self → ℕ → Type 0 };

    /// How often it has failed.
    ghost faults: { Self → ℕ };

    /// How often it has failed by itself, without the calls that a fuse refused.
    ghost own: { Self → ℕ };

    /// How many calls a fuse has refused.
    ghost refused: { Self → ℕ };

    /// How many more calls a fuse lets pass, where it is armed.
    ghost passes: { Self → Option ℕ };

    /// Whether devices of this type are fuses.
    ghost fuses: { Type 0 };

    /// One of the images of the page, or bytes that fail verification.
    fn read(&mut self, page: PageNo, out: &mut PageBytes) -> Result<(), Failed>
        ensures image { tells → OnOk result (told self.old page out.new ⊎ FailsVerification out.new) }
        ensures damaged { tells → OnOk result (spoiled self.old page → FailsVerification out.new) }
        ensures same { tells → SameImages told newest self.old self.new }
        ensures spoiled { tells → Keeps spoiled self.old self.new }
        ensures cause { HasCause faults self.old self.new result }
        ensures fuse { Counted passes refused own self.old self.new result };

    /// The image joins those of the page. After `Failed` it may have joined them.
    fn write(&mut self, page: PageNo, bytes: &PageBytes) -> Result<(), Failed>
        ensures newest { tells → OnOk result (newest self.new page ≡ Some bytes.now) }
        ensures adds { tells → Adds told newest page bytes.now self.old self.new }
        ensures spoiled { tells → KeepsBut page spoiled self.old self.new }
        ensures cause { HasCause faults self.old self.new result }
        ensures fuse { Counted passes refused own self.old self.new result };

    /// An empty device takes its place. After `Failed` the old images may stay.
    fn replace(&mut self) -> Result<(), Failed>
        ensures empty { tells → OnOk result ((p : ℕ) (image : List ℕ) → told self.new p image → ⊥) }
        ensures no_other { tells → NoOther told self.old self.new }
        ensures newest { tells → ((p : ℕ) → newest self.new p ≡ None) ⊎ ((p : ℕ) → newest self.new p ≡ newest self.old p) }
        ensures spoiled { tells → Keeps spoiled self.old self.new }
        ensures cause { HasCause faults self.old self.new result }
        ensures fuse { Counted passes refused own self.old self.new result };

    /// Reads of the page fail verification until its next write. After `Failed` they may.
    fn spoil(&mut self, page: PageNo) -> Result<(), Failed>
        ensures damaged { tells → OnOk result (spoiled self.new page) }
        ensures same { tells → SameImages told newest self.old self.new }
        ensures spoiled { tells → Keeps spoiled self.old self.new }
        ensures cause { HasCause faults self.old self.new result }
        ensures fuse { Uncounted passes refused own self.old self.new }
        ensures failed { OnErr result (Rose (own self.old) (own self.new)) };

    /// Arms a fuse, which lets n more calls pass, or renews it. A device with no fuse does nothing.
    fn fuse(&mut self, n: Option<u64>)
        ensures same { tells → SameImages told newest self.old self.new }
        ensures spoiled { tells → Keeps spoiled self.old self.new }
        ensures faults { faults self.new ≡ faults self.old }
        ensures fuse { Armed fuses passes refused own n self.old self.new };

    /// How many calls a fuse has refused, 0 where there is none.
    fn refused(&self) -> u64
        ensures { result ≡ min (refused self.now) (2 ^ 64 - 1) };

    /// Its count of faults.
    fn faults(&self) -> u64
        ensures { result ≡ min (faults self.now) (2 ^ 64 - 1) };

    /// The newest image is one that a read may give.
    ghost newest_told: { (device : Self) (p : ℕ) (image : List ℕ) → newest device p ≡ Some image → told device p image };
}
