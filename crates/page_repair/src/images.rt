//! The data device as those see it who read and write its pages.
ghost use Rattle.std.specs.Prelude.{◌≡◌, ◌⊎◌, ◌≤◌, ℕ, List, Option, Some, None, OnOk};
ghost use mathlib.Core.List.{IsPrefix};
ghost use Rattle.media.specs.Cause.{HasCause};
ghost use Rattle.media.specs.Images.{FailsVerification};
ghost use Rattle.page_repair.specs.Images.{IsWritten, SameNewest, SameOthers};

use front::Pass;
use media::{Failed, PageBytes};
use page_ops::Life;
use std::sync::Wait;
use store_model::PageNo;
use wal_record::Entry;

/// The data device of a life, whether one thread owns it or threads share it under a lock. Each call is one device call.
/// What it gives and takes is told by the caller's pass, which sees as much as whoever wrote the image.
pub trait Images<N: Life> {
    /// How often the device has failed at calls made through it.
    ghost faults: { Self → ℕ };

    /// Whether such a device tells what was written last. One that threads share doesn't, since others write to it.
    ghost tells: { Type 0 };

    /// The image of a page that was written last.
    ghost newest: { Self → ℕ → Option (List ℕ) };

    /// An image of the page as the log makes it, or bytes that fail verification.
    fn read<R: Wait>(
        &mut self,
        rt: &R,
        page: PageNo,
        out: &mut PageBytes,
        pass: &mut Pass<Entry, N>,
    ) -> Result<(), Failed>
        ensures image { OnOk result (FailsVerification out.new ⊎ IsWritten N.opens pass.new page out.new) }
        ensures same { tells → SameNewest newest self.old self.new }
        ensures seen { IsPrefix pass.old.log pass.new.log × (pass.old.durable ≤ pass.new.durable) }
        ensures cause { HasCause faults self.old self.new result };

    /// Writes an image of the page, which the log makes of records that the pass knows to be durable. After `Failed` it may
    /// be there.
    fn write<R: Wait>(
        &mut self,
        rt: &R,
        page: PageNo,
        bytes: &PageBytes,
        pass: &mut Pass<Entry, N>,
    ) -> Result<(), Failed>
        requires written { IsWritten N.opens pass.old page bytes.now }
        ensures newest { tells → OnOk result (newest self.new page ≡ Some bytes.now) }
        ensures others { tells → SameOthers newest page self.old self.new }
        ensures seen { IsPrefix pass.old.log pass.new.log × (pass.old.durable ≤ pass.new.durable) }
        ensures cause { HasCause faults self.old self.new result };

    /// An empty device takes its place. After `Failed` the old images may stay.
    fn replace<R: Wait>(&mut self, rt: &R) -> Result<(), Failed>
        ensures empty { tells → OnOk result ((page : ℕ) → newest self.new page ≡ None) }
        ensures cause { HasCause faults self.old self.new result };
}
