//! The outside: what a store reads from, writes to and keeps its bytes on.
//!
//! A [`Source`] gives bytes and a [`Sink`] takes them. A [`Disk`] keeps the log, a [`PageDevice`] the pages, and a
//! [`Vault`] the backups and the archive. Each contract speaks of two things.
//!
//! - *What the object tells of its content.* Objects in memory tell it; files and streams tell nothing. A clause on
//!   content holds where the object tells. Of the disk this includes what a crash may leave, at each moment of a call.
//! - *Its count of faults*, which never falls. A call answers [`Failed`] only where the count of its own object rose in
//!   that call, or stands at its end, 2^64 - 1. Code that is generic over a device can't raise the count, so it can't
//!   answer a fault that the device didn't give.
//!
//! A [`Fuse`] round a device passes its calls on until it blows. Which calls it counts, and what becomes of them, is part
//! of each trait: a blown fuse refuses each counted call and stays blown, any other burns down by one and passes the call
//! on, and such a call fails only where the device itself failed. So code that is generic over a device can tell the
//! two apart.
//!
//! [`NeverFails`] wraps any of them too. Its model is where the bytes of a disk begin and end, and it promises that no
//! call answers `Failed`, since its count of faults is the constant 0. What it holds it doesn't tell.
#![tactic(auto)]

mod devices;
mod disk;
mod fault;
mod fuse;
mod never_fails;
mod pages;
mod stream;
mod vault;

pub use devices::Devices;
pub use disk::Disk;
pub use fault::Failed;
pub use fuse::Fuse;
pub use never_fails::NeverFails;
pub use pages::{PageBytes, PageDevice};
pub use stream::{Sink, Source, write_all};
pub use vault::Vault;
