//! The pool of one thread: pages in frames, brought from the data device, repaired where it doesn't give them, and written
//! back (Effelsberg and Haerder 1984; Graefe and Kuno 2012).
//!
//! Each page has one frame and one right. The page is in its frame ([`Frame::Full`]); or the frame is kept for it while it is
//! in somebody's hand or on its way ([`Frame::Kept`]); or the frame is empty, and the right at home in the index. The model
//! of [`Frames`] is that table (`specs/Tables`). There is a frame for each page of the index, at the place of its number, and
//! one more for a page to be made. A pool with fewer frames would have to empty one before it keeps another; that is where
//! `Frames::call_out` and `reserve_new` would choose a victim.
//!
//! [`PlainPool`] meets `page_ops::Pages` over any `Images`, `Supply` and journal. What is promised:
//!
//! 1. A page in hand is the image that the log makes of it at its head (the trait's contract, by the type of `Held`).
//! 2. An image of the data device is the base of a page exactly where it verifies and its LSN lies between the LSN as which
//!    the page was written last and its head (`specs/Bases`). A device that fails is no fault of a bring. A page is dirty
//!    exactly where the device didn't give it as it is at its head.
//! 3. A page that is rebuilt without such an image enters that it was repaired, after it was rebuilt and only where an image
//!    of it was written since the last loss; nothing else enters a repair, and a bring that is refused enters none
//!    (`specs/Repairs`).
//! 4. A bring that is done has the page in its frame, at the LSN of its right, and each other frame and right is as before.
//!    After one that is refused each frame is as before, and each right where it was; nothing was entered but what the supply
//!    restored (`specs/Brings`).
//! 5. An image is written only once the log is durable up to its LSN. Then it is entered that it was written, and nothing
//!    else. A page is dropped only where the device failed; its right is then at home, nothing is entered, and no answer tells
//!    of it (`specs/Writes`).
//! 6. The next dirty page above a number is the least one, exactly; and so is the next one that awaits redo: at first those
//!    whose head in the opening log is above their written LSN, and then those of them that haven't been brought or renewed.
//! 7. Where the data device is lost, each page in its frame is dropped and its right goes home, and no page counts as
//!    written, also where the device refuses to be replaced (`specs/Tables`).
//!
//! `PlainPool::new` takes memory for each frame; brings take what a page's rows need; taking a page and putting it back take
//! none.
#![tactic(auto)]

mod base;
mod bringing;
mod dropping;
mod frame;
mod frames;
mod moving;
mod plain_pool;
mod rebuilding;
mod writing;

pub use frame::Frame;
pub use frames::Frames;
pub use plain_pool::{PlainPool, PoolRefused};
