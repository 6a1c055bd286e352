//! Pages as they stand on the data device, in backups and in repair: 4,096 bytes for a state, with the page's number,
//! its LSN and a digest.
//!
//! The model is `specs/Image`: the one image of a state for a number and an LSN. `specs/Reading` reads an image from left
//! to right, up to the first field that breaks its rule, over the readings of `wal_record`.
//!
//! What is promised: [`seal`] makes the image and takes no memory. [`open_page`] gives a state and an LSN exactly where
//! the bytes are their image for that page; else it names the first of three faults, in this order: the digest, the
//! number, the field.
#![tactic(auto)]

mod digest;
mod draft;
mod fault;
mod layout;
mod opening;
mod sealed;
mod sealing;
mod writing;

pub use fault::PageFault;
pub use opening::open_page;
pub use sealed::Sealed;
pub use sealing::seal;
