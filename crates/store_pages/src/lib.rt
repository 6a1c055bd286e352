//! The pages of a life over its data device and its vault.
//!
//! [`StorePages`] is the pool of a store (`buffer_pool`) over a [`LifeSupply`], which owns the vault and counts its faults. Pages come
//! from the data device, and by repair from their last backup in the vault and from the log where the device lacks them, or gives
//! them damaged or too old; behind a loss of the device a segment is so restored whole before the first of its pages is given.
//!
//! Each call takes the journal and the named transactions of the life (`store_life`), so that whoever holds journal and pages side
//! by side need not know of what the pages are made. The model (`specs/Pages`) is which pages are dirty, which await redo, and what
//! stands on the two devices. What is promised:
//!
//! 1. [`StorePages::ask`], [`StorePages::abort`] and [`StorePages::undo_next`] are those of `store_life`, over these pages.
//! 2. [`StorePages::bring_next`] brings the next page that awaits redo, or restores the next unrestored segment;
//!    [`StorePages::write_next`] writes the next dirty page. Each says which one it was, and where none is left.
//! 3. A backup has each page that there was, as it was or later, and archive runs follow those that stood (`specs/Backed`).
//! 4. Behind [`StorePages::lose`] no page is dirty, and the device is empty or has counted a fault.
//! 5. No call leaves a page in hand. A fault of the data device is told by none; one of the vault only where one more was counted.
#![tactic(auto)]

mod store_pages;
mod supply;
mod vault_fuse;

pub use store_pages::StorePages;
pub use supply::LifeSupply;
