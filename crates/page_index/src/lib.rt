//! The index of a store's pages: where the right to each page is at home, and up to where the page is written.
//!
//! `PageIndex` has, for each page from 1 to a limit, the right to the page, or none while that is out with a held page
//! or a frame, and the LSN as which the page was last written to its device.
//!
//! What holds:
//!
//! 1. A right at home is that of the page that has it. Since a right can't be copied, a page whose right is at home
//!    is held by nobody, and `PageIndex::take_right` gives a right to one taker at most.
//! 2. `PageIndex::take_right` answers None exactly where the right is out.
//! 3. The written LSN of a page is the one noted last, 0 before.
//! 4. A page outside of 1 to the limit counts as out, with written LSN 0.
//!
//! Only `PageIndex::new` takes memory, 32 bytes a page.
#![tactic(auto)]

mod index;

pub use index::PageIndex;

#[cfg(test)]
mod tests;
