//! Pages of a life rebuilt from its log.
//!
//! A page that the data device doesn't give is rebuilt along its chain (Graefe and Kuno 2012): its records are asked of the
//! journal, from its head back to a base, and redone forward. `page_repair::rebuild` does so over any chain; here the journal
//! is the chain, and the pass that is handed in grows as it is asked.
//!
//! [`rebuild_in_life`] gives the page's image at a head, of whatever log the life began with. It enters nothing. A record that
//! the log has forgotten is taken from the archive run that has it.
//!
//! A lost device comes back segment by segment (Graefe, Guy and Sauer 2015): [`restore`] writes the images of a segment's
//! pages, and [`mark_restored`] enters that it is restored. [`LogSupply`] does both as a pool first wants a page of it. Where
//! the device tells what was written last, `restore` has to have written the image of each page that was lost, but for as many
//! at most as calls of the device have failed.
//!
//! [`Bases`] gives the images that a repair begins from and the records of runs; [`NoBases`] gives neither.
#![tactic(auto)]

mod base;
mod bases;
mod following;
mod rebuilding;
mod restoring;
mod supply;
mod writing;

pub use base::{Base, sealed_of};
pub use bases::{Bases, NoBases};
pub use rebuilding::rebuild_in_life;
pub use restoring::{mark_restored, restore};
pub use supply::LogSupply;
