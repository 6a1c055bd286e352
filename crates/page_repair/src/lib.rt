//! The repair of single pages: the chain of a page, a page that is rebuilt along it, and a supply of pages for a pool.
//!
//! A page that is lost, spoiled or too old is rebuilt from a backup, or from nothing, and from the records of its chain
//! that came later (Graefe and Kuno 2012). A whole lost device comes back segment by segment, as its pages are first
//! wanted (Graefe, Guy and Sauer 2015).
//!
//! - [`Chain`] reads the records of a page and its backups. It tells by which logs it answers.
//! - [`rebuild`] makes the page's image at a head. It is the image of each lawful log by which the chain answers; each
//!   record above the base is asked for once and none below it; a chain of no lawful log ends, too.
//! - [`Images`] is the data device, by what a pass has seen; [`OwnImages`] is one that a thread owns.
//! - [`Supply`] is what a pool needs beside its data device: it makes a page's segment ready, and rebuilds a page.
#![tactic(auto)]

mod back;
mod chain;
mod forward;
mod images;
mod own_images;
mod rebuilding;
mod supply;

pub use back::{bad_chain, previous};
pub use chain::Chain;
pub use forward::{replay, start};
pub use images::Images;
pub use own_images::OwnImages;
pub use rebuilding::rebuild;
pub use supply::Supply;
