//! Small pages in memory behind the trait `Pages` of `page_ops`, for tests of trees and of requests over any journal.
//!
//! They are no part of the product. There is no device: each page stays in memory, none is brought, and nothing is rebuilt.
//!
//! - [`Frames`] is a table of pages: each is in its frame or in hand.
//! - [`OwnPages`] are such pages, which belong to one thread, and meet the trait. They may be told to refuse a new page's
//!   frame.
#![tactic(auto)]

mod frames;
mod own;

pub use frames::Frames;
pub use own::OwnPages;
