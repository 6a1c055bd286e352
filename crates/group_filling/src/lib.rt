//! What the journal fills into the records of a group, and what it looks at before it enters one.
//!
//! Who asks for a group doesn't know which records come before its own. So some fields are the journal's: the LSNs of the
//! records before it, of its transaction and of its pages, the number of a new page, and how many pages a loss tells.
//! All of them are read off the listing of the log.
//!
//! 1. [`fill`] fills a group of one record or two in, where they stand. For each log of which the listing is, the records
//!    are then those that the laws of asking tell (`fill_all`). It gives what stood in the fields before, and
//!    [`put_back`] makes the group of it that was asked for.
//! 2. [`can_fill`] tells which groups can be filled in, and [`is_fit`] whether there are rights to all that a filled group
//!    names. [`have_numbers`] tells whether its numbers are in their ranges, so that each of its records has a spelling,
//!    also in a life whose log nobody knows.
//!
//! A checkpoint isn't filled in here.
#![tactic(auto)]

mod fields;
mod filling;
mod fitting;

pub use fields::Fields;
pub use filling::{Before, fill, made_by, put_back};
pub use fitting::{can_fill, have_numbers, is_fit};
