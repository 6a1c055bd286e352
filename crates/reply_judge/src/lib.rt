//! What the current contents answer, and what a write is told: the part of legality that is about replies.
//!
//! The current contents are what all Writes, Applys and Undos of a log make. [`CurrentContents`] keeps them as one ordered
//! map, record by record. [`untold_record`] is what a record asks of the next entry: that a write be told.
//!
//! `IsContentsOf contents map` (`specs/Contents`) says that the map has these contents. What is promised:
//!
//! 1. [`CurrentContents::get`] and [`CurrentContents::are_pairs`] are exact, and [`CurrentContents::note`] takes the next
//!    record, whatever it is. Where memory runs out, the contents are as before.
//! 2. [`answers`] is true exactly where the reply to a Get, a Scan, or a Del of an absent key is what the contents say;
//!    [`writes`] exactly where a request would enter a write, [`has_no_meaning`] exactly where it is an Apply of an operator
//!    that gives no value there.
//! 3. [`is_told_as`] is true exactly where a write may be told as this request with this reply.
//!
//! A Scan takes a time by the number of pairs of the store, all others one that is logarithmic in it.
#![tactic(auto)]

mod asked;
mod contents;
mod told;

pub use asked::{answers, has_no_meaning, writes};
pub use contents::CurrentContents;
pub use told::{is_told_as, untold_record};
