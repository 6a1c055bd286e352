//! The rights and the numbers with which a life goes on from its opening log.
//!
//! A life has one right to each page of its log, which says at which record the page stands. As it begins, no page is in
//! anybody's hand: each right is at home in the index, and what the log says of the image on the data device is noted
//! beside it. Nothing is read for that but the listing of the log, so an opening costs what the pages of the store cost,
//! and not what its log does (Sauer, Graefe and Härder, *Instant restore after a media failure*, 2017).
//!
//! [`begin`] makes these from the empty books of a life and the listing. What it gives is what a history begins with
//! (`life_history`), and each page's right stands at the page's head in the opening log (`specs/Opened`).
#![tactic(auto)]

mod opening;

pub use opening::{LEAST_FRAMES, Opening, begin};
