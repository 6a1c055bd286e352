//! What tests ask of a journal, step by step, and what it tells of that, as text.
//!
//! The steps know the journal by its traits alone, so they are proved over any, and the crates of tests have tables and concrete
//! types only. No opening log is told: what a group needs beside its form and its rights is then no matter of the caller's.
//! Page 1 stands for all pages.
#![tactic(auto)]

mod answers;
mod calls;
mod ended;
mod entering;
mod groups;
mod refused;
mod steps;

pub use calls::{Hands, commit_one, lock_by, lock_one};
pub use entering::{Change, put_lsn};
pub use refused::{Made, put_and_commit};
pub use steps::{Line, Step, play};
