//! The three operators that change a value by what it was: add, max and join.
//!
//! The layer is one table of three functions, found by their numbers. What an operator means is the
//! definition `meaning` of `store_model`, which log, pages and replies speak of; so whoever applies an
//! operator, now or at a restart, gets the same value. The functions are handed in as boxed closures:
//! [`Operators::new`] takes each only where its meaning is proved, and keeps that fact beside it.
//! [`add`], [`max`] and [`join`] have these meanings and go into the boxes, which [`boxed_operators`] makes.
//!
//! What is promised: [`Operators::apply`] is the meaning for 1, 2 and 3 and None for every other number.
//! Nothing here takes memory.
#![tactic(auto)]

mod boxes;
mod decimal;
mod functions;
mod operators;
#[cfg(test)]
mod tests;

pub use functions::{add, join, max};
pub use operators::{OpBox, Operators};
