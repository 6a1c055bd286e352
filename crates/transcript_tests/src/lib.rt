//! Lines that answer, written out by hand: what no clause of `transcript` spells as a whole.
//!
//! The crate has tests alone.
#![tactic(auto)]

#[cfg(test)]
mod requests;
#[cfg(test)]
mod words;
