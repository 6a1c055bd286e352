//! Lines that are commands, lines that are none, and escapes: what no clause of `script` spells out.
//!
//! The crate has tests alone.
#![tactic(auto)]

#[cfg(test)]
mod lines;
