//! Images that another program made, and images at fault.
//!
//! The crate has tests alone.
#![tactic(auto)]

#[cfg(test)]
mod images;
