//! A store in the files of a folder, which a later run opens again.
//!
//! The crate has tests alone. They use the devices of the program `instant`, and each run opens them anew.
#![tactic(auto)]

#[cfg(test)]
mod folder;
