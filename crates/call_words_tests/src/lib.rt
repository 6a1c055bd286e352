//! Words that are a call, and words that are none: how `clap` reads what the grammar of `call_words` says.
//!
//! The crate has tests alone.
#![tactic(auto)]

#[cfg(test)]
mod words;
