//! The order of texts, found eight bytes at a time.
//!
//! A text is a list of bytes, and texts are ordered as words are in a dictionary: the first byte that differs decides,
//! and a text stands before those that go on behind it. Eight bytes that are read as one number, the first byte
//! greatest, are ordered as they are as texts (the poor man's normalized keys of Graefe and Larson 2001), so that one
//! comparison of numbers stands for eight of bytes. Zeros stand for the bytes that a short text lacks.
//!
//! It is promised that [`compare_texts`] gives the order of the texts, whatever their lengths.
#![tactic(auto)]

mod order;

pub use order::compare_texts;

#[cfg(test)]
mod tests;
