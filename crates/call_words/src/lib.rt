//! The words of a call behind its place: `[run | generate N] [--workers W] [--frames F]`.
//!
//! [`call_of`] reads them with `clap`, as one simple command (`specs/Grammar`), so options stand anywhere, `--frames=64`
//! means `--frames 64`, and `--` ends the options. What the words of a call ask for, and which words are no call, is a
//! function of the words (`specs/Calls`): [`call_of`] answers exactly it, or that memory ran out.
#![tactic(auto)]

mod call;
mod grammar;
mod refusal;

pub use call::{Call, Mode, call_of};
pub use refusal::Refusal;
