//! Requests of sessions, over the journal of a life and a log disk in memory.
//!
//! The crate has tests alone, since a crate with tests is proved a second time with them. Each is a table of lines of a
//! script with what they answer, worked out by hand. An answer tells how many entries the history has behind it: so a
//! table shows what each request entered. Concrete types are named in the test functions alone.
#![tactic(auto)]

#[cfg(test)]
mod answers;
#[cfg(test)]
mod lines;
#[cfg(test)]
mod players;
#[cfg(test)]
mod tests;
