//! Trees that are put, split, purged, grown and kept up, over the journal of a life and a log disk in memory.
//!
//! The crate has tests alone. What is expected was worked out by hand. It stands in a crate of its own, since a crate with
//! tests is proved a second time with them. Concrete types are named in the test functions alone: whatever they call is
//! written over the traits, or over any disk and any life, since the proof of a function states each drop of its types.
#![tactic(auto)]

#[cfg(test)]
mod damage;
#[cfg(test)]
mod steps;
#[cfg(test)]
mod tests;
#[cfg(test)]
mod told;
#[cfg(test)]
mod work;
