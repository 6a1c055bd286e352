//! What a caller of the journal proves of a group: that it may follow at every moment at which its rights agree.
//!
//! A leaf in hand stays its image while its right agrees, and a transaction stays as it was while its session enters
//! nothing: its phase, its locks, its open writes, its last record. So the group of a put that is lawful by what the
//! caller saw is lawful at each later moment, and where there is no room, its request may be declined.
#![tactic(auto)]

mod putting;

pub use putting::enter_put;
