//! What is known of the count's word.
use std::collections::LinkedList;

/// What a seat at the count knows. It stands in contracts and proofs alone: no value of it is made.
pub struct View<E> {
    /// Whether it adds to the list.
    pub leads: bool,
    /// The beginning of the list that it has seen.
    pub seen: LinkedList<E>,
    /// What a seat that joined it had seen, until the next load.
    pub told: LinkedList<E>,
    /// Whether it stores the durable number.
    pub marks: bool,
    /// A durable number that there was.
    pub durable: u64,
    /// The one that a seat that joined it had seen, until the next load.
    pub heard: u64,
}
