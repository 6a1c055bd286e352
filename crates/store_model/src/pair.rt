//! A key with its value.
use crate::key::Key;
use crate::value::Value;

/// A key with its value.
#[derive(Clone, Debug, PartialEq, Eq, Drop)]
pub struct Pair {
    pub key: Key,
    pub value: Value,
}
