//! Values, and the arguments and results of operators.
ghost use Rattle.std.specs.Prelude.{◌≡◌, ◌≤◌, ◌↔◌, [], IsSome, IfSome, length};
ghost use Rattle.store_model.specs.declared.limits.TheConstants.{OPERAND_BYTES, VALUE_BYTES};

use crate::limits::{OPERAND_BYTES, VALUE_BYTES};
use crate::text::copy_of;
use arrayvec::ArrayVec;
use std::marker::Model;

/// A value: at most [`VALUE_BYTES`] bytes.
#[derive(Clone, Debug, PartialEq, Eq, Drop)]
pub struct Value {
    bytes: ArrayVec<u8, VALUE_BYTES>,
}

impl Model for Value {
    ghost use Rattle.std.specs.Prelude.{List, ℕ, ◌≤◌, length};
    ghost use Rattle.store_model.specs.declared.limits.TheConstants.{VALUE_BYTES};

    ghost Value = { List ℕ };

    ghost view = { λ v. v.bytes.items };

    ghost invariant = { λ v. length v.bytes.items ≤ VALUE_BYTES };

    ghost inverse = { λ bytes. record { bytes = record { items = bytes } } };
}

impl Value {
    /// The value of these bytes, if there are at most [`VALUE_BYTES`].
    pub fn new(bytes: &[u8]) -> Option<Value>
        ensures value { IfSome result (λ v. v ≡ bytes.now) }
        ensures exact { IsSome result ↔ (length bytes.now ≤ VALUE_BYTES) }
    {
        match ArrayVec::try_from(bytes) {
            Ok(bytes) => Some(Value { bytes }),
            Err(_) => None,
        }
    }

    /// The value without bytes.
    pub fn empty() -> Value
        ensures { result ≡ [] }
    {
        Value {
            bytes: ArrayVec::new(),
        }
    }

    /// The same value again. It takes no memory.
    pub fn copied(&self) -> Value
        ensures { result ≡ self.now }
    {
        Value {
            bytes: copy_of(self.as_bytes()),
        }
    }

    /// Its bytes.
    pub fn as_bytes(&self) -> &[u8]
        ensures value { result.now ≡ self.now }
        ensures fits { length self.now ≤ VALUE_BYTES }
    {
        self.bytes.as_slice()
    }
}

/// An operator's argument or result: at most [`OPERAND_BYTES`] bytes.
#[derive(Clone, Debug, PartialEq, Eq, Drop)]
pub struct OpValue {
    bytes: ArrayVec<u8, OPERAND_BYTES>,
}

impl Model for OpValue {
    ghost use Rattle.std.specs.Prelude.{List, ℕ, ◌≤◌, length};
    ghost use Rattle.store_model.specs.declared.limits.TheConstants.{OPERAND_BYTES};

    ghost Value = { List ℕ };

    ghost view = { λ v. v.bytes.items };

    ghost invariant = { λ v. length v.bytes.items ≤ OPERAND_BYTES };

    ghost inverse = { λ bytes. record { bytes = record { items = bytes } } };
}

impl OpValue {
    /// The argument or result of these bytes, if there are at most [`OPERAND_BYTES`].
    pub fn new(bytes: &[u8]) -> Option<OpValue>
        ensures value { IfSome result (λ v. v ≡ bytes.now) }
        ensures exact { IsSome result ↔ (length bytes.now ≤ OPERAND_BYTES) }
    {
        match ArrayVec::try_from(bytes) {
            Ok(bytes) => Some(OpValue { bytes }),
            Err(_) => None,
        }
    }

    /// Its bytes.
    pub fn as_bytes(&self) -> &[u8]
        ensures value { result.now ≡ self.now }
        ensures fits { length self.now ≤ OPERAND_BYTES }
    {
        self.bytes.as_slice()
    }
}
