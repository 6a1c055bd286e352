//! Bounds of keys.
ghost use Rattle.std.specs.Prelude.{◌≡◌, ◌≤◌, ◌↔◌, IsSome, IfSome, Some, None, [], length, unwrap_or};
ghost use Rattle.std.specs.Option.{option_copied};
ghost use Rattle.store_model.specs.Range.{is_below};
ghost use Rattle.store_model.specs.declared.limits.TheConstants.{BOUND_BYTES};

use crate::key::Key;
use crate::limits::BOUND_BYTES;
use crate::text::copy_of;
use arrayvec::ArrayVec;
use std::marker::Model;

/// An end of a range: a text of at most [`BOUND_BYTES`] bytes, or the top, which is above all texts. The empty text is below every
/// key.
#[derive(Clone, Debug, PartialEq, Eq, Drop)]
pub struct Bound {
    at: Option<ArrayVec<u8, BOUND_BYTES>>,
}

impl Model for Bound {
    ghost use Rattle.std.specs.Prelude.{List, ℕ, ◌≤◌, length, Option, IfSome};
    ghost use Rattle.std.specs.Option.{option_map};
    ghost use Rattle.store_model.specs.declared.limits.TheConstants.{BOUND_BYTES};
    ghost use Rattle.store_model.specs.BoundModel.{at_again};

    ghost Value = { Option (List ℕ) };

    ghost view = { λ b. option_map (λ v. v.items) b.at };

    ghost invariant = { λ b. IfSome b.at (λ v. length v.items ≤ BOUND_BYTES) };

    ghost inverse = { λ b. record { at = option_map (λ bytes. record { items = bytes }) b } };

    ghost inverse_ok = { λ b h. at_again b.at };
}

impl Bound {
    /// The bound at these bytes, if there are at most [`BOUND_BYTES`].
    pub fn at(bytes: &[u8]) -> Option<Bound>
        ensures value { IfSome result (λ b. b ≡ Some bytes.now) }
        ensures exact { IsSome result ↔ (length bytes.now ≤ BOUND_BYTES) }
    {
        match ArrayVec::try_from(bytes) {
            Ok(bytes) => Some(Bound { at: Some(bytes) }),
            Err(_) => None,
        }
    }

    /// The bound above all texts.
    pub fn top() -> Bound
        ensures { result ≡ None }
    {
        Bound { at: None }
    }

    /// The bound at this key.
    pub fn of_key(key: &Key) -> Bound
        ensures { result ≡ Some key.now }
    {
        Bound {
            at: Some(copy_of(key.as_bytes())),
        }
    }

    pub(crate) fn of_text(text: ArrayVec<u8, BOUND_BYTES>) -> Bound
        ensures { result ≡ Some text.items }
    {
        Bound { at: Some(text) }
    }

    /// Its bytes, or None for the top.
    pub fn as_bytes(&self) -> Option<&[u8]>
        ensures { option_copied result ≡ self.now }
    {
        match &self.at {
            None => None,
            Some(at) => Some(at.as_slice()),
        }
    }

    /// Its text; the top has none.
    pub fn text(&self) -> &[u8]
        ensures value { result.now ≡ unwrap_or self.now [] }
        ensures short { length result.now ≤ BOUND_BYTES }
    {
        match &self.at {
            None => &[],
            Some(at) => at.as_slice(),
        }
    }

    /// Whether this bound is below another.
    pub fn is_below(&self, other: &Bound) -> bool
        ensures { result ≡ is_below self.now other.now }
    {
        match (&self.at, &other.at) {
            (None, _) => false,
            (Some(_), None) => true,
            (Some(a), Some(b)) => a.cmp(b).is_lt(),
        }
    }

    /// Whether the key is below this bound.
    pub fn is_above(&self, key: &Key) -> bool
        ensures { result ≡ is_below (Some key.now) self.now }
    {
        match &self.at {
            None => true,
            Some(end) => key.as_bytes().cmp(&end.as_slice()).is_lt(),
        }
    }
}
