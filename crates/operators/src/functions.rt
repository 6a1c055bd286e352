//! What the three operators do.
ghost use Rattle.std.specs.Prelude.{◌≡◌, unwrap_or};
ghost use Rattle.std.specs.Fmt.{decimal};
ghost use Rattle.store_model.specs.Operator.{number_of};
ghost use Rattle.operators.specs.Means.{made_by};

use crate::decimal::written;
use arrayvec::ArrayVec;
use store_model::{OpValue, Value, number_in};

/// The sum of two decimals, an absent value counting as 0. None where either isn't a decimal
/// without leading zeros, or where the sum isn't below 2^64.
#[tactic(auto, unfolding(crate::specs::Means::made_by))]
pub fn add(old: &Option<Value>, argument: &OpValue) -> Option<OpValue>
    ensures { result ≡ made_by 1 old.now argument.now }
{
    let left = number_or_zero(old)?;
    let right = number_in(argument.as_bytes())?;
    written(left.checked_add(right)?)
}

/// The greater of two decimals, an absent value counting as 0. None where either isn't a decimal
/// without leading zeros.
#[tactic(auto, unfolding(crate::specs::Means::made_by))]
pub fn max(old: &Option<Value>, argument: &OpValue) -> Option<OpValue>
    ensures { result ≡ made_by 2 old.now argument.now }
{
    let left = number_or_zero(old)?;
    let right = number_in(argument.as_bytes())?;
    written(left.max(right))
}

/// The old value with the argument behind it. None where that is longer than 64 bytes.
#[tactic(auto, unfolding(crate::specs::Means::made_by))]
pub fn join(old: &Option<Value>, argument: &OpValue) -> Option<OpValue>
    ensures { result ≡ made_by 3 old.now argument.now }
{
    let mut text = ArrayVec::<u8, 64>::new();
    if let Some(value) = old {
        text.try_extend_from_slice(value.as_bytes()).ok()?;
    }
    text.try_extend_from_slice(argument.as_bytes()).ok()?;
    OpValue::new(text.as_slice())
}

fn number_or_zero(value: &Option<Value>) -> Option<u64>
    ensures { result ≡ number_of (unwrap_or value.now (decimal 0)) }
{
    match value {
        None => Some(0),
        Some(value) => number_in(value.as_bytes()),
    }
}
