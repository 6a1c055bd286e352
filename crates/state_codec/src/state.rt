//! Reading the state of a page.
ghost use Rattle.std.specs.Prelude.{◌≡◌, ◌≤◌, ◌↔◌, ◌&&◌, ℕ, List, length, Some, IfSome, IfNone, IsSome, true};
ghost use Rattle.std.specs.Option.{option_map};
ghost use Rattle.store_model.specs.Range.{is_below};
ghost use Rattle.wal_record.specs.State.{is_text, end_by, own_part, state_size};
ghost use Rattle.wal_record.specs.Reading.{text_at, maybe_at, high_at, foster_pointer_at, foster_at, without_rows, state_at};
ghost use Rattle.wal_record.specs.declared.page.Foster.{Foster};
ghost use Rattle.state_codec.specs.Gives.{Gives};
ghost use Rattle.state_codec.specs.State.{pointer_of};

use crate::fault::FieldFault;
use crate::field::{argument_at, child_at, u8_at};
use crate::rows::rows_at;
use std::alloc::Global;
use store_model::{Bound, Key, OpValue, PageNo};
use wal_record::{Foster, PageState};

/// The bound at a text, of which there are at most 64 bytes.
pub fn bound_of(text: &OpValue) -> Bound
    ensures { result ≡ Some text.now }
{
    match Bound::at(text.as_bytes()) {
        Some(bound) => bound,
        None => Bound::top(),
    }
}

/// The bound at a text, or the top.
fn bound_or_top(text: &Option<OpValue>) -> Bound
    ensures { result ≡ text.now }
{
    match text {
        Some(text) => bound_of(text),
        None => Bound::top(),
    }
}

/// A text that may be absent.
#[tactic(auto, unfolding(wal_record::specs::Reading::maybe_at))]
fn maybe_text_at(bytes: &[u8]) -> Result<(Option<OpValue>, &[u8]), FieldFault>
    ensures { Gives (λ x. (x.0, x.1.now)) result (maybe_at (text_at is_text) bytes.now) }
{
    match bytes {
        [0, rest @ ..] => Ok((None, rest)),
        [1, rest @ ..] => match argument_at(rest) {
            Ok((text, rest)) => Ok((Some(text), rest)),
            Err(FieldFault::Memory) => Err(FieldFault::Memory),
            Err(FieldFault::Bad { .. }) => Err(FieldFault::Bad { left: bytes.len() }),
        },
        _ => Err(FieldFault::Bad { left: bytes.len() }),
    }
}

/// A high fence above a low one.
#[tactic(auto, unfolding(wal_record::specs::Reading::high_at))]
fn high_at<'a>(low: &OpValue, bytes: &'a [u8]) -> Result<(Option<OpValue>, &'a [u8]), FieldFault>
    ensures { Gives (λ x. (x.0, x.1.now)) result (high_at low.now bytes.now) }
{
    let (high, rest) = maybe_text_at(bytes)?;
    if !bound_of(low).is_below(&bound_or_top(&high)) {
        return Err(FieldFault::Bad { left: bytes.len() });
    }
    Ok((high, rest))
}

#[tactic(auto, unfolding(wal_record::specs::Reading::foster_pointer_at))]
fn foster_pointer_at(bytes: &[u8]) -> Result<((OpValue, PageNo), &[u8]), FieldFault>
    ensures { Gives (λ x. (pointer_of x.0, x.1.now)) result (foster_pointer_at bytes.now) }
{
    let (key, rest) = argument_at(bytes)?;
    let (child, rest) = child_at(rest)?;
    Ok(((key, child), rest))
}

#[tactic(auto, unfolding(wal_record::specs::Reading::maybe_at))]
fn maybe_foster_at(bytes: &[u8]) -> Result<(Option<(OpValue, PageNo)>, &[u8]), FieldFault>
    ensures { Gives (λ x. (option_map pointer_of x.0, x.1.now)) result (maybe_at foster_pointer_at bytes.now) }
{
    match bytes {
        [0, rest @ ..] => Ok((None, rest)),
        [1, rest @ ..] => match foster_pointer_at(rest) {
            Ok((pointer, rest)) => Ok((Some(pointer), rest)),
            Err(FieldFault::Memory) => Err(FieldFault::Memory),
            Err(FieldFault::Bad { .. }) => Err(FieldFault::Bad { left: bytes.len() }),
        },
        _ => Err(FieldFault::Bad { left: bytes.len() }),
    }
}

/// The key at a text, if it lies between these fences.
fn key_between(low: &OpValue, text: &OpValue, high: &Option<OpValue>) -> Option<Key>
    ensures value { IfSome result (λ key. key ≡ text.now) }
    ensures exact { IsSome result ↔ ((is_below (Some low.now) (Some text.now) && is_below (Some text.now) high.now) ≡ true) }
{
    let at = bound_of(text);
    if bound_of(low).is_below(&at) && at.is_below(&bound_or_top(high)) {
        Key::new(text.as_bytes())
    } else {
        None
    }
}

/// A foster pointer whose key lies between these fences, if there is one.
#[tactic(auto, unfolding(wal_record::specs::Reading::foster_at))]
fn foster_at<'a>(
    low: &OpValue,
    high: &Option<OpValue>,
    bytes: &'a [u8],
) -> Result<(Option<Foster>, &'a [u8]), FieldFault>
    ensures { Gives (λ x. (x.0, x.1.now)) result (foster_at low.now high.now bytes.now) }
{
    let (pointer, rest) = maybe_foster_at(bytes)?;
    match pointer {
        None => Ok((None, rest)),
        Some((text, child)) => match key_between(low, &text, high) {
            Some(key) => Ok((Some(Foster { key, child }), rest)),
            None => Err(FieldFault::Bad { left: bytes.len() }),
        },
    }
}

/// Where the page's own part ends.
fn end_of(foster: &Option<Foster>, high: &Option<OpValue>) -> Bound
    ensures { result ≡ end_by foster.now high.now }
{
    match foster {
        Some(foster) => Bound::of_key(&foster.key),
        None => bound_or_top(high),
    }
}

/// How many bytes the state has without its rows.
fn size_without_rows(low: &OpValue, high: &Option<OpValue>, foster: &Option<Foster>) -> usize
    ensures size { (level : ℕ) → result ≡ state_size (without_rows level low.now high.now foster.now) }
    ensures small { result ≤ 204 }
{
    let high = match high {
        None => 1,
        Some(high) => 2 + high.as_bytes().len(),
    };
    let foster = match foster {
        None => 1,
        Some(foster) => 6 + foster.key.as_bytes().len(),
    };
    4 + low.as_bytes().len() + high + foster
}

/// The state of a page, if its bytes stand in front.
#[tactic(auto, unfolding(wal_record::specs::Reading::state_at))]
pub fn state_at(alloc: Global, bytes: &[u8]) -> Result<(PageState, &[u8]), FieldFault>
    ensures { Gives (λ x. (x.0, x.1.now)) result (state_at bytes.now) }
{
    let (level, rest) = u8_at(bytes)?;
    let (low, rest) = argument_at(rest)?;
    let (high, rest) = high_at(&low, rest)?;
    let (foster, rest) = foster_at(&low, &high, rest)?;
    let used = size_without_rows(&low, &high, &foster);
    let end = end_of(&foster, &high);
    let low = bound_of(&low);
    let (rows, rest) = rows_at(alloc, level, &low, &end, used, rest)?;
    let found = PageState {
        level,
        low,
        high: bound_or_top(&high),
        foster,
        rows,
    };
    Ok((found, rest))
}
