//! Fields at the front of bytes: each reader gives a value and the bytes after it, or the first fault.
ghost use Rattle.std.specs.Prelude.{◌≡◌, ℕ, List, length};
ghost use Rattle.std.specs.Int.{w8, w16, w32, w64};
ghost use Rattle.wal_record.specs.State.{is_text, is_child};
ghost use Rattle.wal_record.specs.Rules.{is_number, is_lsn_or_none, is_next, is_page, is_limit, is_page_count};
ghost use Rattle.wal_record.specs.Reading.{any_number, number_at, text_at, key_at, value_at, maybe_value_at, new_value_at};
ghost use Rattle.state_codec.specs.Gives.{Gives, TakesFront};

use crate::fault::FieldFault;
use store_model::{HIGHEST, Key, LEAST_LIMIT, MOST_PAGES, OpValue, Value};

pub fn u16_in_front(bytes: &[u8]) -> Option<(u16, &[u8])>
    ensures { TakesFront result w16 bytes.now }
{
    if bytes.len() < 2 {
        return None;
    }
    let (front, rest) = bytes.split_at(2);
    Some((u16::from_be_bytes([front[0], front[1]]), rest))
}

pub fn u32_in_front(bytes: &[u8]) -> Option<(u32, &[u8])>
    ensures { TakesFront result w32 bytes.now }
{
    if bytes.len() < 4 {
        return None;
    }
    let (front, rest) = bytes.split_at(4);
    Some((
        u32::from_be_bytes([front[0], front[1], front[2], front[3]]),
        rest,
    ))
}

pub fn u64_in_front(bytes: &[u8]) -> Option<(u64, &[u8])>
    ensures { TakesFront result w64 bytes.now }
{
    if bytes.len() < 8 {
        return None;
    }
    let (front, rest) = bytes.split_at(8);
    let number = u64::from_be_bytes([
        front[0], front[1], front[2], front[3], front[4], front[5], front[6], front[7],
    ]);
    Some((number, rest))
}

/// The number of a transaction, a backup or a run, or the LSN of a record.
#[tactic(auto, unfolding(wal_record::specs::Reading::number_at))]
pub fn number_at(bytes: &[u8]) -> Result<(u64, &[u8]), FieldFault>
    ensures { Gives (λ x. (x.0, x.1.now)) result (number_at w64 is_number bytes.now) }
{
    match u64_in_front(bytes) {
        Some((number, rest)) if number >= 1 && number <= HIGHEST => Ok((number, rest)),
        _ => Err(FieldFault::Bad { left: bytes.len() }),
    }
}

/// The LSN of a record, or 0 for none.
#[tactic(auto, unfolding(wal_record::specs::Reading::number_at))]
pub fn lsn_or_none_at(bytes: &[u8]) -> Result<(u64, &[u8]), FieldFault>
    ensures { Gives (λ x. (x.0, x.1.now)) result (number_at w64 is_lsn_or_none bytes.now) }
{
    match u64_in_front(bytes) {
        Some((number, rest)) if number <= HIGHEST => Ok((number, rest)),
        _ => Err(FieldFault::Bad { left: bytes.len() }),
    }
}

/// The number of a page.
#[tactic(auto, unfolding(wal_record::specs::Reading::number_at))]
pub fn page_at(bytes: &[u8]) -> Result<(u32, &[u8]), FieldFault>
    ensures { Gives (λ x. (x.0, x.1.now)) result (number_at w32 is_page bytes.now) }
{
    match u32_in_front(bytes) {
        Some((number, rest)) if number >= 1 && number <= MOST_PAGES => Ok((number, rest)),
        _ => Err(FieldFault::Bad { left: bytes.len() }),
    }
}

/// The number of a page that a pointer may lead to.
#[tactic(auto, unfolding(wal_record::specs::Reading::number_at))]
pub fn child_at(bytes: &[u8]) -> Result<(u32, &[u8]), FieldFault>
    ensures { Gives (λ x. (x.0, x.1.now)) result (number_at w32 is_child bytes.now) }
{
    match u32_in_front(bytes) {
        Some((number, rest)) if number >= 2 && number <= MOST_PAGES => Ok((number, rest)),
        _ => Err(FieldFault::Bad { left: bytes.len() }),
    }
}

/// How many pages and open writes a store may have.
#[tactic(auto, unfolding(wal_record::specs::Reading::number_at))]
pub fn limit_at(bytes: &[u8]) -> Result<(u32, &[u8]), FieldFault>
    ensures { Gives (λ x. (x.0, x.1.now)) result (number_at w32 is_limit bytes.now) }
{
    match u32_in_front(bytes) {
        Some((number, rest)) if number >= LEAST_LIMIT && number <= MOST_PAGES => Ok((number, rest)),
        _ => Err(FieldFault::Bad { left: bytes.len() }),
    }
}

/// A byte, whatever it is.
#[tactic(auto, unfolding(wal_record::specs::Reading::number_at))]
pub fn u8_at(bytes: &[u8]) -> Result<(u8, &[u8]), FieldFault>
    ensures { Gives (λ x. (x.0, x.1.now)) result (number_at w8 any_number bytes.now) }
{
    match bytes {
        [] => Err(FieldFault::Bad { left: 0 }),
        [number, rest @ ..] => Ok((*number, rest)),
    }
}

/// A number of four bytes, whatever it is.
#[tactic(auto, unfolding(wal_record::specs::Reading::number_at))]
pub fn u32_at(bytes: &[u8]) -> Result<(u32, &[u8]), FieldFault>
    ensures { Gives (λ x. (x.0, x.1.now)) result (number_at w32 any_number bytes.now) }
{
    match u32_in_front(bytes) {
        Some((number, rest)) => Ok((number, rest)),
        None => Err(FieldFault::Bad { left: bytes.len() }),
    }
}

/// A number of two bytes, whatever it is.
#[tactic(auto, unfolding(wal_record::specs::Reading::number_at))]
pub fn u16_at(bytes: &[u8]) -> Result<(u16, &[u8]), FieldFault>
    ensures { Gives (λ x. (x.0, x.1.now)) result (number_at w16 any_number bytes.now) }
{
    match u16_in_front(bytes) {
        Some((number, rest)) => Ok((number, rest)),
        None => Err(FieldFault::Bad { left: bytes.len() }),
    }
}

/// A number of eight bytes, whatever it is.
#[tactic(auto, unfolding(wal_record::specs::Reading::number_at))]
pub fn u64_at(bytes: &[u8]) -> Result<(u64, &[u8]), FieldFault>
    ensures { Gives (λ x. (x.0, x.1.now)) result (number_at w64 any_number bytes.now) }
{
    match u64_in_front(bytes) {
        Some((number, rest)) => Ok((number, rest)),
        None => Err(FieldFault::Bad { left: bytes.len() }),
    }
}

/// The number that comes next, of a transaction, a backup or a run.
#[tactic(auto, unfolding(wal_record::specs::Reading::number_at))]
pub fn next_at(bytes: &[u8]) -> Result<(u64, &[u8]), FieldFault>
    ensures { Gives (λ x. (x.0, x.1.now)) result (number_at w64 is_next bytes.now) }
{
    match u64_in_front(bytes) {
        Some((number, rest)) if number >= 1 && number <= HIGHEST + 1 => Ok((number, rest)),
        _ => Err(FieldFault::Bad { left: bytes.len() }),
    }
}

/// How many pages of a segment a backup has.
#[tactic(auto, unfolding(wal_record::specs::Reading::number_at))]
pub fn page_count_at(bytes: &[u8]) -> Result<(u8, &[u8]), FieldFault>
    ensures { Gives (λ x. (x.0, x.1.now)) result (number_at w8 is_page_count bytes.now) }
{
    match bytes {
        [count, rest @ ..] if *count >= 1 && *count <= 16 => Ok((*count, rest)),
        _ => Err(FieldFault::Bad { left: bytes.len() }),
    }
}

/// A key.
#[tactic(auto, unfolding(wal_record::specs::Reading::text_at))]
pub fn key_at(bytes: &[u8]) -> Result<(Key, &[u8]), FieldFault>
    ensures { Gives (λ x. (x.0, x.1.now)) result (key_at bytes.now) }
{
    if let [len, rest @ ..] = bytes {
        let len = *len as usize;
        if len <= rest.len() {
            let (text, rest) = rest.split_at(len);
            if let Some(key) = Key::new(text) {
                return Ok((key, rest));
            }
        }
    }
    Err(FieldFault::Bad { left: bytes.len() })
}

/// The argument of an operator.
#[tactic(auto, unfolding(wal_record::specs::Reading::text_at))]
pub fn argument_at(bytes: &[u8]) -> Result<(OpValue, &[u8]), FieldFault>
    ensures { Gives (λ x. (x.0, x.1.now)) result (text_at is_text bytes.now) }
{
    if let [len, rest @ ..] = bytes {
        let len = *len as usize;
        if len <= rest.len() {
            let (text, rest) = rest.split_at(len);
            if let Some(argument) = OpValue::new(text) {
                return Ok((argument, rest));
            }
        }
    }
    Err(FieldFault::Bad { left: bytes.len() })
}

/// A value.
#[tactic(auto, unfolding(wal_record::specs::Reading::value_at))]
pub fn value_at(bytes: &[u8]) -> Result<(Value, &[u8]), FieldFault>
    ensures { Gives (λ x. (x.0, x.1.now)) result (value_at bytes.now) }
{
    if let Some((len, rest)) = u16_in_front(bytes) {
        let len = len as usize;
        if len <= rest.len() {
            let (text, rest) = rest.split_at(len);
            if let Some(value) = Value::new(text) {
                return Ok((value, rest));
            }
        }
    }
    Err(FieldFault::Bad { left: bytes.len() })
}

/// A value that may be absent.
#[tactic(auto, unfolding(wal_record::specs::Reading::maybe_at))]
pub fn maybe_value_at(bytes: &[u8]) -> Result<(Option<Value>, &[u8]), FieldFault>
    ensures { Gives (λ x. (x.0, x.1.now)) result (maybe_value_at bytes.now) }
{
    match bytes {
        [0, rest @ ..] => Ok((None, rest)),
        [1, rest @ ..] => match value_at(rest) {
            Ok((value, rest)) => Ok((Some(value), rest)),
            Err(FieldFault::Memory) => Err(FieldFault::Memory),
            Err(FieldFault::Bad { .. }) => Err(FieldFault::Bad { left: bytes.len() }),
        },
        _ => Err(FieldFault::Bad { left: bytes.len() }),
    }
}

/// The new value of a write: it may be absent only where the old one is there.
#[tactic(auto, unfolding(wal_record::specs::Reading::new_value_at))]
pub fn new_value_at<'a>(
    old: &Option<Value>,
    bytes: &'a [u8],
) -> Result<(Option<Value>, &'a [u8]), FieldFault>
    ensures { Gives (λ x. (x.0, x.1.now)) result (new_value_at old.now bytes.now) }
{
    let (new, rest) = maybe_value_at(bytes)?;
    if old.is_none() && new.is_none() {
        return Err(FieldFault::Bad { left: bytes.len() });
    }
    Ok((new, rest))
}
