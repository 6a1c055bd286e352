//! Fields of a line.
ghost use Rattle.std.specs.Prelude.{◌≡◌, ◌≤◌, IfOk, IfSome};
ghost use Rattle.script.specs.Line.{key_of, value_of, argument_of, key_text, at_most, bound_text, high_text, low_of, high_of, range_of, interval_of, number_from, operator_of, device_of};

use crate::command::Device;
use crate::token::{decode, is_itself};
use std::alloc::{AllocError, Global};
use store_model::{Bound, Key, KeyRange, OpValue, Value, number_in};

#[tactic(auto, using(crate::proofs::Options::is_some))]
fn key_text(text: &[u8]) -> Option<Key>
    ensures { result ≡ key_text text.now }
{
    if 1 <= text.len() && text.len() <= 64 {
        Key::new(text)
    } else {
        None
    }
}

#[tactic(auto, using(crate::proofs::Options::is_some))]
fn value_text(text: &[u8]) -> Option<Value>
    ensures { result ≡ at_most 256 text.now }
{
    if text.len() <= 256 {
        Value::new(text)
    } else {
        None
    }
}

#[tactic(auto, using(crate::proofs::Options::is_some))]
fn argument_text(text: &[u8]) -> Option<OpValue>
    ensures { result ≡ at_most 64 text.now }
{
    if text.len() <= 64 {
        OpValue::new(text)
    } else {
        None
    }
}

#[tactic(auto, using(crate::proofs::Options::is_bound))]
fn bound_text(text: &[u8]) -> Option<Bound>
    ensures { result ≡ bound_text text.now }
{
    if text.len() <= 64 {
        Bound::at(text)
    } else {
        None
    }
}

fn high_text(text: &[u8]) -> Option<Bound>
    ensures { result ≡ high_text text.now }
{
    match text {
        [] => Some(Bound::top()),
        _ => bound_text(text),
    }
}

/// A key's token.
#[tactic(auto, unfolding(crate::specs::Line::key_of))]
pub fn key(alloc: Global, token: &[u8]) -> Result<Option<Key>, AllocError>
    ensures { IfOk result (λ r. r ≡ key_of token.now) }
{
    if is_itself(token) {
        return Ok(key_text(token));
    }
    match decode(alloc, token)? {
        None => Ok(None),
        Some(text) => Ok(key_text(&text)),
    }
}

/// A value's token.
#[tactic(auto, unfolding(crate::specs::Line::value_of))]
pub fn value(alloc: Global, token: &[u8]) -> Result<Option<Value>, AllocError>
    ensures { IfOk result (λ r. r ≡ value_of token.now) }
{
    if is_itself(token) {
        return Ok(value_text(token));
    }
    match decode(alloc, token)? {
        None => Ok(None),
        Some(text) => Ok(value_text(&text)),
    }
}

/// The token of an operator's argument.
#[tactic(auto, unfolding(crate::specs::Line::argument_of))]
pub fn argument(alloc: Global, token: &[u8]) -> Result<Option<OpValue>, AllocError>
    ensures { IfOk result (λ r. r ≡ argument_of token.now) }
{
    if is_itself(token) {
        return Ok(argument_text(token));
    }
    match decode(alloc, token)? {
        None => Ok(None),
        Some(text) => Ok(argument_text(&text)),
    }
}

#[tactic(auto, unfolding(crate::specs::Line::low_of))]
fn low(alloc: Global, token: &[u8]) -> Result<Option<Bound>, AllocError>
    ensures { IfOk result (λ r. r ≡ low_of token.now) }
{
    if is_itself(token) {
        return Ok(bound_text(token));
    }
    match decode(alloc, token)? {
        None => Ok(None),
        Some(text) => Ok(bound_text(&text)),
    }
}

#[tactic(auto, unfolding(crate::specs::Line::high_of))]
fn high(alloc: Global, token: &[u8]) -> Result<Option<Bound>, AllocError>
    ensures { IfOk result (λ r. r ≡ high_of token.now) }
{
    if is_itself(token) {
        return Ok(high_text(token));
    }
    match decode(alloc, token)? {
        None => Ok(None),
        Some(text) => Ok(high_text(&text)),
    }
}

#[tactic(auto, using(crate::proofs::Options::is_range))]
fn between(low: Bound, high: Bound) -> Option<KeyRange>
    ensures { result ≡ interval_of low high }
{
    if low.is_below(&high) {
        KeyRange::new(low, high)
    } else {
        None
    }
}

/// The tokens of a range's two bounds.
pub fn range(alloc: Global, first: &[u8], second: &[u8]) -> Result<Option<KeyRange>, AllocError>
    ensures { IfOk result (λ r. r ≡ range_of first.now second.now) }
{
    let Some(low) = low(alloc, first)? else {
        return Ok(None);
    };
    match high(alloc, second)? {
        None => Ok(None),
        Some(high) => Ok(between(low, high)),
    }
}

/// A number from `least` to `most`.
pub fn number_from(least: u32, most: u32, text: &[u8]) -> Option<u32>
    ensures { result ≡ number_from least most text.now }
{
    match number_in(text) {
        None => None,
        Some(number) => {
            if u64::from(least) <= number && number <= u64::from(most) {
                Some(number as u32)
            } else {
                None
            }
        }
    }
}

/// The number of an operator's word.
pub fn operator(word: &[u8]) -> Option<u8>
    ensures { result ≡ operator_of word.now }
{
    if word == b"add".as_slice() {
        Some(1)
    } else if word == b"max".as_slice() {
        Some(2)
    } else if word == b"join".as_slice() {
        Some(3)
    } else {
        None
    }
}

/// The device of a word.
pub fn device(word: &[u8]) -> Option<Device>
    ensures { result ≡ device_of word.now }
{
    if word == b"log".as_slice() {
        Some(Device::Log)
    } else if word == b"data".as_slice() {
        Some(Device::Data)
    } else if word == b"vault".as_slice() {
        Some(Device::Vault)
    } else {
        None
    }
}
