//! Requests in a line, by the number of their words.
ghost use Rattle.std.specs.Prelude.{◌≡◌, IfOk, Some};
ghost use Rattle.script.specs.Line.{request_of_one, request_of_two, request_of_three, apply_of};

use crate::field::{argument, key, operator, range, value};
use std::alloc::{AllocError, Global};
use store_model::Request;

/// `get KEY` or `del KEY`.
pub fn request_of_one(
    alloc: Global,
    word: &[u8],
    first: &[u8],
) -> Result<Option<Request>, AllocError>
    ensures { IfOk result (λ r. r ≡ request_of_one word.now first.now) }
{
    if word == b"get".as_slice() {
        return Ok(key(alloc, first)?.map(|key| Request::Get(key)));
    }
    if word == b"del".as_slice() {
        return Ok(key(alloc, first)?.map(|key| Request::Del(key)));
    }
    Ok(None)
}

/// `put KEY VALUE` or `scan LOW HIGH`.
pub fn request_of_two(
    alloc: Global,
    word: &[u8],
    first: &[u8],
    second: &[u8],
) -> Result<Option<Request>, AllocError>
    ensures { IfOk result (λ r. r ≡ request_of_two word.now first.now second.now) }
{
    if word == b"put".as_slice() {
        let Some(key) = key(alloc, first)? else {
            return Ok(None);
        };
        return match value(alloc, second)? {
            None => Ok(None),
            Some(value) => Ok(Some(Request::Put(key, value))),
        };
    }
    if word == b"scan".as_slice() {
        return Ok(range(alloc, first, second)?.map(|range| Request::Scan(range)));
    }
    Ok(None)
}

fn apply(
    alloc: Global,
    operator: u8,
    first: &[u8],
    second: &[u8],
) -> Result<Option<Request>, AllocError>
    ensures { IfOk result (λ r. r ≡ apply_of (Some operator) first.now second.now) }
{
    let Some(key) = key(alloc, first)? else {
        return Ok(None);
    };
    match argument(alloc, second)? {
        None => Ok(None),
        Some(argument) => Ok(Some(Request::Apply {
            operator,
            key,
            argument,
        })),
    }
}

/// `op OP KEY ARG`.
pub fn request_of_three(
    alloc: Global,
    word: &[u8],
    first: &[u8],
    second: &[u8],
    third: &[u8],
) -> Result<Option<Request>, AllocError>
    ensures { IfOk result (λ r. r ≡ request_of_three word.now first.now second.now third.now) }
{
    if word == b"op".as_slice() {
        return match operator(first) {
            None => Ok(None),
            Some(operator) => apply(alloc, operator, second, third),
        };
    }
    Ok(None)
}
