//! Bytes, records and states, as the tables write them.
ghost use Rattle.std.specs.Prelude.{IfSome};
ghost use Rattle.wal_record.specs.Rules.{HasSpelling};
ghost use Rattle.wal_record.specs.State.{KeepsState};

use record_codec::decode;
use state_codec::state_at;
use std::alloc::Global;
use wal_record::{PageState, Record};

/// Adds pairs of digits, as often as a number behind a star says.
fn add_word(alloc: Global, word: &str, out: &mut Vec<u8>) -> Option<()> {
    let (digits, times) = match word.split_once('*') {
        Some((digits, times)) => (digits, times.parse::<usize>().ok()?),
        None => (word, 1),
    };
    let bytes = hex::decode(alloc, digits).ok()?;
    for _ in 0..times {
        out.extend_from_slice(&bytes).ok()?;
    }
    Some(())
}

pub fn bytes_of(alloc: Global, text: &str) -> Option<Vec<u8>> {
    let mut out = Vec::new(alloc);
    for word in text.split_whitespace() {
        add_word(alloc, word, &mut out)?;
    }
    Some(out)
}

/// The one record that these bytes spell, the first of them in the head.
pub fn record_of(alloc: Global, head: &str, fields: &str) -> Option<Record>
    ensures { IfSome result HasSpelling }
{
    let mut bytes = bytes_of(alloc, head)?;
    let behind = bytes_of(alloc, fields)?;
    bytes.extend_from_slice(&behind).ok()?;
    match decode(alloc, &bytes) {
        Ok((found, len)) if len == bytes.len() => Some(found),
        _ => None,
    }
}

/// The one state that these bytes spell.
fn state_in(alloc: Global, bytes: &[u8]) -> Option<PageState>
    ensures { IfSome result KeepsState }
{
    match state_at(alloc, bytes) {
        Ok((found, [])) => Some(found),
        _ => None,
    }
}

pub fn state_of(alloc: Global, text: &str) -> Option<PageState>
    ensures { IfSome result KeepsState }
{
    let bytes = bytes_of(alloc, text)?;
    state_in(alloc, &bytes)
}

/// The image of a page; `none` stands for none.
pub fn image_of(alloc: Global, text: &str) -> Option<Option<PageState>>
    ensures { IfSome result (λ image. IfSome image KeepsState) }
{
    if text == "none" {
        return Some(None);
    }
    let state = state_of(alloc, text)?;
    Some(Some(state))
}
