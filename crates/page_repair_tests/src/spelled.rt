//! Records and states as texts.
ghost use Rattle.std.specs.Prelude.{IfSome};
ghost use Rattle.wal_record.specs.Rules.{HasSpelling};
ghost use Rattle.wal_record.specs.State.{KeepsState};

use record_codec::decode;
use state_codec::state_at;
use std::alloc::Global;
use wal_record::{PageState, Record};

/// The kinds of records, the first of which has the number 1.
const KINDS: &str = "Format Write Apply Undo Commit End Split Adopt Grow Purge";

/// The number of a kind.
fn kind_of(word: &str) -> Option<u8> {
    let mut number = 0_u8;
    for kind in KINDS.split_whitespace() {
        number = number.saturating_add(1);
        if kind == word {
            return Some(number);
        }
    }
    None
}

/// Adds what a word stands for: a kind; `4.7` for the number 7 in four bytes; or bytes in hexadecimal digits.
fn add_word(alloc: Global, word: &str, out: &mut Vec<u8>) -> Option<()> {
    if let Some(kind) = kind_of(word) {
        return out.push(kind).ok();
    }
    match word.split_once('.') {
        None => out.extend_from_slice(&hex::decode(alloc, word).ok()?).ok(),
        Some((width, number)) => {
            let bytes = number.parse::<u64>().ok()?.to_be_bytes();
            let from = 8_usize.checked_sub(width.parse::<usize>().ok()?)?;
            out.extend_from_slice(bytes.get(from..)?).ok()
        }
    }
}

pub fn bytes_of(alloc: Global, text: &str) -> Option<Vec<u8>> {
    let mut out = Vec::new(alloc);
    for word in text.split_whitespace() {
        add_word(alloc, word, &mut out)?;
    }
    Some(out)
}

/// The one state that these bytes spell.
fn state_in(alloc: Global, bytes: &[u8]) -> Option<PageState>
    ensures { IfSome result KeepsState }
{
    match state_at(alloc, bytes) {
        Ok((found, [])) => Some(found),
        _ => None,
    }
}

pub fn state_of(alloc: Global, text: &str) -> Option<PageState>
    ensures { IfSome result KeepsState }
{
    let bytes = bytes_of(alloc, text)?;
    state_in(alloc, &bytes)
}

/// The record that these bytes spell.
pub fn record_of(alloc: Global, bytes: &[u8]) -> Option<Record>
    ensures { IfSome result HasSpelling }
{
    match decode(alloc, bytes) {
        Ok((found, _)) => Some(found),
        Err(_) => None,
    }
}
