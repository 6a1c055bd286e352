//! Records as texts.
use std::alloc::Global;
use store_model::Lsn;

/// The kinds of records, the first of which has the number 1.
const KINDS: &str =
    "Format Write Apply Undo Commit End Split Adopt Grow Purge Written Checkpoint BackupDone RunDone Lost Restored";

/// The LSN of the n-th record other than the Checkpoint, whose LSN is given, 0 where there is none.
pub fn lsn_of(nth: u64, checkpoint: Lsn) -> Lsn {
    if checkpoint == 0 || nth < checkpoint {
        nth
    } else {
        nth.saturating_add(1)
    }
}

/// The number of a kind.
fn kind_of(word: &str) -> Option<u8> {
    let mut number = 0_u8;
    for kind in KINDS.split_whitespace() {
        number = number.saturating_add(1);
        if kind == word {
            return Some(number);
        }
    }
    None
}

/// Adds a number in so many bytes.
fn add_number(number: u64, width: usize, out: &mut Vec<u8>) -> Option<()> {
    let bytes = number.to_be_bytes();
    let from = 8_usize.checked_sub(width)?;
    out.extend_from_slice(bytes.get(from..)?).ok()
}

/// Adds what a word stands for: a kind; `4.7` for the number 7 in four bytes; `@3` for the LSN of the third record other
/// than the Checkpoint; or bytes in hexadecimal digits.
fn add_word(alloc: Global, word: &str, checkpoint: Lsn, out: &mut Vec<u8>) -> Option<()> {
    if let Some(kind) = kind_of(word) {
        return out.push(kind).ok();
    }
    if let Some((_, nth)) = word.split_once('@') {
        let nth = nth.parse::<u64>().ok()?;
        return add_number(lsn_of(nth, checkpoint), 8, out);
    }
    if let Some((width, number)) = word.split_once('.') {
        let number = number.parse::<u64>().ok()?;
        return add_number(number, width.parse::<usize>().ok()?, out);
    }
    out.extend_from_slice(&hex::decode(alloc, word).ok()?).ok()
}

/// Adds the bytes of a record.
pub(crate) fn add_record(
    alloc: Global,
    text: &str,
    checkpoint: Lsn,
    out: &mut Vec<u8>,
) -> Option<()> {
    for word in text.split_whitespace() {
        add_word(alloc, word, checkpoint, out)?;
    }
    Some(())
}
