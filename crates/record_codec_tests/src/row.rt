//! Rows of bytes, as the tables write them.
use record_codec::{RecordFault, decode, encode};
use std::alloc::Global;

/// The bytes of a row, and for each of them where its field begins.
#[derive(Drop)]
pub struct Row {
    pub bytes: Vec<u8>,
    pub starts: Vec<usize>,
}

/// Adds pairs of digits, as often as a number behind a star says.
fn add_part(alloc: Global, part: &str, out: &mut Vec<u8>) -> Option<()> {
    let (digits, times) = match part.split_once('*') {
        Some((digits, times)) => (digits, times.parse::<usize>().ok()?),
        None => (part, 1),
    };
    let bytes = hex::decode(alloc, digits).ok()?;
    for _ in 0..times {
        out.extend_from_slice(&bytes).ok()?;
    }
    Some(())
}

fn field_of(alloc: Global, word: &str) -> Option<Vec<u8>> {
    let mut out = Vec::new(alloc);
    for part in word.split(',') {
        add_part(alloc, part, &mut out)?;
    }
    Some(out)
}

pub fn row_of(alloc: Global, text: &str) -> Option<Row> {
    let mut bytes = Vec::new(alloc);
    let mut starts = Vec::new(alloc);
    for word in text.split_whitespace() {
        let field = field_of(alloc, word)?;
        starts.resize(bytes.len() + field.len(), bytes.len()).ok()?;
        bytes.extend_from_slice(&field).ok()?;
    }
    Some(Row { bytes, starts })
}

/// Whether these bytes, with more behind them, are one record of this length, and are spelled so again.
pub fn is_spelled(alloc: Global, bytes: &[u8]) -> bool {
    let mut long = Vec::new(alloc);
    let mut out = Vec::new(alloc);
    if long.extend_from_slice(bytes).is_err() || long.push(7).is_err() {
        return false;
    }
    match decode(alloc, &long) {
        Ok((found, len)) => {
            encode(alloc, &found, &mut out).is_ok() && len == bytes.len() && out.as_slice() == bytes
        }
        Err(_) => false,
    }
}

/// The byte at which these bytes are no record.
pub fn fault_at(alloc: Global, bytes: &[u8]) -> Option<usize> {
    match decode(alloc, bytes) {
        Err(RecordFault::Bad { byte }) => Some(byte),
        _ => None,
    }
}
