//! Blocks as their payloads spell them, and the listings that they begin.
use crate::spelled::{add_word, text_of};
use log_analysis::{Named, take_block};
use log_index::Listing;
use std::alloc::Global;
use std::test::Fail;

fn bytes_of(alloc: Global, text: &str) -> Option<Vec<u8>> {
    let mut out = Vec::new(alloc);
    for word in text.split_whitespace() {
        add_word(alloc, word, &mut out)?;
    }
    Some(out)
}

/// The answer of a block with the number 7 and the first LSN 1, which is the last block.
fn answer(alloc: Global, checkpoint: &str, count: &str, payload: &str) -> Option<String> {
    let named = Named {
        checkpoint: checkpoint.parse::<u64>().ok()?,
        block: 7,
    };
    let payload = bytes_of(alloc, payload)?;
    let mut listing = Listing::new(alloc);
    let count = count.parse::<u16>().ok()?;
    match take_block(alloc, named, 7, 1, count, &payload, &mut listing) {
        Ok(()) => text_of(alloc, &listing),
        Err(fault) => format!(in alloc; "{fault:?}").ok(),
    }
}

/// A row is a name, the LSN that is named as the Checkpoint's, the count, the payload, and the answer.
const BLOCKS: &str = "\
no Checkpoint; 0; 2; 01 4.16384 02 8.1 8.0 4.1 8.1 0161 00 01000131; 2 2 16384 true false
a loser in the Checkpoint, and one behind it; 3; 4; 01 4.16384 02 8.1 8.0 4.1 8.1 0161 00 01000131 0c 8.2 8.0 4.16384 4.1 8.2 8.0 8.0 8.0 4.1 8.1 8.2 8.2 4.1 8.2 0161 4.0 4.0 2.0 8.1 8.1 02 8.2 8.0 4.1 8.2 0162 00 01000132; 4 4 16384 true true
other records before the Checkpoint; 3; 4; 01 4.8 05 8.7 8.0 0c 8.2 8.0 4.16384 4.1 8.2 8.0 8.0 8.0 4.1 8.1 8.2 8.2 4.1 8.2 0161 4.0 4.0 2.0 8.1 8.1 02 8.2 8.0 4.1 8.2 0162 00 01000132; 4 4 16384 true true
a loser that commits behind the Checkpoint; 3; 4; 01 4.16384 02 8.1 8.0 4.1 8.1 0161 00 01000131 0c 8.2 8.0 4.16384 4.1 8.2 8.0 8.0 8.0 4.1 8.1 8.2 8.2 4.1 8.2 0161 4.0 4.0 2.0 8.1 8.1 05 8.1 8.2; 4 2 16384 false false
a Format that is named as the Checkpoint; 1; 1; 01 4.16384; LogBad { block: 7, byte: 9 }
a Commit that is named as the Checkpoint; 2; 2; 01 4.16384 05 8.1 8.0; LogBad { block: 7, byte: 9 }
a surplus byte; 0; 1; 01 4.16384 00; LogBad { block: 7, byte: 28 }
a record less than counted; 0; 2; 01 4.16384; LogBad { block: 7, byte: 28 }
a cut record before the Checkpoint; 2; 2; 05 8.1 4.0; LogBad { block: 7, byte: 32 }
";

fn has_answer(alloc: Global, row: &str) -> Option<bool> {
    let (checkpoint, row) = row.split_once("; ")?;
    let (count, row) = row.split_once("; ")?;
    let (payload, wanted) = row.split_once("; ")?;
    let found = answer(alloc, checkpoint, count, payload)?;
    Some(found.as_str() == wanted)
}

#[test]
fn blocks_are_taken(rt: HostRuntime) -> Result<(), Fail> {
    for row in BLOCKS.lines() {
        let Some((name, row)) = row.split_once("; ") else {
            return Err(Fail::new(row));
        };
        if has_answer(rt.alloc(), row) != Some(true) {
            return Err(Fail::new(name));
        }
    }
    Ok(())
}
