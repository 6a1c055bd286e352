//! An analysis as numbers, and the numbers that a text tells.
use log_text::lsn_of;
use std::alloc::Global;
use store_model::{Key, Lsn};
use wal_record::{Analysis, Loser, PageHead, Run};

/// The letter that a key is.
fn letter_of(key: &Key) -> u64 {
    match key.as_bytes().first() {
        Some(letter) => u64::from(*letter),
        None => 0,
    }
}

fn add(numbers: &[u64], out: &mut Vec<u64>) -> Option<()> {
    out.extend_from_slice(numbers).ok()
}

/// Its numbers, and a key and an LSN for each open write.
fn add_loser(loser: &Loser, out: &mut Vec<u64>) -> Option<()> {
    let lsns = loser.lsns.as_slice();
    add(
        &[loser.tx, loser.last, loser.undo_next, lsns.len() as u64],
        out,
    )?;
    let mut place = 0;
    for key in loser.keys.as_slice() {
        add(&[letter_of(key), *lsns.get(place)?], out)?;
        place += 1;
    }
    Some(())
}

fn add_losers(losers: &[Loser], out: &mut Vec<u64>) -> Option<()> {
    add(&[losers.len() as u64], out)?;
    for loser in losers {
        add_loser(loser, out)?;
    }
    Some(())
}

fn add_heads(heads: &[PageHead], out: &mut Vec<u64>) -> Option<()> {
    add(&[heads.len() as u64], out)?;
    for head in heads {
        add(
            &[head.head, head.written, head.backup, head.backup_lsn],
            out,
        )?;
    }
    Some(())
}

fn add_segments(segments: &[u32], out: &mut Vec<u64>) -> Option<()> {
    add(&[segments.len() as u64], out)?;
    for segment in segments {
        add(&[u64::from(*segment)], out)?;
    }
    Some(())
}

fn add_runs(runs: &[Run], out: &mut Vec<u64>) -> Option<()> {
    add(&[runs.len() as u64], out)?;
    for run in runs {
        add(&[run.run, run.first, run.last], out)?;
    }
    Some(())
}

/// All that an analysis says, each list behind its length.
pub fn numbers_of(alloc: Global, found: &Analysis) -> Option<Vec<u64>> {
    let mut out = Vec::new(alloc);
    add_losers(found.losers.as_slice(), &mut out)?;
    add_heads(found.heads.as_slice(), &mut out)?;
    add(&[u64::from(found.lost)], &mut out)?;
    add_segments(found.unrestored.as_slice(), &mut out)?;
    add_runs(found.runs.as_slice(), &mut out)?;
    let next = [found.next_tx, found.next_backup, found.next_run];
    add(&[found.commits], &mut out)?;
    add(&next, &mut out)?;
    add(&[u64::from(found.limit)], &mut out)?;
    Some(out)
}

/// What a word of a text tells: `@3` the LSN of the third record other than the Checkpoint, a single letter itself as a
/// key, digits a number, and any other word nothing.
fn number_of(word: &str, checkpoint: Lsn) -> Option<u64> {
    if let Some((_, nth)) = word.split_once('@') {
        return Some(lsn_of(nth.parse::<u64>().ok()?, checkpoint));
    }
    if let Ok(number) = word.parse::<u64>() {
        return Some(number);
    }
    match word.as_bytes() {
        [letter] => Some(u64::from(*letter)),
        _ => None,
    }
}

/// The numbers of a text.
pub fn numbers_in(alloc: Global, text: &str, checkpoint: Lsn) -> Option<Vec<u64>> {
    let mut out = Vec::new(alloc);
    for word in text.split_whitespace() {
        if let Some(number) = number_of(word, checkpoint) {
            out.push(number).ok()?;
        }
    }
    Some(out)
}
