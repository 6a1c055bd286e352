//! The lists of records, behind what stands before them in a line.
use field_line::Line;
use std::alloc::AllocError;
use wal_record::{OpenWrite, PageHead, PageLsn, Run, Unfinished};

pub fn put_heads(line: &mut Line, pages: &[PageHead]) -> Result<(), AllocError> {
    line.number("pages", pages.len() as u64)?;
    for page in pages {
        line.numbers(&[
            ("head", page.head),
            ("written", page.written),
            ("backup", page.backup),
            ("backup_lsn", page.backup_lsn),
        ])?;
    }
    Ok(())
}

pub fn put_transactions(line: &mut Line, transactions: &[Unfinished]) -> Result<(), AllocError> {
    line.number("transactions", transactions.len() as u64)?;
    for transaction in transactions {
        put_transaction(line, transaction)?;
    }
    Ok(())
}

fn put_transaction(line: &mut Line, transaction: &Unfinished) -> Result<(), AllocError> {
    line.numbers(&[
        ("tx", transaction.tx),
        ("last", transaction.last),
        ("undo_next", transaction.undo_next),
    ])?;
    put_writes(line, transaction.writes.as_slice())
}

fn put_writes(line: &mut Line, writes: &[OpenWrite]) -> Result<(), AllocError> {
    line.number("writes", writes.len() as u64)?;
    for write in writes {
        line.number("lsn", write.lsn)?;
        line.text("key", write.key.as_bytes())?;
    }
    Ok(())
}

pub fn put_segments(line: &mut Line, segments: &[u32]) -> Result<(), AllocError> {
    line.number("unrestored", segments.len() as u64)?;
    for segment in segments {
        line.number("segment", u64::from(*segment))?;
    }
    Ok(())
}

pub fn put_runs(line: &mut Line, runs: &[Run]) -> Result<(), AllocError> {
    line.number("runs", runs.len() as u64)?;
    for run in runs {
        line.numbers(&[("run", run.run), ("first", run.first), ("last", run.last)])?;
    }
    Ok(())
}

pub fn put_images(line: &mut Line, pages: &[PageLsn]) -> Result<(), AllocError> {
    line.number("pages", pages.len() as u64)?;
    for page in pages {
        line.numbers(&[("page", u64::from(page.page)), ("lsn", page.lsn)])?;
    }
    Ok(())
}
