//! What calls answer, as text.
use page_ops::{Committed, Entered, Grant};
use std::alloc::Global;
use std::str;
use store_model::{Fault, KeyRange, Lsn, Memory, TxId};

/// These bytes, if they are text.
fn text_of(bytes: &[u8]) -> &str {
    str::from_utf8(bytes).unwrap_or("?")
}

fn range_text(alloc: Global, range: &KeyRange) -> Result<String, Memory> {
    let low = text_of(range.low().text());
    Ok(match range.high().as_bytes() {
        Some(bytes) => {
            let high = text_of(bytes);
            format!(in alloc; "{low}..{high}")?
        }
        None => format!(in alloc; "{low}..")?,
    })
}

/// The refusals that are answers.
pub(crate) fn fault_text(alloc: Global, fault: Fault) -> Result<String, Fault> {
    Ok(match fault {
        Fault::Conflict { holder, range, .. } => {
            let range = range_text(alloc, &range)?;
            format!(in alloc; "conflict {holder} {range}")?
        }
        Fault::Full { pages, pending, .. } => format!(in alloc; "full {pages} {pending}")?,
        Fault::TooManyActive => format!(in alloc; "too many")?,
        Fault::LogFault => format!(in alloc; "log failed")?,
        Fault::Ended { at } => format!(in alloc; "ended {at}")?,
        other => return Err(other),
    })
}

/// The number of what began.
pub(crate) fn begun_text(alloc: Global, begun: Result<TxId, Fault>) -> Result<String, Fault> {
    match begun {
        Ok(tx) => Ok(format!(in alloc; "{tx}")?),
        Err(fault) => fault_text(alloc, fault),
    }
}

pub(crate) fn grant_text(alloc: Global, granted: Result<Grant, Fault>) -> Result<String, Fault> {
    match granted {
        Ok(Grant::Held(_)) => Ok(format!(in alloc; "held")?),
        Ok(Grant::Loser(tx)) => Ok(format!(in alloc; "loser {tx}")?),
        Err(fault) => fault_text(alloc, fault),
    }
}

/// The number of the commit.
pub(crate) fn committed_text(
    alloc: Global,
    committed: Result<Committed, Fault>,
) -> Result<String, Fault> {
    match committed {
        Ok(Committed { pos: _, number }) => Ok(format!(in alloc; "commit {number}")?),
        Err(fault) => fault_text(alloc, fault),
    }
}

/// The LSN of what was entered, or where the entry stands that came first.
pub(crate) fn entered_text(
    alloc: Global,
    entered: Result<Entered, Fault>,
    lsn: Lsn,
) -> Result<String, Fault> {
    match entered {
        Ok(Entered::At(_)) => Ok(format!(in alloc; "record {lsn}")?),
        Ok(Entered::Late(pos)) => Ok(format!(in alloc; "late {pos}")?),
        Ok(Entered::NoRoom) => Ok(format!(in alloc; "no room")?),
        Err(fault) => fault_text(alloc, fault),
    }
}

/// How many calls are answered as ended, and with which LSN.
pub(crate) fn ends_text(alloc: Global, count: u64, at: Lsn) -> Result<String, Fault> {
    Ok(format!(in alloc; "{count} calls ended {at}")?)
}
