//! What requests answer, as text.
use engine::Answered;
use page_ops::Committed;
use std::alloc::Global;
use std::str;
use store_model::{Fault, KeyRange, Memory, Pair, Pos, Reply, TxId, Value};

/// These bytes, if they are text.
fn text_of(bytes: &[u8]) -> &str {
    str::from_utf8(bytes).unwrap_or("?")
}

/// A value of 256 bytes is V.
fn value_text(value: &Value) -> &str {
    let bytes = value.as_bytes();
    if bytes.len() == 256 {
        "V"
    } else {
        text_of(bytes)
    }
}

fn shown(alloc: Global, value: &Option<Value>) -> Result<String, Memory> {
    Ok(match value {
        Some(value) => {
            let text = value_text(value);
            format!(in alloc; "= {text}")?
        }
        None => format!(in alloc; "none")?,
    })
}

/// How many pairs there are, and each of them.
fn pairs_text(alloc: Global, pairs: &[Pair]) -> Result<String, Memory> {
    let count = pairs.len();
    let mut out = format!(in alloc; "pairs={count}")?;
    for pair in pairs {
        let (key, value) = (text_of(pair.key.as_bytes()), value_text(&pair.value));
        let text = format!(in alloc; " {key}={value}")?;
        out.push_str(text.as_str())?;
    }
    Ok(out)
}

fn reply_text(alloc: Global, reply: &Reply) -> Result<String, Memory> {
    match reply {
        Reply::Was(value) => {
            let text = shown(alloc, value)?;
            Ok(format!(in alloc; "was {text}")?)
        }
        Reply::Found(value) => shown(alloc, value),
        Reply::Pairs(pairs) => pairs_text(alloc, pairs.as_slice()),
    }
}

fn range_text(alloc: Global, range: &KeyRange) -> Result<String, Memory> {
    let low = text_of(range.low().text());
    Ok(match range.high().as_bytes() {
        Some(bytes) => {
            let high = text_of(bytes);
            format!(in alloc; "{low}..{high}")?
        }
        None => format!(in alloc; "{low}..")?,
    })
}

/// The refusals that are answers.
fn fault_text(alloc: Global, fault: Fault) -> Result<String, Fault> {
    Ok(match fault {
        Fault::Conflict { holder, range, at } => {
            let range = range_text(alloc, &range)?;
            format!(in alloc; "conflict {holder} {range} at {at}")?
        }
        Fault::Full { pages, pending, at } => format!(in alloc; "full {pages} {pending} at {at}")?,
        Fault::OpRefused { at } => format!(in alloc; "refused at {at}")?,
        Fault::TooManyActive => format!(in alloc; "refused")?,
        Fault::NotActive => format!(in alloc; "not active")?,
        other => return Err(other),
    })
}

/// The reply and where it stands, or the refusal.
pub(crate) fn answer_text(
    alloc: Global,
    answered: Result<Answered, Fault>,
) -> Result<String, Fault> {
    match answered {
        Ok(Answered { pos, reply }) => {
            let text = reply_text(alloc, &reply)?;
            Ok(format!(in alloc; "{text} at {pos}")?)
        }
        Err(fault) => fault_text(alloc, fault),
    }
}

/// The number of what began, or the refusal.
pub(crate) fn begun_text(alloc: Global, begun: Result<TxId, Fault>) -> Result<String, Fault> {
    match begun {
        Ok(tx) => Ok(format!(in alloc; "{tx}")?),
        Err(fault) => fault_text(alloc, fault),
    }
}

/// The number of the commit and where it was acknowledged, or the refusal.
pub(crate) fn committed_text(
    alloc: Global,
    committed: Result<Committed, Fault>,
) -> Result<String, Fault> {
    match committed {
        Ok(Committed { pos, number }) => Ok(format!(in alloc; "{number} at {pos}")?),
        Err(fault) => fault_text(alloc, fault),
    }
}

/// Where the end stands, or the refusal, which may be that it lacks memory.
pub(crate) fn aborted_text(alloc: Global, aborted: Result<Pos, Fault>) -> Result<String, Fault> {
    match aborted {
        Ok(pos) => Ok(format!(in alloc; "at {pos}")?),
        Err(Fault::Memory) => Ok(format!(in alloc; "lacks memory")?),
        Err(fault) => fault_text(alloc, fault),
    }
}
