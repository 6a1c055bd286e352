//! Entries as texts. A record is told as `inspect` lists it.
use crate::fields::{argument, key, mode, number, operator, range, small, value, word_at};
use crate::records::record_of;
use std::alloc::Global;
use store_model::{Outcome, Reply, Request, Value};
use wal_record::{Entry, Record};

/// The request of a put, a del, an operator or a get.
fn request_of(line: &str) -> Option<Request> {
    let key = key(line)?;
    match word_at(line, 0) {
        "put" => Some(Request::Put(key, value(line, "new").unwrap_or(Value::empty()))),
        "del" => Some(Request::Del(key)),
        "apply" => Some(Request::Apply {
            operator: operator(line)?,
            key,
            argument: argument(line)?,
        }),
        "get" => Some(Request::Get(key)),
        _ => None,
    }
}

fn reply_of(line: &str) -> Reply {
    match word_at(line, 0) {
        "get" => Reply::Found(value(line, "found")),
        _ => Reply::Was(value(line, "was")),
    }
}

/// What the session is told of its transaction's request: the answer, or that there is no room beside so many pages and
/// pending writes.
fn told(line: &str) -> Option<Entry> {
    let (session, tx) = (small(line, "session")?, number(line, "tx")?);
    let request = request_of(line)?;
    if let (Some(pages), Some(pending)) = (small(line, "pages"), small(line, "pending")) {
        return Some(Entry::Declined {
            session,
            tx,
            request,
            why: Outcome::Full { pages, pending },
        });
    }
    Some(Entry::Said {
        session,
        tx,
        request,
        reply: reply_of(line),
    })
}

fn recorded(alloc: Global, line: &str) -> Option<Entry> {
    let lsn = word_at(line, 1).parse::<u64>().ok()?;
    Some(Entry::Rec {
        lsn,
        rec: record_of(alloc, line)?,
    })
}

fn locked(line: &str) -> Option<Entry> {
    let (tx, mode) = (number(line, "tx")?, mode(line));
    let range = range(line)?;
    match number(line, "holder") {
        Some(holder) => Some(Entry::Refused {
            tx,
            range,
            mode,
            holder,
        }),
        None => Some(Entry::Lock { tx, range, mode }),
    }
}

/// The entry of a line.
pub fn entry_of(alloc: Global, line: &str) -> Option<Entry> {
    match word_at(line, 0) {
        "record" => recorded(alloc, line),
        "lock" | "refused" => locked(line),
        "began" => Some(Entry::Began {
            session: small(line, "session")?,
            tx: number(line, "tx")?,
        }),
        "acked" => Some(Entry::Acked {
            session: small(line, "session")?,
            tx: number(line, "tx")?,
        }),
        "repaired" => Some(Entry::Repaired {
            page: small(line, "page")?,
        }),
        _ => told(line),
    }
}

/// The records of these lines.
pub fn log_of(alloc: Global, lines: &str) -> Option<Vec<Record>> {
    let mut log = Vec::new(alloc);
    for line in lines.lines() {
        log.push(record_of(alloc, line)?).ok()?;
    }
    Some(log)
}
