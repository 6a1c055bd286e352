//! The lines of requests, whatever is asked and answered.
ghost use Rattle.std.specs.Prelude.{◌≡◌, ◌++◌, IfOk, OnOk, codes};
ghost use Rattle.std.specs.List.{flat_map};
ghost use Rattle.transcript.specs.Lines.{operator_text, bound_token, request_head, reply_text, row, with_rows, request_lines};
ghost use Rattle.transcript.specs.Lines.{conflict_line, full_line, refused_line, failed_line, ended_line};
ghost use Rattle.transcript.specs.Printing.{escaped};

use crate::endings::{conflict_line, ended_line, failed_line, full_line, refused_line};
use crate::pieces::{ROOM, add, add_escaped, add_number, add_shown, keyed, named};
use script::{Device, Name};
use std::alloc::{AllocError, Global};
use store_model::{Key, KeyRange, Lsn, Pair, Reply, Request};

/// `T scan l h`.
fn scan_head(alloc: Global, name: &Name, range: &KeyRange) -> Result<Vec<u8>, AllocError>
    ensures { IfOk result (λ out. out.items ≡ name.now ++ codes " scan " ++ bound_token range.now.low ++ codes " " ++ bound_token range.now.high) }
{
    let mut out = named(alloc, name, b" scan ".as_slice())?;
    add_escaped(&mut out, range.low().text())?;
    add(&mut out, b" ".as_slice())?;
    add_escaped(&mut out, range.high().text())?;
    Ok(out)
}

fn add_operator(out: &mut Vec<u8>, operator: u8) -> Result<(), AllocError>
    ensures { OnOk result (out.new.items ≡ out.old.items ++ operator_text operator) }
{
    match operator {
        1 => add(out, b"add".as_slice()),
        2 => add(out, b"max".as_slice()),
        3 => add(out, b"join".as_slice()),
        _ => add_number(out, u64::from(operator)),
    }
}

/// `T op OP k`.
fn op_head(alloc: Global, name: &Name, operator: u8, key: &Key) -> Result<Vec<u8>, AllocError>
    ensures { IfOk result (λ out. out.items ≡ name.now ++ codes " op " ++ operator_text operator ++ codes " " ++ escaped key.now) }
{
    let mut out = named(alloc, name, b" op ".as_slice())?;
    add_operator(&mut out, operator)?;
    add(&mut out, b" ".as_slice())?;
    add_escaped(&mut out, key.as_bytes())?;
    Ok(out)
}

/// A request's line up to its answer.
fn request_head(alloc: Global, name: &Name, request: &Request) -> Result<Vec<u8>, AllocError>
    ensures { IfOk result (λ out. out.items ≡ request_head name.now request.now) }
{
    match request {
        Request::Get(key) => keyed(alloc, name, b" get ".as_slice(), key),
        Request::Put(key, _) => keyed(alloc, name, b" put ".as_slice(), key),
        Request::Del(key) => keyed(alloc, name, b" del ".as_slice(), key),
        Request::Scan(range) => scan_head(alloc, name, range),
        Request::Apply { operator, key, .. } => op_head(alloc, name, *operator, key),
    }
}

fn add_reply(out: &mut Vec<u8>, reply: &Reply) -> Result<(), AllocError>
    ensures { OnOk result (out.new.items ≡ out.old.items ++ reply_text reply.now) }
{
    match reply {
        Reply::Found(found) => add_shown(out, found),
        Reply::Was(old) => {
            add(out, b" was".as_slice())?;
            add_shown(out, old)
        }
        Reply::Pairs(pairs) => {
            add(out, b" pairs=".as_slice())?;
            add_number(out, pairs.len() as u64)
        }
    }
}

/// `T row k = v`.
fn add_row(out: &mut Vec<u8>, name: &Name, pair: &Pair) -> Result<(), AllocError>
    ensures { OnOk result (out.new.items ≡ out.old.items ++ row name.now pair.now) }
{
    add(out, name.as_bytes())?;
    add(out, b" row ".as_slice())?;
    add_escaped(out, pair.key.as_bytes())?;
    add(out, b" = ".as_slice())?;
    add_escaped(out, pair.value.as_bytes())?;
    add(out, b"\n".as_slice())
}

fn add_pairs(out: &mut Vec<u8>, name: &Name, pairs: &[Pair]) -> Result<(), AllocError>
    ensures { OnOk result (out.new.items ≡ out.old.items ++ flat_map (row name.now) pairs.now) }
{
    out.reserve(pairs.len().saturating_mul(ROOM))?;
    for pair in pairs {
        add_row(out, name, pair)?;
    }
    Ok(())
}

fn add_rows(out: &mut Vec<u8>, name: &Name, reply: &Reply) -> Result<(), AllocError>
    ensures { OnOk result (out.new.items ≡ with_rows name.now reply.now out.old.items) }
{
    match reply {
        Reply::Found(_) => Ok(()),
        Reply::Was(_) => Ok(()),
        Reply::Pairs(pairs) => add_pairs(out, name, pairs.as_slice()),
    }
}

/// The lines of a request that was carried out: `T get k = v`, `T put k was = v`, `T del k was = v`, `T op OP k was = v`, where
/// `none` stands for no value; or `T scan l h pairs=N`, and behind it `T row k = v` for each pair.
pub fn request_lines(
    alloc: Global,
    name: &Name,
    request: &Request,
    reply: &Reply,
) -> Result<Vec<u8>, AllocError>
    ensures { IfOk result (λ out. out.items ≡ request_lines name.now request.now reply.now) }
{
    let mut out = request_head(alloc, name, request)?;
    add_reply(&mut out, reply)?;
    add(&mut out, b"\n".as_slice())?;
    add_rows(&mut out, name, reply)?;
    Ok(out)
}

/// The request's head and ` conflict T2`: the transaction of that name holds a conflicting lock.
pub fn request_conflict(
    alloc: Global,
    name: &Name,
    request: &Request,
    holder: &Name,
) -> Result<Vec<u8>, AllocError>
    ensures { IfOk result (λ out. out.items ≡ conflict_line (request_head name.now request.now) holder.now) }
{
    conflict_line(request_head(alloc, name, request)?, holder)
}

/// The request's head and ` full PAGES PENDING`: the pages there are, and the writes not yet undone.
pub fn request_full(
    alloc: Global,
    name: &Name,
    request: &Request,
    pages: u32,
    pending: u32,
) -> Result<Vec<u8>, AllocError>
    ensures { IfOk result (λ out. out.items ≡ full_line (request_head name.now request.now) pages pending) }
{
    full_line(
        request_head(alloc, name, request)?,
        u64::from(pages),
        u64::from(pending),
    )
}

/// The request's head and ` refused`: its operator gives no value here.
pub fn request_refused(alloc: Global, name: &Name, request: &Request) -> Result<Vec<u8>, AllocError>
    ensures { IfOk result (λ out. out.items ≡ refused_line (request_head name.now request.now)) }
{
    refused_line(request_head(alloc, name, request)?)
}

/// The request's head and ` log failed`, and so of each device.
pub fn request_failed(
    alloc: Global,
    name: &Name,
    request: &Request,
    device: Device,
) -> Result<Vec<u8>, AllocError>
    ensures { IfOk result (λ out. out.items ≡ failed_line (request_head name.now request.now) device) }
{
    failed_line(request_head(alloc, name, request)?, device)
}

/// The request's head and ` ended N`.
pub fn request_ended(
    alloc: Global,
    name: &Name,
    request: &Request,
    at: Lsn,
) -> Result<Vec<u8>, AllocError>
    ensures { IfOk result (λ out. out.items ≡ ended_line (request_head name.now request.now) at) }
{
    ended_line(request_head(alloc, name, request)?, at)
}
