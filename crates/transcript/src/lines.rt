//! The lines of single words, one function each.
ghost use Rattle.std.specs.Prelude.{◌≡◌, ◌++◌, IfOk, codes};
ghost use Rattle.std.specs.Fmt.{decimal};
ghost use Rattle.transcript.specs.Lines.{device_text, refused_line, failed_line, ended_line};
ghost use Rattle.transcript.specs.Printing.{escaped, shown};

use crate::endings::{add_device, ended_line, failed_line, full_line, refused_line};
use crate::pieces::{add, add_number, add_shown, begun, keyed, named};
use script::{Device, Name};
use std::alloc::{AllocError, Global};
use store_model::{Key, Lsn, PageNo, Value};

/// `format ok`.
pub fn format_line(alloc: Global) -> Result<Vec<u8>, AllocError>
    ensures { IfOk result (λ out. out.items ≡ codes "format ok\n") }
{
    begun(alloc, b"format ok\n".as_slice())
}

/// `format log failed`.
pub fn format_failed(alloc: Global) -> Result<Vec<u8>, AllocError>
    ensures { IfOk result (λ out. out.items ≡ codes "format log failed\n") }
{
    begun(alloc, b"format log failed\n".as_slice())
}

/// `open commits=C losers=L`.
pub fn open_line(alloc: Global, commits: u64, losers: u64) -> Result<Vec<u8>, AllocError>
    ensures { IfOk result (λ out. out.items ≡ codes "open commits=" ++ decimal commits ++ codes " losers=" ++ decimal losers ++ codes "\n") }
{
    let mut out = begun(alloc, b"open commits=".as_slice())?;
    add_number(&mut out, commits)?;
    add(&mut out, b" losers=".as_slice())?;
    add_number(&mut out, losers)?;
    add(&mut out, b"\n".as_slice())?;
    Ok(out)
}

/// `open log failed`.
pub fn open_failed(alloc: Global) -> Result<Vec<u8>, AllocError>
    ensures { IfOk result (λ out. out.items ≡ codes "open log failed\n") }
{
    begun(alloc, b"open log failed\n".as_slice())
}

/// `stop`.
pub fn stop_line(alloc: Global) -> Result<Vec<u8>, AllocError>
    ensures { IfOk result (λ out. out.items ≡ codes "stop\n") }
{
    begun(alloc, b"stop\n".as_slice())
}

/// `fuse log N`, and so of each device.
pub fn fuse_line(alloc: Global, device: Device, calls: u64) -> Result<Vec<u8>, AllocError>
    ensures { IfOk result (λ out. out.items ≡ codes "fuse " ++ device_text device ++ codes " " ++ decimal calls ++ codes "\n") }
{
    let mut out = begun(alloc, b"fuse ".as_slice())?;
    add_device(&mut out, device)?;
    add(&mut out, b" ".as_slice())?;
    add_number(&mut out, calls)?;
    add(&mut out, b"\n".as_slice())?;
    Ok(out)
}

/// `renew log`, and so of each device.
pub fn renew_line(alloc: Global, device: Device) -> Result<Vec<u8>, AllocError>
    ensures { IfOk result (λ out. out.items ≡ codes "renew " ++ device_text device ++ codes "\n") }
{
    let mut out = begun(alloc, b"renew ".as_slice())?;
    add_device(&mut out, device)?;
    add(&mut out, b"\n".as_slice())?;
    Ok(out)
}

/// `damage P`.
pub fn damage_line(alloc: Global, page: PageNo) -> Result<Vec<u8>, AllocError>
    ensures { IfOk result (λ out. out.items ≡ codes "damage " ++ decimal page ++ codes "\n") }
{
    let mut out = begun(alloc, b"damage ".as_slice())?;
    add_number(&mut out, u64::from(page))?;
    add(&mut out, b"\n".as_slice())?;
    Ok(out)
}

/// `T begin`.
pub fn begin_line(alloc: Global, name: &Name) -> Result<Vec<u8>, AllocError>
    ensures { IfOk result (λ out. out.items ≡ name.now ++ codes " begin\n") }
{
    named(alloc, name, b" begin\n".as_slice())
}

/// `T begin refused`: there are as many transactions as there may be.
pub fn begin_refused(alloc: Global, name: &Name) -> Result<Vec<u8>, AllocError>
    ensures { IfOk result (λ out. out.items ≡ refused_line (name.now ++ codes " begin")) }
{
    refused_line(named(alloc, name, b" begin".as_slice())?)
}

/// `T begin ended N`.
pub fn begin_ended(alloc: Global, name: &Name, at: Lsn) -> Result<Vec<u8>, AllocError>
    ensures { IfOk result (λ out. out.items ≡ name.now ++ codes " begin" ++ codes " ended " ++ decimal at ++ codes "\n") }
{
    ended_line(named(alloc, name, b" begin".as_slice())?, at)
}

/// `T get k`.
fn get_head(alloc: Global, name: &Name, key: &Key) -> Result<Vec<u8>, AllocError>
    ensures { IfOk result (λ out. out.items ≡ name.now ++ codes " get " ++ escaped key.now) }
{
    keyed(alloc, name, b" get ".as_slice(), key)
}

/// `T get k = v` or `T get k none`.
pub fn get_line(
    alloc: Global,
    name: &Name,
    key: &Key,
    found: &Option<Value>,
) -> Result<Vec<u8>, AllocError>
    ensures { IfOk result (λ out. out.items ≡ name.now ++ codes " get " ++ escaped key.now ++ shown found.now ++ codes "\n") }
{
    let mut out = get_head(alloc, name, key)?;
    add_shown(&mut out, found)?;
    add(&mut out, b"\n".as_slice())?;
    Ok(out)
}

/// `T get k ended N`.
pub fn get_ended(alloc: Global, name: &Name, key: &Key, at: Lsn) -> Result<Vec<u8>, AllocError>
    ensures { IfOk result (λ out. out.items ≡ name.now ++ codes " get " ++ escaped key.now ++ codes " ended " ++ decimal at ++ codes "\n") }
{
    ended_line(get_head(alloc, name, key)?, at)
}

/// `T put k`.
fn put_head(alloc: Global, name: &Name, key: &Key) -> Result<Vec<u8>, AllocError>
    ensures { IfOk result (λ out. out.items ≡ name.now ++ codes " put " ++ escaped key.now) }
{
    keyed(alloc, name, b" put ".as_slice(), key)
}

/// `T put k was = v` or `T put k was none`, with the old value.
pub fn put_line(
    alloc: Global,
    name: &Name,
    key: &Key,
    old: &Option<Value>,
) -> Result<Vec<u8>, AllocError>
    ensures { IfOk result (λ out. out.items ≡ name.now ++ codes " put " ++ escaped key.now ++ (codes " was" ++ shown old.now) ++ codes "\n") }
{
    let mut out = put_head(alloc, name, key)?;
    add(&mut out, b" was".as_slice())?;
    add_shown(&mut out, old)?;
    add(&mut out, b"\n".as_slice())?;
    Ok(out)
}

/// `T put k full PAGES PENDING`.
pub fn put_full(
    alloc: Global,
    name: &Name,
    key: &Key,
    pages: u64,
    pending: u64,
) -> Result<Vec<u8>, AllocError>
    ensures { IfOk result (λ out. out.items ≡ name.now ++ codes " put " ++ escaped key.now ++ (codes " full " ++ decimal pages ++ codes " " ++ decimal pending) ++ codes "\n") }
{
    full_line(put_head(alloc, name, key)?, pages, pending)
}

/// `T put k ended N`.
pub fn put_ended(alloc: Global, name: &Name, key: &Key, at: Lsn) -> Result<Vec<u8>, AllocError>
    ensures { IfOk result (λ out. out.items ≡ name.now ++ codes " put " ++ escaped key.now ++ codes " ended " ++ decimal at ++ codes "\n") }
{
    ended_line(put_head(alloc, name, key)?, at)
}

/// `T commit N`.
pub fn commit_line(alloc: Global, name: &Name, number: u64) -> Result<Vec<u8>, AllocError>
    ensures { IfOk result (λ out. out.items ≡ name.now ++ codes " commit " ++ decimal number ++ codes "\n") }
{
    let mut out = named(alloc, name, b" commit ".as_slice())?;
    add_number(&mut out, number)?;
    add(&mut out, b"\n".as_slice())?;
    Ok(out)
}

/// `T commit log failed`.
pub fn commit_failed(alloc: Global, name: &Name) -> Result<Vec<u8>, AllocError>
    ensures { IfOk result (λ out. out.items ≡ name.now ++ codes " commit" ++ codes " log failed\n") }
{
    failed_line(named(alloc, name, b" commit".as_slice())?, Device::Log)
}

/// `T commit ended N`.
pub fn commit_ended(alloc: Global, name: &Name, at: Lsn) -> Result<Vec<u8>, AllocError>
    ensures { IfOk result (λ out. out.items ≡ name.now ++ codes " commit" ++ codes " ended " ++ decimal at ++ codes "\n") }
{
    ended_line(named(alloc, name, b" commit".as_slice())?, at)
}

/// `T abort`.
pub fn abort_line(alloc: Global, name: &Name) -> Result<Vec<u8>, AllocError>
    ensures { IfOk result (λ out. out.items ≡ name.now ++ codes " abort\n") }
{
    named(alloc, name, b" abort\n".as_slice())
}

/// `T abort log failed`, and so of each device.
pub fn abort_failed(alloc: Global, name: &Name, device: Device) -> Result<Vec<u8>, AllocError>
    ensures { IfOk result (λ out. out.items ≡ failed_line (name.now ++ codes " abort") device) }
{
    failed_line(named(alloc, name, b" abort".as_slice())?, device)
}

/// `T abort ended N`.
pub fn abort_ended(alloc: Global, name: &Name, at: Lsn) -> Result<Vec<u8>, AllocError>
    ensures { IfOk result (λ out. out.items ≡ ended_line (name.now ++ codes " abort") at) }
{
    ended_line(named(alloc, name, b" abort".as_slice())?, at)
}
