//! What lines are made of.
ghost use Rattle.std.specs.Prelude.{◌≡◌, ◌++◌, ◌<◌, [], IfOk, OnOk, codes};
ghost use Rattle.std.specs.Fmt.{decimal};
ghost use Rattle.std.specs.List.{flat_map};
ghost use Rattle.transcript.specs.Printing.{escaped, escaped_byte, digit, shown};

use itoa::Buffer;
use script::{Name, all_plain, is_plain};
use std::alloc::{AllocError, Global};
use store_model::{Key, Value};

/// Room for the bytes of a line whose texts are short.
pub(crate) const ROOM: usize = 64;

/// A line without bytes yet. It has the room of most lines, so that they are never moved.
fn empty(alloc: Global) -> Result<Vec<u8>, AllocError>
    ensures { IfOk result (λ out. out.items ≡ []) }
{
    Vec::with_capacity(alloc, ROOM)
}

fn digit(number: u8) -> u8
    requires { number < 16 }
    ensures { result ≡ digit number }
{
    if number < 10 {
        48 + number
    } else {
        87 + number
    }
}

pub(crate) fn add(out: &mut Vec<u8>, text: &[u8]) -> Result<(), AllocError>
    ensures { OnOk result (out.new.items ≡ out.old.items ++ text.now) }
{
    out.extend_from_slice(text)?;
    Ok(())
}

fn add_byte(out: &mut Vec<u8>, byte: u8) -> Result<(), AllocError>
    ensures { OnOk result (out.new.items ≡ out.old.items ++ escaped_byte byte) }
{
    if is_plain(byte) {
        out.push(byte)?;
        Ok(())
    } else {
        add(out, [b'%', digit(byte / 16), digit(byte % 16)].as_slice())
    }
}

#[tactic(auto, using(crate::proofs::Plain::as_they_are))]
fn add_bytes(out: &mut Vec<u8>, text: &[u8]) -> Result<(), AllocError>
    ensures { OnOk result (out.new.items ≡ out.old.items ++ flat_map escaped_byte text.now) }
{
    if all_plain(text) {
        return add(out, text);
    }
    for byte in text {
        add_byte(out, *byte)?;
    }
    Ok(())
}

#[tactic(auto, unfolding(crate::specs::Printing::escaped))]
pub(crate) fn add_escaped(out: &mut Vec<u8>, text: &[u8]) -> Result<(), AllocError>
    ensures { OnOk result (out.new.items ≡ out.old.items ++ escaped text.now) }
{
    match text {
        [] => add(out, b"%".as_slice()),
        _ => add_bytes(out, text),
    }
}

pub(crate) fn add_shown(out: &mut Vec<u8>, value: &Option<Value>) -> Result<(), AllocError>
    ensures { OnOk result (out.new.items ≡ out.old.items ++ shown value.now) }
{
    match value {
        None => add(out, b" none".as_slice()),
        Some(value) => {
            add(out, b" = ".as_slice())?;
            add_escaped(out, value.as_bytes())
        }
    }
}

pub(crate) fn add_number(out: &mut Vec<u8>, number: u64) -> Result<(), AllocError>
    ensures { OnOk result (out.new.items ≡ out.old.items ++ decimal number) }
{
    let mut buffer = Buffer::new();
    add(out, buffer.format(number).as_bytes())
}

/// A line that begins with this text.
pub(crate) fn begun(alloc: Global, text: &[u8]) -> Result<Vec<u8>, AllocError>
    ensures { IfOk result (λ out. out.items ≡ text.now) }
{
    let mut out = empty(alloc)?;
    add(&mut out, text)?;
    Ok(out)
}

/// A line that begins with the name of a transaction and this text.
pub(crate) fn named(alloc: Global, name: &Name, text: &[u8]) -> Result<Vec<u8>, AllocError>
    ensures { IfOk result (λ out. out.items ≡ name.now ++ text.now) }
{
    let mut out = begun(alloc, name.as_bytes())?;
    add(&mut out, text)?;
    Ok(out)
}

/// A line that begins with the name of a transaction, this word and a key.
pub(crate) fn keyed(
    alloc: Global,
    name: &Name,
    word: &[u8],
    key: &Key,
) -> Result<Vec<u8>, AllocError>
    ensures { IfOk result (λ out. out.items ≡ name.now ++ word.now ++ escaped key.now) }
{
    let mut out = named(alloc, name, word)?;
    add_escaped(&mut out, key.as_bytes())?;
    Ok(out)
}
