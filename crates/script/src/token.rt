//! Tokens: words that stand for bytes.
ghost use Rattle.std.specs.Prelude.{◌≡◌, IfOk, IsTrue, Some, fold};
ghost use Rattle.std.specs.List.{list_all};
ghost use Rattle.std.specs.Option.{option_map};
ghost use Rattle.script.specs.Token.{hex, is_plain, decoded, start, decode_step, Decoding};

use std::alloc::{AllocError, Global};

/// What the next byte of a token may be.
#[derive(Clone, Copy)]
pub enum Expects {
    /// A byte that stands for itself, or the sign that begins an escape.
    Plain,
    /// The first digit of an escape.
    First,
    /// The second digit, behind one of this value.
    Second(u8),
    /// Nothing: an earlier byte broke the form.
    Nothing,
}

fn hex(byte: u8) -> Option<u8>
    ensures { result ≡ hex byte }
{
    match byte {
        b'0'..=b'9' => Some(byte - 48),
        b'a'..=b'f' => Some(byte - 87),
        _ => None,
    }
}

/// Whether a byte of a token stands for itself.
pub fn is_plain(byte: u8) -> bool
    ensures { result ≡ is_plain byte }
{
    32 < byte && byte < 127 && byte != b'%'
}

/// Whether each byte of a text stands for itself.
pub fn all_plain(text: &[u8]) -> bool
    ensures { result ≡ list_all is_plain text.now }
{
    let mut plain = true;
    for byte in text {
        plain = plain & is_plain(*byte);
    }
    plain
}

/// Whether a token stands for its own bytes.
#[tactic(auto, using(crate::proofs::Plain::itself))]
pub fn is_itself(token: &[u8]) -> bool
    ensures { IsTrue result → decoded token.now ≡ Some token.now }
{
    match token {
        [] => false,
        _ => all_plain(token),
    }
}

/// The bytes that a token stands for, if it is one.
#[tactic(auto, unfolding(crate::specs::Token::decoded))]
pub fn decode(alloc: Global, token: &[u8]) -> Result<Option<Vec<u8>>, AllocError>
    ensures { IfOk result (λ r. option_map (λ v. v.items) r ≡ decoded token.now) }
{
    if token.is_empty() {
        return Ok(None);
    }
    if token == [b'%'].as_slice() {
        return Ok(Some(Vec::new(alloc)));
    }
    let mut out = Vec::new(alloc);
    let mut expects = Expects::Plain;
    for byte in token {
        expects = step(&mut out, expects, *byte)?;
    }
    match expects {
        Expects::Plain => Ok(Some(out)),
        _ => Ok(None),
    }
}

fn step(out: &mut Vec<u8>, expects: Expects, byte: u8) -> Result<Expects, AllocError>
    ensures { IfOk result (λ e. record { out = out.new.items; expects = e } ≡ decode_step (record { out = out.old.items; expects = expects }) byte) }
{
    match expects {
        Expects::Plain => {
            if byte == b'%' {
                Ok(Expects::First)
            } else if is_plain(byte) {
                out.push(byte)?;
                Ok(Expects::Plain)
            } else {
                Ok(Expects::Nothing)
            }
        }
        Expects::First => match hex(byte) {
            Some(high) => Ok(Expects::Second(high)),
            None => Ok(Expects::Nothing),
        },
        Expects::Second(high) => match hex(byte) {
            Some(low) => {
                out.push(high.wrapping_mul(16).wrapping_add(low))?;
                Ok(Expects::Plain)
            }
            None => Ok(Expects::Nothing),
        },
        Expects::Nothing => Ok(Expects::Nothing),
    }
}
